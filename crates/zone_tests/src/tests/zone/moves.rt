//! Steps with a zone's rounds, its isolated page and its seats.

ghost use Rattle.std.specs.Prelude.{◌≤◌};

use super::super::answers::{Answer, Shown};
use super::super::calls::PAGE;
use super::super::{address, word};
use super::{Opened, Step};
use frame_core::{Cause, IsolatedOf, PageNo, PageOf, Record, Serial, ZoneNo};
use std::process::Abort;
use zone_core::{Info, Look, Next, Opening, Stranger, ZoneError};

/// What is told of a zone: its counts, the length of its journal, and what is known of its page.
type Told = (Info, u64, Result<Look, ZoneError>);

impl<const W: usize, Z: Opening> Opened<W, Z> {
    pub fn move_page(&mut self, rt: &impl Abort, step: Step) -> Answer
        requires { W ≤ 65536 }
    {
        match step {
            Step::Round => self.begin(),
            Step::Isolate => self.isolate(rt),
            Step::SetWord(number, value) => self.set_word(rt, number, value),
            Step::Commit => self.commit(rt),
            Step::PutBack => self.put_back(rt),
            Step::Stranger(zone, number, serial) => self.bring(rt, zone, number, serial),
            _ => panic!(rt; "no step with a page"),
        }
    }

    fn told(&self, rt: &impl Abort) -> Told {
        let look = self.zone.look(address(rt, PAGE));
        (self.zone.info(), self.zone.journal().len(), look)
    }

    fn begin(&mut self) -> Answer {
        self.zone.begin_round(&mut self.seats.scan);
        Answer::Done
    }

    /// Its serial is the number of pages that were isolated before it.
    fn isolate(&mut self, rt: &impl Abort) -> Answer {
        self.begin();
        match self.zone.isolate_next(&mut self.seats.scan) {
            Ok(Next::Page(page)) => {
                assert!(rt; page.serial() == self.isolated, "another serial");
                self.isolated = self.isolated.saturating_add(1);
                self.page = Some(page);
                Answer::Page
            }
            Ok(Next::Met) => Answer::Met,
            Err(error) => error.shown(),
        }
    }

    fn take_page(&mut self, rt: &impl Abort) -> IsolatedOf<W> {
        self.page.take().expect(rt, "an isolated page")
    }

    fn set_word(&mut self, rt: &impl Abort, number: u32, value: u64) -> Answer
        requires { W ≤ 65536 }
    {
        let word = word(rt, number);
        let isolated = self.take_page(rt);
        let serial = isolated.serial();
        let mut page = isolated.into_page();
        let before = page.word(word);
        page.set_word(word, value);
        self.page = Some(IsolatedOf::new(serial, page));
        Answer::Value(before)
    }

    /// Where the zone refuses the copy, the page comes back with its words, and the zone is as before.
    fn commit(&mut self, rt: &impl Abort) -> Answer {
        let before = self.told(rt);
        let page = self.take_page(rt);
        let serial = page.serial();
        match self.zone.commit(&mut self.seats.ends, page.copy_into_new()) {
            Ok(ended) => Answer::Finished(serial, ended),
            Err(Stranger(copy)) => {
                assert!(rt; copy.serial() == serial);
                self.comes_back(rt, before, IsolatedOf::new(serial, copy.into_page()))
            }
        }
    }

    /// Where the zone refuses the page, it comes back, and the zone is as before.
    fn put_back(&mut self, rt: &impl Abort) -> Answer {
        let before = self.told(rt);
        let page = self.take_page(rt);
        let serial = page.serial();
        match self.zone.put_back(&mut self.seats.ends, page) {
            Ok(()) => self.noted_as_not_copied(rt),
            Err(Stranger(page)) => {
                assert!(rt; page.serial() == serial);
                self.comes_back(rt, before, page)
            }
        }
    }

    /// The newest record is of a page that was put back since it wasn't copied.
    fn noted_as_not_copied(&self, rt: &impl Abort) -> Answer {
        let records = self.zone.journal().kept().expect(rt, "a kept journal");
        assert!(rt;
            matches!(
                records.last(),
                Some(Record::Back {
                    cause: Cause::NotCopied,
                    ..
                })
            )
        );
        Answer::Done
    }

    /// The zone is as it was before it refused the page.
    fn comes_back(&mut self, rt: &impl Abort, before: Told, page: IsolatedOf<W>) -> Answer {
        assert!(rt; self.told(rt) == before);
        self.page = Some(page);
        Answer::Stranger
    }

    fn bring(&mut self, rt: &impl Abort, zone: u32, number: u32, serial: Serial) -> Answer {
        let zone = ZoneNo::new(zone).expect(rt, "a zone");
        let number = PageNo::new(number).expect(rt, "a page");
        let kept = self
            .page
            .replace(IsolatedOf::new(serial, PageOf::new(zone, number)));
        assert!(rt;
            self.commit(rt) == Answer::Stranger,
            "a copy of a stranger is taken"
        );
        let answer = self.put_back(rt);
        let page = self.take_page(rt).into_page();
        assert!(rt; (page.zone(), page.number()) == (zone, number));
        self.page = kept;
        answer
    }

    /// Splits parts off the end seat, changes its place with the first of them, or joins it with the last.
    pub fn change_parts(&mut self, rt: &impl Abort, step: Step) -> Answer {
        match step {
            Step::Split => match self.seats.ends.split() {
                Some(part) => self.parts.push(part).expect(rt, "memory"),
                None => return Answer::NoPart,
            },
            Step::Swap => {
                let first = self.parts.first_mut().expect(rt, "a part");
                std::mem::swap(&mut self.seats.ends, first);
            }
            _ => self.seats.ends.join(self.parts.pop().expect(rt, "a part")),
        }
        Answer::Done
    }
}
