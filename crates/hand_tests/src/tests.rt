ghost use Rattle.std.specs.Prelude.{◌≡◌, true, IfSome};

mod copying;
mod handing;

use frame_core::{Isolated, Page, PageNo, Serial, WordNo, ZoneNo};
use std::process::Abort;

const LAST_WORD: u32 = 7;

// The page of this number, whose last word is the number plus 1.
fn isolated(serial: Serial, number: u32) -> Option<Isolated>
    ensures { IfSome result (λ p. p.serial ≡ serial) }
{
    let mut page = Page::new(ZoneNo::new(0)?, PageNo::new(number)?);
    page.set_word(WordNo::new(LAST_WORD)?, u64::from(number) + 1);
    Some(Isolated::new(serial, page))
}

// Whether this is the page of this number.
fn is_page(page: &Page, number: u32) -> bool {
    let Some(last) = WordNo::new(LAST_WORD) else {
        return false;
    };
    page.number().get() == number && page.word(last) == u64::from(number) + 1
}

// Stops the test where this doesn't hold. What is wrong is told with the serial of the page or copy.
fn assert_of<R: Abort>(rt: &R, serial: Serial, holds: bool, wrong: &str)
    ensures { holds ≡ true }
{
    assert!(rt; holds, "{wrong} {serial}");
}
