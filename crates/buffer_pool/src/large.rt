use crate::pool::Pool;
use crate::trouble::Trouble;
use zone_core::ZoneError;

impl Pool {
    /// Asks for a large buffer while a long transaction has a buffer pinned, and sees whether this one stayed in its frame.
    pub fn ask_pinned(&mut self) -> Result<(), Trouble> {
        let block = self.draw_resident()?;
        self.buffers.pin(block)?;
        let before = self.buffers.look(block)?;
        self.ask()?;
        let after = self.buffers.look(block)?;
        self.tally.pinned.note(before == after);
        self.buffers.unpin(block)?;
        Ok(())
    }

    /// Asks for a large buffer. Where none is free, a round is run, and it is asked for once more.
    fn ask(&mut self) -> Result<(), Trouble> {
        let mut is_got = self.take()?;
        if !is_got {
            self.buffers.compact();
            self.tally.rounds = self.tally.rounds.saturating_add(1);
            is_got = self.take()?;
        }
        self.tally.large.note(is_got);
        Ok(())
    }

    /// Takes a large buffer if there is one. Whether there was.
    fn take(&mut self) -> Result<bool, Trouble> {
        match self.buffers.take_large() {
            Err(ZoneError::NoBlock) => Ok(false),
            Err(refused) => Err(Trouble::Zone(refused)),
            Ok(large) => {
                self.large.push(large)?;
                Ok(true)
            }
        }
    }

    /// Gives all large buffers back.
    pub fn give_back(&mut self) -> Result<(), ZoneError> {
        for large in &self.large {
            self.buffers.give_large(*large)?;
        }
        self.large.clear();
        Ok(())
    }
}
