//! Making a call that is a value.

ghost use Rattle.std.specs.Prelude.{◌≡◌, IsTrue, IfOk, OnOk, OnErr};
ghost use Rattle.std.specs.Result.{result_err};
ghost use Rattle.state_core.specs.Calls.{refusal_of, answer_of, after, is_access};
ghost use Rattle.state_core.specs.Valid.{IsValidZone};
ghost use Rattle.state_core.specs.Pairs.{HaveMet};
ghost use Rattle.zone_core.specs.ZoneIdentity.{HasIdentity};

use crate::opening::{Opening, ZoneInOf};
use frame_core::ClientNo;
use state_core::{ZoneAnswer, ZoneCallOf as Call, ZoneError};

impl<const W: usize, Z: Opening> ZoneInOf<W, Z> {
    /// Makes a call of a client: the method of its name does it, and may refuse it. A call that names no address is the same
    /// whichever client makes it.
    #[inline(always)]
    pub fn make(&mut self, client: ClientNo, call: Call<W>) -> Result<ZoneAnswer, ZoneError>
        ensures refused { result_err result ≡ refusal_of call.entry self.old }
        ensures err { OnErr result (self.new ≡ self.old) }
        ensures answer { IfOk result (λ answer. answer ≡ answer_of call.entry self.old) }
        ensures ok { OnOk result (self.new ≡ after call.entry client self.old) }
        // A load or a store doesn't make a pair.
        ensures met { OnOk result (IsTrue (is_access call.entry) → HaveMet self.old → HaveMet self.new) }
        ensures identity { HasIdentity self.old.number self.old.blocks self.new }
        ensures valid { IsValidZone self.new }
    {
        self.bare.make(client, call)
    }
}
