ghost use Rattle.std.specs.Prelude.{◌≡◌};
ghost use Rattle.frame_core.specs.Access.{access_record};

use crate::numbers::ClientNo;
use crate::place::Address;
use crate::record::Record;

/// How a word is accessed.
#[derive(Clone, Copy, Debug, PartialEq, Eq)]
pub enum AccessKind {
    Load,
    Store,
}

/// An access of a client to words of the page that an address names.
#[derive(Clone, Copy, Debug, PartialEq, Eq)]
pub struct Access {
    pub kind: AccessKind,
    pub client: ClientNo,
    pub address: Address,
}

impl Access {
    /// The record of an access to a word, which has this value.
    pub fn record(&self, word: u16, value: u64) -> Record
        ensures { result ≡ access_record self.now word value }
    {
        let Access {
            kind,
            client,
            address,
        } = *self;
        match kind {
            AccessKind::Load => Record::Load {
                client,
                address,
                word,
                value,
            },
            AccessKind::Store => Record::Store {
                client,
                address,
                word,
                value,
            },
        }
    }
}
