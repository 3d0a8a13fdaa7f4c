ghost use Rattle.std.specs.Prelude.{◌≡◌, ◌↔◌, IsSome, IfSome, IsTrue};
ghost use Rattle.state_core.specs.Calls.{is_of_client};

use crate::call::ZoneCall;
use std::marker::Model;

/// A call that a client may make beside a round. It names an address.
#[derive(Clone, Copy, Debug, PartialEq, Eq)]
pub struct ClientCall<const W: usize> {
    call: ZoneCall<W>,
}

impl<const W: usize> Model for ClientCall<W> {
    ghost use Rattle.std.specs.Prelude.{IsTrue};
    ghost use Rattle.state_core.specs.Calls.{is_of_client};
    ghost use Rattle.state_core.specs.declared.call.ZoneCall.{ZoneCall};

    ghost Value = { ZoneCall W };

    ghost view = { λ c. c.call };

    ghost invariant = { λ c. IsTrue (is_of_client c.call) };

    ghost inverse = { λ call. record { call = call } };
}

impl<const W: usize> ClientCall<W> {
    /// The call as one of a client. None where no client may make it.
    pub fn new(call: ZoneCall<W>) -> Option<Self>
        ensures valid { IsSome result ↔ IsTrue (is_of_client call.entry) }
        ensures value { IfSome result (λ c. c ≡ call.entry) }
    {
        if !call.is_of_client() {
            return None;
        }
        Some(ClientCall { call })
    }

    /// The call.
    pub fn get(self) -> ZoneCall<W>
        ensures value { result ≡ self.entry }
        ensures of_client { IsTrue (is_of_client result) }
    {
        self.call
    }
}
