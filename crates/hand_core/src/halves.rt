ghost use Rattle.std.specs.Prelude.{◌≡◌, [], IfOk};
ghost use Rattle.hand_core.specs.Told.{pair_of, written, written_if};

use crate::rule::{Compares, Halves, OneList, Part, Writes};
use atomic_table::{Seat, Table};
use frame_core::Record;
use std::alloc::{AllocError, Global};
use std::marker::Model;

/// The half that stays, with the memory of the pair.
#[derive(Drop)]
pub struct Stub {
    table: Table<Record, Part, (), OneList, Global>,
    seat: Seat<Record, Part>,
}

impl Model for Stub {
    ghost use Rattle.std.specs.Coded.{codes};
    ghost use Rattle.atomic_table.specs.Seated.{table_id_coded};
    ghost use Rattle.hand_core.specs.Told.{Told};

    ghost Value = { Told };

    ghost coded = { Prim.hlevel (codes, table_id_coded) };

    ghost use Rattle.hand_core.specs.Parts.{IsStub};

    ghost view = { λ s. record { pair = s.seat.table_id; records = s.seat.me.0.records } };

    ghost invariant = { λ s. IsStub s.table.shared.table_id s.seat.table_id s.seat.me };
}

/// The half that goes to whoever is told. It has no bytes.
#[derive(Drop)]
pub struct Slip {
    seat: Seat<Record, Part>,
}

impl Model for Slip {
    ghost use Rattle.std.specs.Coded.{codes};
    ghost use Rattle.atomic_table.specs.Seated.{table_id_coded};
    ghost use Rattle.hand_core.specs.Told.{Told};

    ghost Value = { Told };

    ghost coded = { Prim.hlevel (codes, table_id_coded) };

    ghost use Rattle.hand_core.specs.Parts.{IsHalf};

    ghost view = { λ s. record { pair = s.seat.table_id; records = s.seat.me.0.records } };

    ghost invariant = { λ s. IsHalf s.seat.me };
}

impl Stub {
    /// A new pair, whose list is empty, or an error where there is no memory for it.
    pub fn pair(alloc: Global) -> Result<(Stub, Slip), AllocError>
        ensures { IfOk result (λ both. (both.0 ≡ both.1) × (both.0.records ≡ [])) }
    {
        let (table, mut seat) = Table::<Record, Part, (), OneList, Global>::of_words(
            alloc,
            &[0],
            &(),
        )?;
        let other = table.shared.split_seat::<Halves>(&mut seat);
        Ok((Stub { table, seat }, Slip { seat: other }))
    }

    /// Writes a record at the end of the list, on both halves of a pair.
    pub fn write(&mut self, slip: Slip, receipt: &Record) -> Slip
        requires pair { slip.pair ≡ self.old.pair }
        ensures same { slip ≡ self.old }
        ensures stub { self.new ≡ written receipt.now self.old }
        ensures slip { result ≡ written receipt.now slip }
    {
        let Stub { table, seat } = self;
        table.shared.join_seat::<Halves>(seat, slip.seat);
        let _ = table
            .shared
            .compare_exchange_with::<Writes>(seat, 0, 0, 0, receipt);
        let other = table.shared.split_seat::<Halves>(seat);
        Slip { seat: other }
    }

    /// Puts the two halves of a pair together: both have the same list.
    pub fn compare(self, slip: Slip)
        requires pair { slip.pair ≡ self.pair }
        ensures same { slip ≡ self }
    {
        let Stub { table, mut seat } = self;
        table.shared.join_seat::<Halves>(&mut seat, slip.seat);
        let _ = table.shared.load::<Compares>(&mut seat, 0);
    }
}

/// Writes a record on both halves of a pair, where there is one.
pub fn write_both(stub: &mut Option<Stub>, slip: &mut Option<Slip>, receipt: &Record)
    requires pair { pair_of slip.old ≡ pair_of stub.old }
    ensures stub { stub.new ≡ written_if receipt.now stub.old }
    ensures slip { slip.new ≡ written_if receipt.now slip.old }
{
    let Some(stub) = stub else {
        return;
    };
    if let Some(own) = slip.take() {
        *slip = Some(stub.write(own, receipt));
    }
}
