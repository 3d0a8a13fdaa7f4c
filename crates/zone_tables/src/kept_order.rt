ghost use Rattle.std.specs.Prelude.{◌≡◌};

use frame_core::Order;
use std::marker::Model;

/// The order of a block in one byte, or that there is none.
#[derive(Clone, Copy)]
pub struct KeptOrder {
    /// The order, or zero.
    number: u8,
}

impl Model for KeptOrder {
    ghost use Rattle.std.specs.Prelude.{ℕ, Option, unwrap_or, ◌<◌, ◌≤◌};
    ghost use Rattle.zone_tables.specs.KeptOrder.{order_kept};

    ghost Value = { Option ℕ };

    ghost view = { λ z. order_kept z.number };

    ghost invariant = { λ z. (0 < z.number → 3 ≤ z.number) × (z.number ≤ 9) };

    ghost inverse = { λ order. record { number = unwrap_or order 0 } };
}

impl KeptOrder {
    /// The order as it is kept.
    #[inline(always)]
    pub fn of(order: Option<Order>) -> Self
        ensures { result ≡ order }
    {
        match order {
            None => KeptOrder { number: 0 },
            Some(order) => KeptOrder {
                number: order.get() as u8,
            },
        }
    }

    /// The order.
    #[inline(always)]
    pub fn order(self) -> Option<Order>
        ensures { result ≡ self }
    {
        Order::new(u32::from(self.number))
    }
}
