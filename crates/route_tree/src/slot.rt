//! A number or none, in four bytes.

ghost use Rattle.std.specs.Prelude.{◌≡◌, ◌<◌, None, Some};

use std::marker::Model;

/// The number that stands for none.
const EMPTY: u32 = u32::MAX;

/// A number below 2^32 - 1, or none. It takes half the room of an `Option<u32>`.
#[derive(Clone, Copy)]
pub struct NumberSlot(u32);

impl Model for NumberSlot {
    ghost use Rattle.std.specs.Prelude.{ℕ, Option};
    ghost use Rattle.route_tree.specs.Slots.{slot_number, kept_as, kept_again};

    ghost Value = { Option ℕ };

    ghost view = { λ s. slot_number s.0 };

    ghost inverse = { λ o. record { 0 = kept_as o } };

    ghost inverse_ok = { λ s h i. record { 0 = kept_again s.0 i } };
}

impl NumberSlot {
    /// No number.
    pub fn none() -> Self
        ensures { result ≡ None }
    {
        NumberSlot(EMPTY)
    }

    /// This number.
    pub fn some(n: u32) -> Self
        requires { n < 4294967295 }
        ensures { result ≡ Some n }
    {
        NumberSlot(n)
    }

    /// The number, if there is one.
    pub fn get(self) -> Option<u32>
        ensures { result ≡ self }
    {
        if self.0 == EMPTY { None } else { Some(self.0) }
    }
}
