ghost use Rattle.std.specs.Prelude.{◌≡◌, ◌≢◌, ◌<◌, ℕ, true, false};
ghost use Rattle.armcaps_caps.specs.Rows.{capability_count};
ghost use Rattle.armcaps_caps.specs.Set.{holds};

use crate::table::CAPABILITIES;
use std::marker::Model;

/// A set of capabilities. Contracts see it as one number, the sum of 2 ^ n over its members n.
#[derive(Clone, Copy, PartialEq, Eq)]
pub struct CapSet {
    bits: u64,
}

impl Model for CapSet {
    ghost use Rattle.std.specs.Prelude.{ℕ, ◌^◌, ◌<◌};

    ghost Value = { ℕ };

    ghost view = { λ set. set.bits };

    ghost invariant = { λ set. set.bits < 2 ^ 53 };

    ghost inverse = { λ set. record { bits = set } };
}

impl CapSet {
    /// The set without members.
    pub fn empty() -> CapSet
        ensures value { result ≡ 0 }
        ensures none { (number : ℕ) → holds result number ≡ false }
    {
        CapSet { bits: 0 }
    }

    /// Whether the capability of this number is a member.
    pub fn contains(&self, number: u16) -> bool
        ensures { result ≡ holds self.now number }
    {
        number < CAPABILITIES && self.bits >> number & 1 == 1
    }

    /// Makes the capability of this number a member. The others are members as before.
    pub fn insert(&mut self, number: u16)
        requires { number < capability_count }
        ensures here { holds self.new number ≡ true }
        ensures others { (other : ℕ) → other ≢ number → holds self.new other ≡ holds self.old other }
    {
        self.bits |= 1 << number;
    }
}
