//! Sets of chambers (this tool's profile, configuration and moves).
ghost use Rattle.std.specs.Prelude.{◌≡◌, ◌-◌, ◌≤◌, ◌^◌};
ghost use Rattle.tool_tasks.specs.Chambers.{last_chamber, has_chamber, with_chamber, chambers_to};

use std::marker::Model;

/// The chambers that can do a step of a recipe (this tool's profile, configuration): a set of the numbers 1 to 8. Contracts see it as its
/// bits, of which bit c - 1 stands for chamber c.
#[derive(Clone, Copy)]
pub struct RecipeChambers {
    bits: u8,
}

impl Model for RecipeChambers {
    ghost use Rattle.std.specs.Prelude.{ℕ, ◌<◌, ◌^◌};
    ghost use Rattle.tool_tasks.specs.Chambers.{last_chamber};

    ghost Value = { ℕ };

    ghost view = { λ c. c.bits };

    ghost invariant = { λ c. c.bits < 2 ^ last_chamber };

    ghost inverse = { λ bits. record { bits = bits } };
}

impl RecipeChambers {
    /// No chamber.
    pub fn none() -> RecipeChambers
        ensures { result ≡ 0 }
    {
        RecipeChambers { bits: 0 }
    }

    /// The chambers from 1 to this one, 0 to 8.
    pub fn to(last: u8) -> RecipeChambers
        requires { last ≤ last_chamber }
        ensures { result ≡ chambers_to last }
    {
        RecipeChambers {
            bits: ((1u16 << last) - 1) as u8,
        }
    }

    /// The same with a chamber, 1 to 8.
    pub fn with(self, c: u8) -> RecipeChambers
        requires first { 1 ≤ c }
        requires last { c ≤ last_chamber }
        ensures { result ≡ with_chamber self c }
    {
        RecipeChambers {
            bits: self.bits | (1 << (c - 1)),
        }
    }

    /// The set as bits.
    pub fn bits(self) -> u8
        ensures { result ≡ self }
    {
        self.bits
    }
}

/// Whether a set of chambers has this one, 1 to 8: whether its bit c - 1 is set.
pub fn has_chamber(chambers: u8, c: u8) -> bool
    requires first { 1 ≤ c }
    requires last { c ≤ last_chamber }
    ensures { result ≡ has_chamber chambers c }
{
    (chambers >> (c - 1)) % 2 == 1
}
