// Refusals: why, and where. Document 01 gives each reason a number.
#![tactic(auto)]

ghost use Rattle.std.specs.Prelude.{◌≡◌};
ghost use Rattle.refusals.specs.Numbers.{number_of};

use std::marker::Model;

// The names are those of `docs/REFUSALS.md`.
#[derive(Clone, Copy, PartialEq, Eq, Debug)]
pub enum Reason {
    BufferOverLimit = 1,
    Lists = 2,
    Vector = 3,
    Signal = 4,
    Range = 5,
    RoomShort = 6,
    InputEnds = 7,
    Mark = 8,
    Zeros = 9,
    EndMark = 10,
    Negative = 11,
    Leb128 = 12,
    Id = 13,
    Value = 14,
    Time = 15,
    Full = 16,
    Kind = 17,
    Order = 18,
    Unsuited = 19,
    PastValues = 20,
    Sessions = 21,
    IdsFall = 22,
    TimeFalls = 23,
    Bench = 34,
}

// A reason's number, and a place. Of the number nothing is asked, so that what takes a refusal takes every one.
#[derive(Clone, Copy, PartialEq, Eq, Debug)]
pub struct Refusal(pub u64, pub usize);

impl Model for Refusal {
    ghost use Rattle.std.specs.Prelude.{refl};
    ghost use Rattle.refusals.specs.Numbers.{Numbered};

    ghost Value = { Numbered };

    ghost view = { λ r. (r.0, r.1) };

    ghost inverse = { λ p. record { 0 = p.0; 1 = p.1 } };

    ghost inverse_ok = { λ r _. refl };
}

impl Reason {
    pub fn number(self) -> u64
        ensures { result ≡ number_of self }
    {
        self as u64
    }
}

impl Refusal {
    pub fn number(self) -> u64
        ensures { result ≡ self.0 }
    {
        self.0
    }

    pub fn place(self) -> usize
        ensures { result ≡ self.1 }
    {
        self.1
    }
}
