//! What the jobs answer: a point, a number of corners or of kept coefficients, or a refusal with its two details.
#![tactic(auto)]

ghost use Rattle.std.specs.Prelude.{◌≡◌};
ghost use Rattle.answers.specs.declared.Kind.TheVariants.{Price as PriceKind};
ghost use Rattle.answers.specs.Said.{number_of};
ghost use Rattle.price.specs.Price.{number_of as number_outside};

use price::{Bits, Error, OutOfRange};

/// Why a call is refused, in the order of the refusals' numbers.
#[derive(Clone, Copy, Debug, PartialEq, Eq)]
pub enum Kind {
    Levels = 1,
    Steps,
    Lengths,
    Price,
    Room,
    Level,
    Uncodable,
    Corners,
    Budget,
    Keep,
    Packet,
}

impl Kind {
    /// The number by which C and the list program tell it, 1 to 11.
    pub fn number(self) -> u32
        ensures { result ≡ number_of self }
    {
        self as u32
    }
}

/// A refusal with its two details, 0 where none is named.
#[derive(Clone, Copy, Debug, PartialEq, Eq)]
pub struct Refusal {
    pub kind: Kind,
    pub first: u64,
    pub second: u64,
}

impl Refusal {
    /// A refusal with one detail.
    pub fn new(kind: Kind, first: u64) -> Refusal
        ensures { result ≡ record { kind = kind; first = first; second = 0 } }
    {
        Refusal {
            kind,
            first,
            second: 0,
        }
    }
}

impl From<OutOfRange> for Refusal {
    ghost from_gives = { λ outside r. r ≡ record { kind = PriceKind; first = number_outside outside; second = 0 } };

    fn from(outside: OutOfRange) -> Refusal {
        match outside {
            OutOfRange::OnError => Refusal::new(Kind::Price, 1),
            OutOfRange::OnBits => Refusal::new(Kind::Price, 2),
        }
    }
}

/// The bits, the squared error and the kept coefficients of a whole still.
#[derive(Clone, Copy, Debug, PartialEq, Eq)]
pub struct Point {
    pub bits: Bits,
    pub error: Error,
    pub kept: u64,
}
