//! Bits and squared error as separate counters, which only a price brings together.
#![tactic(auto)]

ghost use Rattle.std.specs.Prelude.{◌≡◌, ◌+◌, ◌≤◌, ◌<◌, ◌^◌, IfOk};
ghost use Rattle.block.specs.Limits.{most_bits, most_error};
ghost use Rattle.price.specs.Accepted.{Accepted};

use std::ops::Add;

const MOST_ON_ERROR: u64 = 65535;

const MOST_ON_BITS: u64 = 8000000000000;

/// A number of bits.
#[derive(Clone, Copy, Debug, PartialEq, Eq, PartialOrd, Ord)]
pub struct Bits(pub u64);

/// A sum of squared error.
#[derive(Clone, Copy, Debug, PartialEq, Eq, PartialOrd, Ord)]
pub struct Error(pub u64);

impl Add for Bits {
    type Output = Bits;

    ghost can_add = { λ x y. x.0 + y.0 < 2 ^ 64 };

    ghost add_gives = { λ x y r. r.0 ≡ x.0 + y.0 };

    fn add(self, other: Bits) -> Bits {
        Bits(self.0 + other.0)
    }
}

impl Add for Error {
    type Output = Error;

    ghost can_add = { λ x y. x.0 + y.0 < 2 ^ 64 };

    ghost add_gives = { λ x y r. r.0 ≡ x.0 + y.0 };

    fn add(self, other: Error) -> Error {
        Error(self.0 + other.0)
    }
}

/// What a unit of error (`a`) and a bit (`b`) cost, both within their ranges.
#[derive(Clone, Copy, Debug, PartialEq, Eq)]
pub struct Price {
    pub a: u64,
    pub b: u64,
    pub ghost accepted: { Accepted a b },
}

/// Which number of a price is outside its range.
#[derive(Clone, Copy, Debug, PartialEq, Eq)]
pub enum OutOfRange {
    OnError,
    OnBits,
}

impl Price {
    ghost use Rattle.price.specs.Price.{outside, outside_told, cost_of};

    /// The price at which a bit costs nothing.
    pub const FREE: Price = Price { a: 1, b: 0 };

    /// The price at which a bit costs most.
    pub const DEAREST: Price = Price {
        a: 1,
        b: MOST_ON_BITS,
    };

    /// The price `a` on error, from 1 to 65,535, and `b` on bits, up to 8,000,000,000,000. `a` is tested first.
    pub fn new(a: u64, b: u64) -> Result<Price, OutOfRange>
        ensures made { IfOk result (λ p. (p.a ≡ a) × (p.b ≡ b)) }
        ensures told { outside_told result ≡ outside a b }
    {
        if a < 1 || MOST_ON_ERROR < a {
            return Err(OutOfRange::OnError);
        }
        if MOST_ON_BITS < b {
            return Err(OutOfRange::OnBits);
        }
        Ok(Price { a, b })
    }

    /// The cost of a block's choice.
    pub fn cost(self, error: Error, bits: Bits) -> u64
        requires { (error.0 ≤ most_error) × (bits.0 ≤ most_bits) }
        ensures { result ≡ cost_of self error.0 bits.0 }
    {
        self.a * error.0 + self.b * bits.0
    }
}
