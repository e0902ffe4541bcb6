//! The table of bits.

ghost use Rattle.std.specs.Prelude.{◌≡◌, ℕ, ◌*◌, ◌≤◌, ◌<◌, get_or, IsTrue};
ghost use Rattle.forward.specs.declared.table.TheConstants.{NO, SAVED};
ghost use Rattle.forward.specs.Bits.{is_full};

use price::Price;

/// The mark of a missing code in the table of bits. An `Option` in each entry would make the scan's reads twice as wide, and
/// would have to become a number there after all, since costs are compared.
pub const NO: u64 = 2048;

/// The entry of the least bits of a level, which no run reaches.
pub const LEAST: usize = 127;

/// The entry of the most bits that a longer run saves, which no run reaches.
pub const SAVED: usize = 191;

/// The mark of no cost: above every cost, and two of them still fit in 64 bits.
pub(crate) const FAR: u64 = 4611686018427387904;

/// The bits of a level of size s after a run of r zeros at s * 64 + r, and of the end of block after position j at 63 - j.
#[derive(Drop)]
pub struct Table {
    /// The bits, or `NO` where a code is missing.
    pub bits: [u64; 704],
    /// Whether no code is missing.
    pub full: bool,
    pub ghost most: { (x : ℕ) → get_or bits x 0 ≤ NO },
    pub ghost full_is: { full ≡ is_full bits },
}

/// A table of bits at a price. What each level asks of it is at hand, since a store to a node makes the compiler read the
/// table again.
#[derive(Clone, Copy)]
pub(crate) struct Rates<'a> {
    pub table: &'a Table,
    pub price: Price,
    /// Whether no code is missing.
    pub full: bool,
    /// The cost of the most bits that a longer run saves.
    pub saved: u64,
    pub ghost full_is: { full ≡ table.now.full },
    pub ghost saved_is: { saved ≡ price.b * get_or table.now.bits SAVED 0 },
}

impl<'a> Rates<'a> {
    ghost use Rattle.forward.specs.Bits.{priced};

    pub fn new(table: &'a Table, price: Price) -> Rates<'a>
        ensures table { result.table.now ≡ table.now }
        ensures price { result.price ≡ price }
    {
        Rates {
            table,
            price,
            full: table.full,
            saved: price.b * table.bits[SAVED],
        }
    }

    /// What entry `x` costs, or `FAR` where the code is missing. Where `FULL` says that none is, there is no test for it.
    pub fn cost<const FULL: bool>(&self, x: usize) -> u64
        requires within { x < 704 }
        requires full { IsTrue FULL → IsTrue self.now.full }
        ensures { result ≡ priced self.now.price.b (get_or self.now.table.now.bits x 0) }
    {
        let n = self.table.bits[x];
        if FULL {
            return self.price.b * n;
        }
        if n == NO {
            return FAR;
        }
        self.price.b * n
    }
}
