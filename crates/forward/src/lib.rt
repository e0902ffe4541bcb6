//! The best choice of a gathered block, forward: at each level that is not 0 the best choice that ends there.
#![tactic(auto)]

pub mod first;
pub mod level;
pub mod nodes;
pub mod table;

pub use first::{Exact, Quick, Rank};
pub use level::{Gathered, Level};
pub use nodes::Nodes;
use price::{Bits, Error};
pub use table::{LEAST, NO, SAVED, Table};

/// The best choice of a block: its bits, its error and its keep number.
#[derive(Clone, Copy, Debug, PartialEq, Eq)]
pub struct Chosen {
    pub bits: Bits,
    pub error: Error,
    pub keep: u64,
}

impl Chosen {
    /// What an array holds where no choice has been stored.
    pub const NONE: Chosen = Chosen {
        bits: Bits(0),
        error: Error(0),
        keep: 0,
    };
}
