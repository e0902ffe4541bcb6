//! The levels of a block that are not 0, gathered for the search.

ghost use Rattle.std.specs.Prelude.{◌*◌, get_or};
ghost use Rattle.forward.specs.Cutting.{Cuttable, Cut};

use crate::table::{LEAST, Rates};
use price::Error;

/// A level that is not 0.
#[derive(Clone, Copy, Debug, PartialEq, Eq)]
pub struct Level {
    /// Its position, from 1 to 63.
    pub place: usize,
    /// Its size, from 1 to 10.
    pub size: usize,
    /// The squared error of dropping it.
    pub drop: u64,
}

impl Level {
    /// The start, at position 0, before all levels.
    pub const START: Level = Level {
        place: 0,
        size: 0,
        drop: 0,
    };
}

/// The levels of a block that are not 0, by position: an array with their count beside it, since there is no heap.
#[derive(Clone, Copy)]
pub struct Gathered {
    /// How many they are.
    pub count: usize,
    /// The squared error of dropping them all.
    pub error: Error,
    /// The start at 0, and the levels at 1 to `count`.
    pub levels: [Level; 64],
}

impl Gathered {
    /// How many levels are left when the last ones are cut that can't pay for the least bits of a level. One at position 63
    /// stays: the end of block depends on it.
    pub(crate) fn paying(&self, rates: &Rates) -> usize
        requires { Cuttable self.now }
        ensures { Cut rates.now.price.a (rates.now.price.b * get_or rates.now.table.now.bits LEAST 0) self.now result }
    {
        let least = rates.price.b * rates.table.bits[LEAST];
        for k in (1..self.count + 1).rev() {
            if self.levels[k].place == 63 {
                return k;
            }
            if least < rates.price.a * self.levels[k].drop {
                return k;
            }
        }
        0
    }
}
