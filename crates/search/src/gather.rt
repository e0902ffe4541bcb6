//! The levels of a block that are not 0, gathered for the search.

ghost use Rattle.std.specs.Prelude.{◌≡◌, ℕ, false, ◌+◌, ◌*◌, ◌≤◌, ◌<◌, length, get_or};
ghost use Rattle.block.specs.Level.{ac_level, size_of, squared_error};
ghost use Rattle.block.specs.Limits.{Levels, Steps};
ghost use Rattle.forward.specs.Given.{Gathers};
ghost use Rattle.search.specs.Gathering.{Zeros, Placed, Weighed};

use block::{magnitude, size_of, squared_error};
use forward::{Gathered, Level};
use price::Error;

/// A block as it is lent.
#[derive(Clone, Copy)]
pub struct Block<'a> {
    /// Its 64 levels, in zigzag order.
    pub levels: &'a [i16],
    /// The 64 steps of its still.
    pub steps: &'a [u8],
    pub ghost levels_fine: { Levels levels.now },
    pub ghost steps_fine: { Steps steps.now },
}

impl Block<'_> {
    /// Whether one of the eight levels from a position on is not 0. All eight are looked at, with no way out between, so that
    /// the compiler can take them at once.
    fn any_level(&self, from: usize) -> bool
        requires { from + 8 ≤ 64 }
        ensures { result ≡ false → Zeros (ac_level self.now.levels.now) from (from + 8) }
    {
        let mut any = false;
        for k in from..from + 8 {
            any |= self.levels[k] != 0;
        }
        any
    }

    /// Stores the places from one position up to another, behind the `count` before them, and returns how many there are then.
    /// Each place is stored, and the next one stored over it if its level is 0: this has no branch to guess wrong.
    fn place_range(&self, levels: &mut [Level; 64], from: usize, to: usize, count: usize) -> usize
        requires range { (0 < from) × (from ≤ to) × (to ≤ 64) }
        requires placed { Placed (ac_level self.now.levels.now) levels.old count from }
        ensures { Placed (ac_level self.now.levels.now) levels.new result to }
    {
        let mut n = count;
        for k in from..to {
            levels[n + 1].place = k;
            n += usize::from(self.levels[k] != 0);
        }
        n
    }

    /// Stores the places of the levels that are not 0, from 1 on, and returns how many there are. A group of eight zeros, as
    /// many in a photograph are, is left out.
    fn place(&self, levels: &mut [Level; 64]) -> usize
        ensures { Placed (ac_level self.now.levels.now) levels.new result 64 }
    {
        levels[0] = Level::START;
        let mut n = self.place_range(levels, 1, 8, 0);
        for g in 1..8 {
            if self.any_level(8 * g) {
                n = self.place_range(levels, 8 * g, 8 * g + 8, n);
            }
        }
        n
    }

    /// Stores the sizes and errors of the levels that are placed, and returns the sum of the errors. To store them with the
    /// places would be one loop less, but it takes up to 1.15 times as long, since most levels of a group are 0.
    fn weigh(&self, levels: &mut [Level; 64], count: usize) -> u64
        requires { Placed (ac_level self.now.levels.now) levels.old count 64 }
        ensures { Weighed (ac_level self.now.levels.now) (λ k. get_or self.now.steps.now k 0) levels.old levels.new result (count + 1) }
    {
        let mut total = 0;
        for i in 1..count + 1 {
            let place = levels[i].place;
            let n = magnitude(self.levels[place]);
            let drop = squared_error(n, self.steps[place]);
            levels[i] = Level {
                place,
                size: size_of(n),
                drop,
            };
            total += drop;
        }
        total
    }

    /// Gathers the levels that are not 0.
    pub fn gather(&self, gathered: &mut Gathered)
        ensures { Gathers (λ k. size_of (ac_level self.now.levels.now k)) (λ k. squared_error (ac_level self.now.levels.now k) (get_or self.now.steps.now k 0)) gathered.new }
    {
        let count = self.place(&mut gathered.levels);
        gathered.error = Error(self.weigh(&mut gathered.levels, count));
        gathered.count = count;
    }
}
