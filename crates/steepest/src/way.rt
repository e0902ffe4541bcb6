//! A block's way on to its next corner.
ghost use Rattle.std.specs.Prelude.{◌≡◌, ◌↔◌, ◌*◌, ◌<◌, ◌≤◌, IsTrue};
ghost use Rattle.block.specs.Limits.{most_bits, most_error};
ghost use Rattle.steepest.specs.Slope.{AsSteep-reflexive, AsSteep-transitive};

use crate::contest::Contest;

/// By how many bits a block grows on its way, and by how much its error falls: a run and a fall that a block can have, so
/// that a product of the two fits in 64 bits.
#[derive(Clone, Copy, Debug, PartialEq, Eq)]
pub struct Way {
    pub run: u64,
    pub fall: u64,
    pub ghost some_run: { 1 ≤ run },
    pub ghost run_high: { run ≤ most_bits },
    pub ghost fall_high: { fall ≤ most_error },
}

impl Way {
    /// Whether the two have the same slope.
    pub fn is_parallel(&self, other: &Way) -> bool
        ensures { IsTrue result ↔ (self.now.fall * other.now.run ≡ other.now.fall * self.now.run) }
    {
        self.fall * other.run == other.fall * self.run
    }
}

/// The steeper way wins.
impl Contest for Way {
    ghost use Rattle.steepest.specs.Ways.{WayAsSteep};

    ghost wins = { WayAsSteep };

    ghost reflexive = { λ x. AsSteep-reflexive x.run x.fall };

    ghost transitive = { λ x y z first second. AsSteep-transitive x.run x.fall y.run y.fall z.run z.fall y.some_run first second };

    fn is_below(&self, other: &Way) -> bool {
        self.fall * other.run < other.fall * self.run
    }
}
