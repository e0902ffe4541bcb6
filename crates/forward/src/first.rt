//! The first of the nodes that a scan has met so far.

ghost use Rattle.std.specs.Prelude.{◌≡◌, ◌<◌};
ghost use Rattle.forward.specs.First.{Weighed, Compared};

/// The least cost so far, where it was met first, and the last one that was met again. With a flag for a tie in its place,
/// cleared whenever the cost falls, a search takes 1.06 times as long.
#[derive(Clone, Copy)]
pub struct Quick {
    /// The least cost.
    pub cost: u64,
    /// The node where it was met first.
    pub at: usize,
    /// The last cost that was met again.
    pub again: u64,
}

impl Quick {
    /// With one more cost, of node `at`. This and what it calls have one `if` each, which becomes code without a branch.
    pub fn met(self, cost: u64, at: usize) -> Quick
        ensures { Weighed self cost at result }
    {
        let again = self.again_with(cost);
        if cost < self.cost {
            return Quick { cost, at, again };
        }
        Quick {
            cost: self.cost,
            at: self.at,
            again,
        }
    }

    /// The last cost that was met again, with one more.
    fn again_with(self, cost: u64) -> u64
        ensures same { cost ≡ self.cost → result ≡ cost }
        ensures other { (cost ≡ self.cost → ⊥) → result ≡ self.again }
    {
        if cost == self.cost {
            return cost;
        }
        self.again
    }
}

/// A cost and bits; of equal costs fewer bits go first.
#[derive(Clone, Copy, Debug, PartialEq, Eq, PartialOrd, Ord)]
pub struct Rank {
    /// The cost.
    pub cost: u64,
    /// The bits.
    pub bits: u64,
}

/// The first rank so far, and where it was met first.
#[derive(Clone, Copy)]
pub struct Exact {
    /// The first rank.
    pub rank: Rank,
    /// The node where it was met first.
    pub at: usize,
}

impl Exact {
    /// With one more rank, of node `at`. Mostly the costs decide, so that they are asked first, each way: with the order of ranks
    /// alone an exact scan takes up to 1.45 times the instructions.
    pub fn met(self, rank: Rank, at: usize) -> Exact
        ensures { Compared self rank at result }
    {
        if rank.cost < self.rank.cost {
            return Exact { rank, at };
        }
        if self.rank.cost < rank.cost {
            return self;
        }
        if rank < self.rank {
            return Exact { rank, at };
        }
        self
    }
}
