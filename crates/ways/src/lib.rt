//! A block's way on from its corner: the run and the fall to its next corner.
#![tactic(auto)]

ghost use Rattle.std.specs.Prelude.{◌≡◌, ◌≤◌, ◌<◌};
ghost use Rattle.corners.specs.Corner.{Corner};
ghost use Rattle.attained.specs.Attained.{Attained};
ghost use Rattle.still.specs.Blocks.{count_of, block_in};
ghost use Rattle.ways.specs.Known.{most_known, corner_of, Known, FoundWay};
ghost use Rattle.ways.specs.Looking.{Reaches, run_to, fall_to, Remembered};

use forward::Chosen;
use price::Price;
use search::Search;
use steepest::Way;

/// How many corners are known ahead of a block at most: no more, so that a course of 1,024 routes leaves the head-end's call
/// within the stack that its header promises.
pub const MOST_KNOWN: usize = 7;

/// Where a block stands, and the corners known ahead of it: `height` of them, the farthest first, which is the block's
/// goal, and the nearest last.
#[derive(Clone, Copy)]
pub struct Route {
    pub present: Chosen,
    // With their number beside them: `arrayvec::ArrayVec` is not `Copy`, so no array of routes can be filled with it.
    pub known: [Chosen; MOST_KNOWN],
    pub height: usize,
}

// The price at which the two ends of a way cost the same.
fn price_of(way: Way) -> Price
    ensures { (result.a ≡ way.run) × (result.b ≡ way.fall) }
{
    Price {
        a: way.run,
        b: way.fall,
    }
}

impl Route {
    // The line from the present corner to the nearest that is known.
    fn line(&self) -> Way
        requires { Reaches self.now }
        ensures { (result.run ≡ run_to self.now) × (result.fall ≡ fall_to self.now) }
    {
        let corner = self.known[self.height - 1];
        Way {
            run: corner.bits.0 - self.present.bits.0,
            fall: self.present.error.0 - corner.error.0,
        }
    }

    // One corner more is known, nearer than the others. Where there is no room for it, the nearest before it is forgotten.
    fn remember(&mut self, corner: Chosen)
        requires { (0 < self.old.height) × (self.old.height ≤ most_known) }
        ensures { Remembered self.old corner self.new }
    {
        if self.height < MOST_KNOWN {
            self.height += 1;
        }
        self.known[self.height - 1] = corner;
    }

    /// The way on from where block `i` stands. The best choice at the price of the line from its corner to the nearest known
    /// one is a corner between them, and is known from then on; or the corner again, and the nearest known one is the next.
    pub fn find_way(&mut self, search: &mut Search, i: usize) -> Way
        requires within { i < count_of search.old.still }
        requires corner { Corner (Attained (block_in search.old.still i)) (corner_of self.old) }
        requires known { Known (block_in search.old.still i) (corner_of self.old) self.old.height self.old.known }
        ensures way { FoundWay (block_in search.old.still i) self.old result self.new }
        ensures still { search.new.still ≡ search.old.still }
    {
        search.gather(i);
        loop {
            let line = self.line();
            // never `None`, since a block with a corner has a codable choice
            let best = search.look(price_of(line)).unwrap();
            if best.bits.0 == self.present.bits.0 {
                return line;
            }
            self.remember(best);
        }
    }
}
