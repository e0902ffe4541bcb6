//! The nodes of the search: for each level the best choice that ends there, and from which node it goes on.

ghost use Rattle.std.specs.Prelude.{◌≡◌, ◌+◌, ◌*◌, ◌≤◌, ◌<◌, IsTrue, IfSome};

use crate::Chosen;
use crate::first::{Exact, Quick, Rank};
use crate::level::Gathered;
use crate::table::{FAR, Rates, Table};
use price::{Bits, Error, Price};

/// The best choice that ends with a level: everything later is dropped.
#[derive(Clone, Copy, Debug, PartialEq, Eq)]
struct Node {
    /// The position of the level, 0 for the start.
    place: usize,
    /// Its cost, or `FAR` where no choice ends there. With an `Option` here, and its branch in the scan, a search takes 1.2
    /// times as long.
    cost: u64,
    /// Its bits, end of block left out.
    sum: u64,
    /// The node that it goes on from.
    pred: usize,
}

/// What a scan goes on to: the nodes that it may go on from, `from` to `before`, and the entry in the table for a run from
/// position 0.
#[derive(Clone, Copy)]
struct Target {
    from: usize,
    before: usize,
    at: usize,
    ghost order: { from ≤ before },
    ghost before_most: { before ≤ 64 },
    ghost at_most: { at < 704 },
}

/// The node that it is best to go on from, and the cost of doing so.
#[derive(Clone, Copy)]
struct Way {
    cost: u64,
    at: usize,
}

/// A cost less what keeping a level gains; none stays none.
fn reduced(cost: u64, gain: u64) -> u64
    requires cost_most { cost ≤ FAR }
    requires gain_most { gain ≤ FAR }
    requires within { cost < FAR → gain ≤ cost }
    ensures none { cost ≡ FAR → result ≡ FAR }
    ensures some { cost < FAR → result + gain ≡ cost }
{
    if cost == FAR {
        return cost;
    }
    cost - gain
}

/// Room for the nodes of one block after another. Each field of a node has an array of its own, since a scan goes over two of
/// them: over an array of nodes a search takes 1.1 times as long.
#[derive(Drop)]
pub struct Nodes {
    place: [usize; 64],
    cost: [u64; 64],
    sum: [u64; 64],
    pred: [usize; 64],
}

impl Nodes {
    ghost use Rattle.forward.specs.Given.{cut, Job, Decided};
    ghost use Rattle.forward.specs.Nodes.{no_nodes, put};
    ghost use Rattle.forward.specs.Scanning.{cost_by, bit_by, Reach, Earliest, EarliestAlone, cost_from, Behind, Beaten, Forgetting, Forgot, Filled, Backed, Walks};

    /// Room for any block.
    pub fn new() -> Nodes
        ensures { result ≡ no_nodes }
    {
        Nodes {
            place: [0; 64],
            cost: [0; 64],
            sum: [0; 64],
            pred: [0; 64],
        }
    }

    /// The best choice of a gathered block at a price, or `None` where it has no codable choice.
    pub fn search(&mut self, table: &Table, block: &Gathered, price: Price) -> Option<Chosen>
        requires { Job table.now block.now }
        ensures { Decided price.a price.b table.now block.now result }
    {
        let rates = Rates::new(table, price);
        self.find(&rates, block)
    }

    /// The same, of a block that is cut here to the levels that may pay.
    fn find(&mut self, rates: &Rates, block: &Gathered) -> Option<Chosen>
        requires { Job rates.now.table.now block.now }
        ensures { Decided rates.now.price.a rates.now.price.b rates.now.table.now block.now result }
    {
        let count = block.paying(rates);
        let low = self.fill(rates, block, count);
        let end = Target {
            from: low,
            before: count + 1,
            at: 63,
        };
        let way = self.least(rates, end);
        if way.cost == FAR {
            return None;
        }
        let bits = self.sum[way.at] + rates.table.bits[63 - self.place[way.at]];
        Some(self.walk(block, way.at, bits))
    }

    /// Makes node i.
    fn put(&mut self, i: usize, node: Node)
        requires { i < 64 }
        ensures { self.new ≡ put self.old i node }
    {
        self.place[i] = node.place;
        self.cost[i] = node.cost;
        self.sum[i] = node.sum;
        self.pred[i] = node.pred;
    }

    /// Makes the nodes of the first `count` levels: node 0 drops every level, node i is the best choice that ends with level
    /// i. Returns the first node that is not beaten.
    fn fill(&mut self, rates: &Rates, block: &Gathered, count: usize) -> usize
        requires { Job rates.now.table.now (cut block.now count) }
        ensures filled { Filled rates.now.price.a rates.now.price.b rates.now.table.now (cut block.now count) self.new (count + 1) }
        ensures beaten { Beaten rates.now.price.b rates.now.table.now.bits self.new result (count + 1) }
    {
        let start = Node {
            place: 0,
            cost: rates.price.cost(block.error, Bits(0)),
            sum: 0,
            pred: 0,
        };
        self.put(0, start);
        let mut low = 0;
        for i in 1..count + 1 {
            let level = block.levels[i];
            let target = Target {
                from: low,
                before: i,
                at: level.size * 64 + level.place - 1,
            };
            let way = self.least(rates, target);
            let next = Node {
                place: level.place,
                cost: reduced(way.cost, rates.price.a * level.drop),
                sum: self.sum[way.at] + rates.table.bits[target.at - self.place[way.at]],
                pred: way.at,
            };
            self.put(i, next);
            low = self.forget(rates, low, i);
        }
        low
    }

    /// The first node before a target to go on from; none below `from` is. Bits are looked at only if the least cost is met
    /// twice.
    // A scan goes over few nodes, so that a call and its spilled registers take a search 1.15 times as long.
    #[inline(always)]
    fn least(&self, rates: &Rates, target: Target) -> Way
        requires reach { Reach self.now target.before target.at }
        requires behind { Behind (cost_by rates.now target.at self.now) target.from target.before }
        ensures { Earliest (cost_by rates.now target.at self.now) (bit_by rates.now target.at self.now) target.before result.cost result.at }
    {
        match self.alone(rates, target) {
            Some(way) => way,
            None => self.scan_exact(rates, target),
        }
    }

    /// The first of the nodes of a target by cost alone, or `None` where the least cost is met twice.
    fn alone(&self, rates: &Rates, target: Target) -> Option<Way>
        requires { Reach self.now target.before target.at }
        ensures { IfSome result (λ way. EarliestAlone (cost_from target.from (cost_by rates.now target.at self.now)) target.before way.cost way.at) }
    {
        if rates.full {
            return self.scan::<true>(rates, target);
        }
        self.scan::<false>(rates, target)
    }

    /// The same, where `FULL` may say that no code is missing.
    fn scan<const FULL: bool>(&self, rates: &Rates, target: Target) -> Option<Way>
        requires reach { Reach self.now target.before target.at }
        requires full { IsTrue FULL → IsTrue rates.now.full }
        ensures { IfSome result (λ way. EarliestAlone (cost_from target.from (cost_by rates.now target.at self.now)) target.before way.cost way.at) }
    {
        let mut first = Quick {
            cost: FAR,
            at: 0,
            again: u64::MAX,
        };
        for j in target.from..target.before {
            let cost = self.cost[j] + rates.cost::<FULL>(target.at - self.place[j]);
            first = first.met(cost, j);
        }
        if first.again == first.cost {
            return None;
        }
        Some(Way {
            cost: first.cost,
            at: first.at,
        })
    }

    /// The first of the nodes of a target by cost, bits and index.
    // This and `scan` share two lines, and differ in what they read, keep and return: one function generic over a trait of what
    // is kept, with its law and two impls, is no shorter. A tie is rare.
    #[cold]
    fn scan_exact(&self, rates: &Rates, target: Target) -> Way
        requires { Reach self.now target.before target.at }
        ensures { Earliest (cost_from target.from (cost_by rates.now target.at self.now)) (bit_by rates.now target.at self.now) target.before result.cost result.at }
    {
        let mut first = Exact {
            rank: Rank { cost: FAR, bits: 0 },
            at: 0,
        };
        for j in target.from..target.before {
            let entry = target.at - self.place[j];
            let rank = Rank {
                cost: self.cost[j] + rates.cost::<false>(entry),
                bits: self.sum[j] + rates.table.bits[entry],
            };
            first = first.met(rank, j);
        }
        Way {
            cost: first.rank.cost,
            at: first.at,
        }
    }

    /// The first node from `low` on that node i does not beat whatever follows: a longer run saves only so many bits.
    fn forget(&self, rates: &Rates, low: usize, i: usize) -> usize
        requires { Forgetting self.now low i }
        ensures { Forgot rates.now.price.b rates.now.table.now.bits self.now low i result }
    {
        if !rates.full {
            return low;
        }
        let bound = self.cost[i] + rates.saved;
        // Node i itself ends it, so it needs no other bound: a `find` over a range would have an end to test and a `None` to answer.
        let mut k = low;
        while bound < self.cost[k] {
            k += 1;
        }
        k
    }

    /// The choice of the way back from a node.
    fn walk(&self, block: &Gathered, at: usize, bits: u64) -> Chosen
        requires { Backed block.now.levels block.now.error.0 self.now at }
        ensures { Walks block.now.levels block.now.error.0 self.now at bits result }
    {
        let mut keep = 0;
        let mut error = block.error.0;
        let mut k = at;
        while k != 0 {
            keep += 1 << self.place[k];
            error -= block.levels[k].drop;
            k = self.pred[k];
        }
        Chosen {
            bits: Bits(bits),
            error: Error(error),
            keep,
        }
    }
}
