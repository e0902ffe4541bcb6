//! A still goes from corner to corner: its blocks with the steepest way go on together.
#![tactic(auto)]

ghost use Rattle.std.specs.Prelude.{◌≡◌, ◌≢◌, ◌≤◌, ◌<◌, take};
ghost use Rattle.block.specs.Limits.{most_error};
ghost use Rattle.corners.specs.Corner.{Corner};
ghost use Rattle.attained.specs.Attained.{Attained};
ghost use Rattle.still.specs.Blocks.{count_of, block_in};
ghost use Rattle.ways.specs.Known.{most_known, corner_of, Known};
ghost use Rattle.merge.specs.Going.{Aimed, Found, Stepped, NextWay, Exchangeable, Exchanged};

use answers::Point;
use forward::Chosen;
use price::{Bits, Error};
use search::Search;
use steepest::{Way, build, mend, top};
use ways::{MOST_KNOWN, Route};
use winners::together;

// The route and the way of no block.
const NO_ROUTE: Route = Route {
    present: Chosen::NONE,
    known: [Chosen::NONE; MOST_KNOWN],
    height: 0,
};

const NO_WAY: Way = Way { run: 1, fall: 0 };

/// The course of a still from corner to corner, from its choices at one price to those at a lower one, `low`: where each
/// of its blocks stands, and what they come to together.
#[derive(Drop)]
pub struct Course<'a> {
    pub search: Search<'a>,
    low: u64,
    // Room for as many blocks as a still can have, of which it may have fewer: the library has no heap.
    routes: [Route; 1024],
    // The blocks' ways on, apart from their routes: the tournament goes over them alone, and 16 bytes a block stay near.
    ways: [Way; 1024],
    seats: [usize; 2048],
    pub point: Point,
    ghost low_most: { low ≤ most_error },
}

// A route from one corner to another, which is known ahead unless the block is there.
fn route_to(from: Chosen, goal: Chosen) -> Route
    ensures { Aimed from goal result }
{
    Route {
        present: from,
        known: [goal; MOST_KNOWN],
        height: usize::from(from.bits != goal.bits),
    }
}

// The way on of block `i` along its route. Where no corner is known ahead the block is at its goal, and (1, low) stands for a way.
fn way_on(route: &mut Route, search: &mut Search, i: usize, low: u64) -> Way
    requires within { i < count_of search.old.still }
    requires low_most { low ≤ most_error }
    requires corner { Corner (Attained (block_in search.old.still i)) (corner_of route.old) }
    requires known { route.old.height ≢ 0 → Known (block_in search.old.still i) (corner_of route.old) route.old.height route.old.known }
    ensures found { Found (block_in search.old.still i) low route.old result route.new }
    ensures still { search.new.still ≡ search.old.still }
{
    if route.height == 0 {
        return Way { run: 1, fall: low };
    }
    route.find_way(search, i)
}

// The next corner, the nearest one known, becomes the present one.
fn step(route: &mut Route)
    requires { (0 < route.old.height) × (route.old.height ≤ most_known) }
    ensures { Stepped route.old route.new }
{
    route.height -= 1;
    route.present = route.known[route.height];
}

// Block `i` goes to its next corner, and its way on from there is found.
fn next_way(route: &mut Route, search: &mut Search, i: usize, low: u64) -> Way
    requires within { i < count_of search.old.still }
    requires low_most { low ≤ most_error }
    requires known { Known (block_in search.old.still i) (corner_of route.old) route.old.height route.old.known }
    ensures next { NextWay (block_in search.old.still i) low route.old result route.new }
    ensures still { search.new.still ≡ search.old.still }
{
    step(route);
    way_on(route, search, i, low)
}

// A sum of choices with one in place of another.
fn exchange(sum: Point, was: Chosen, now: Chosen) -> Point
    requires { Exchangeable sum was now }
    ensures { Exchanged sum was now result }
{
    Point {
        bits: Bits(sum.bits.0 + now.bits.0 - was.bits.0),
        error: Error(sum.error.0 + now.error.0 - was.error.0),
        kept: sum.kept + u64::from(now.keep.count_ones()) - u64::from(was.keep.count_ones()),
    }
}

impl<'a> Course<'a> {
    ghost use Rattle.merge.specs.Standing.{present_at, IsPlayed, steepest_of};
    ghost use Rattle.merge.specs.Passing.{MayGo, Gone, Leaving, Advanced};
    ghost use Rattle.merge.specs.SettingOut.{Ends, SetOut};

    /// A course that has not set out yet, of the still that is searched. It has some 250 kilobytes: they are cleared once where
    /// a function makes it first of all, and otherwise twice.
    pub fn new(search: Search<'a>) -> Course<'a>
        ensures { result.search.still ≡ search.entry.still }
    {
        Course {
            search,
            low: 0,
            routes: [NO_ROUTE; 1024],
            ways: [NO_WAY; 1024],
            seats: [0; 2048],
            point: Point {
                bits: Bits(0),
                error: Error(0),
                kept: 0,
            },
        }
    }

    /// The blocks set out from their best choices at a higher price, `from`, for those at the price (1, `low`), `goals`.
    pub fn set_out(&mut self, low: u64, from: &[Chosen], goals: &[Chosen])
        requires low_most { low ≤ most_error }
        requires ends { Ends self.old.search.still low from.now goals.now }
        ensures set_out { SetOut self.old.search.still low from.now self.new }
    {
        self.low = low;
        let n = self.search.still.len();
        for i in 0..n {
            let mut route = route_to(from[i], goals[i]);
            self.ways[i] = way_on(&mut route, &mut self.search, i, low);
            self.routes[i] = route;
        }
        build(&self.ways[..n], &mut self.seats);
        self.point = together(&from[..n]);
    }

    /// The choice at which block `i` stands.
    pub fn present(&self, i: usize) -> Chosen
        requires { i < count_of self.now.search.still }
        ensures { result ≡ present_at self.now i }
    {
        self.routes[i].present
    }

    /// The blocks' ways on.
    pub fn ways(&self) -> &[Way]
        ensures { result.now ≡ take (count_of self.now.search.still) self.now.ways }
    {
        &self.ways[..self.search.still.len()]
    }

    /// The steepest of the blocks' ways on.
    pub fn steepest(&self) -> Way
        requires { IsPlayed self.now }
        ensures { result ≡ steepest_of self.now }
    {
        self.ways[top(self.ways(), &self.seats)]
    }

    // The block with the steepest way on goes it to its next corner.
    fn go_on(&mut self)
        requires { MayGo self.old }
        ensures { Gone self.old self.new }
    {
        let n = self.search.still.len();
        let k = top(&self.ways[..n], &self.seats);
        let was = self.routes[k].present;
        self.ways[k] = next_way(&mut self.routes[k], &mut self.search, k, self.low);
        self.point = exchange(self.point, was, self.routes[k].present);
        mend(&self.ways[..n], &mut self.seats, k);
    }

    /// All blocks whose way on is parallel to the steepest go it, and the still has come to its next corner.
    pub fn advance(&mut self)
        requires { Leaving self.old }
        ensures { Advanced self.old self.new }
    {
        let way = self.steepest();
        while self.steepest().is_parallel(&way) {
            self.go_on();
        }
    }
}
