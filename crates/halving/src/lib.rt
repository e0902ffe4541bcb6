//! A budget bracketed between two prices with 1 on error: the blocks' winners at the higher fit it, those at the lower pass it.
#![tactic(auto)]

ghost use Rattle.std.specs.Prelude.{◌≡◌, ℕ, ◌+◌, ◌*◌, ◌≤◌, ◌<◌, OnOk, IfErr, length};
ghost use Rattle.block.specs.Limits.{most_bits};
ghost use Rattle.price.specs.Accepted.{most_on_bits};
ghost use Rattle.attained.specs.Chosen.{chosen_at};
ghost use Rattle.attained.specs.Uncodable.{FirstUncodable};
ghost use Rattle.still.specs.Blocks.{block_in, count_of};
ghost use Rattle.halving.specs.Won.{Won, Between};
ghost use Rattle.halving.specs.Brackets.{EndAt, Brackets, Inside, Chords, Taken};

use answers::Point;
use forward::Chosen;
use price::{Bits, Error, Price};
use search::Search;
use winners::{Uncodable, together, winners};

/// An end of the range: a price on bits, with 1 on error; each block's winner there, from the first on; and what they come to.
#[derive(Clone, Copy)]
pub struct End {
    pub price: u64,
    // Room for as many blocks as a still may have, since the library has no heap.
    pub each: [Chosen; 1024],
    pub point: Point,
}

/// One turn in so many halves the range, so that the turns stay few whatever the errors are.
const ROUND: usize = 8;

// The winner of a block at a price between two others: theirs where it is the same, and otherwise the best choice, searched for.
fn winner(search: &mut Search, i: usize, price: u64, dear: Chosen, cheap: Bits) -> Chosen
    requires block { i < count_of search.old.still }
    requires price { price ≤ most_on_bits }
    requires between { Between (block_in search.old.still i) price dear cheap.0 }
    ensures won { Won (block_in search.old.still i) price result }
    ensures still { search.new.still ≡ search.old.still }
{
    if dear.bits == cheap {
        return dear;
    }
    // There is one, since the dear winner is codable.
    search.best(i, Price { a: 1, b: price }).unwrap()
}

impl End {
    /// What stands for an end before its blocks are decided.
    pub const NONE: End = End {
        price: 0,
        each: [Chosen::NONE; 1024],
        point: Point {
            bits: Bits(0),
            error: Error(0),
            kept: 0,
        },
    };

    /// Decides each block of a still at a price, or tells the first that has no codable choice.
    pub fn decide(&mut self, search: &mut Search, price: u64) -> Result<(), Uncodable>
        requires { price ≤ most_on_bits }
        ensures price { self.new.price ≡ price }
        ensures decided { OnOk result (EndAt (block_in search.old.still) (count_of search.old.still) self.new) }
        ensures uncodable { IfErr result (λ u. FirstUncodable (block_in search.old.still) (count_of search.old.still) u.block) }
        ensures still { search.new.still ≡ search.old.still }
    {
        let n = search.still.len();
        self.price = price;
        self.point = winners(search, Price { a: 1, b: price }, &mut self.each[..n])?;
        Ok(())
    }

    // Decides each block at a price between those of two ends.
    fn decide_between(&mut self, search: &mut Search, price: u64, low: &End, high: &End)
        requires { Inside (block_in search.old.still) (count_of search.old.still) price low.now high.now }
        ensures price { self.new.price ≡ price }
        ensures decided { EndAt (block_in search.old.still) (count_of search.old.still) self.new }
        ensures still { search.new.still ≡ search.old.still }
    {
        let n = search.still.len();
        self.price = price;
        for i in 0..n {
            self.each[i] = winner(search, i, price, high.each[i], low.each[i].bits);
        }
        self.point = together(&self.each[..n]);
    }

    // Becomes another end of n blocks.
    fn take_over(&mut self, other: &End, n: usize)
        requires { n ≤ 1024 }
        ensures { Taken n other.now self.new }
    {
        self.price = other.price;
        self.each[..n].copy_from_slice(&other.each[..n]);
        self.point = other.point;
    }
}

// The bits that a block's chord, from its winner at the high end to that at the low, adds if it is as steep as a price.
fn chord(price: u64, dear: Chosen, cheap: Chosen) -> u64
    requires price { price ≤ most_on_bits }
    requires cheap { cheap.bits.0 ≤ most_bits }
    ensures { result ≤ most_bits }
{
    let run = cheap.bits.0.saturating_sub(dear.bits.0);
    let fall = dear.error.0.saturating_sub(cheap.error.0);
    if price * run <= fall { run } else { 0 }
}

// The bits that all chords as steep as a price add.
fn chords(price: u64, high: &[Chosen], low: &[Chosen]) -> u64
    requires price { price ≤ most_on_bits }
    requires few { length low.now ≤ 1024 }
    requires low { (i : ℕ) → i < length low.now → (chosen_at low.now i).bits.0 ≤ most_bits }
    ensures { result ≤ most_bits * length low.now }
{
    let mut bits = 0;
    for (dear, cheap) in high.iter().zip(low) {
        bits += chord(price, *dear, *cheap);
    }
    bits
}

// The price inside the range at which the chords of n blocks would meet the budget. No chord is steeper than all errors together.
fn meet(low: &End, high: &End, n: usize, budget: u64) -> u64
    requires wide { low.now.price + 1 < high.now.price }
    requires most { high.now.price ≤ most_on_bits }
    requires chords { Chords n low.now }
    ensures { (low.now.price < result) × (result < high.now.price) }
{
    let room = budget.saturating_sub(high.point.bits.0);
    let fall = high.point.error.0.saturating_sub(low.point.error.0);
    let mut passes = low.price;
    let mut fits = fall.clamp(low.price + 1, high.price - 1);
    // Halved by hand: the library searches slices, and no range of numbers.
    while 1 < fits - passes {
        let price = passes + (fits - passes) / 2;
        if chords(price, &high.each[..n], &low.each[..n]) <= room {
            fits = price;
        } else {
            passes = price;
        }
    }
    fits
}

// A price inside the range of n blocks: where the chords meet the budget; once a round the middle.
fn inside(low: &End, high: &End, n: usize, budget: u64, turn: usize) -> u64
    requires wide { low.now.price + 1 < high.now.price }
    requires most { high.now.price ≤ most_on_bits }
    requires chords { Chords n low.now }
    ensures { (low.now.price < result) × (result < high.now.price) }
{
    if turn == 0 {
        return low.price + (high.price - low.price) / 2;
    }
    meet(low, high, n, budget)
}

/// Narrows the range until no price is inside: the winners at a price inside become the end on their side of the budget.
pub fn bracket(search: &mut Search, budget: u64, low: &mut End, high: &mut End)
    requires { Brackets (block_in search.old.still) (count_of search.old.still) budget low.old high.old }
    ensures bracket { Brackets (block_in search.old.still) (count_of search.old.still) budget low.new high.new }
    ensures narrow { high.new.price ≡ low.new.price + 1 }
    ensures still { search.new.still ≡ search.old.still }
{
    let n = search.still.len();
    let mut middle = End::NONE;
    let mut turn = 1;
    while low.price + 1 < high.price {
        let price = inside(low, high, n, budget, turn);
        turn = (turn + 1) % ROUND;
        middle.decide_between(search, price, low, high);
        if middle.point.bits.0 <= budget {
            high.take_over(&middle, n);
        } else {
            low.take_over(&middle, n);
        }
    }
}
