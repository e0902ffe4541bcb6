//! The best choices of all blocks of a still at a price, and what they come to together.
#![tactic(auto)]

ghost use Rattle.std.specs.Prelude.{◌≡◌, ◌≤◌, length, map, take};
ghost use Rattle.answers.specs.declared.Kind.TheVariants.{Uncodable as UncodableKind};
ghost use Rattle.still.specs.Blocks.{block_in, count_of};
ghost use Rattle.winners.specs.Winners.{Addable, Outcomes, Sums};

use answers::{Kind, Point, Refusal};
use forward::Chosen;
use price::{Bits, Error, Price};
use search::Search;

/// The first block of a still that has no codable choice.
#[derive(Clone, Copy, Debug, PartialEq, Eq)]
pub struct Uncodable {
    pub block: usize,
}

impl From<Uncodable> for Refusal {
    ghost from_gives = { λ uncodable r. r ≡ record { kind = UncodableKind; first = uncodable.block; second = 0 } };

    fn from(uncodable: Uncodable) -> Refusal {
        Refusal::new(Kind::Uncodable, uncodable.block as u64)
    }
}

/// The bits, the error and the kept coefficients of choices together.
pub fn together(each: &[Chosen]) -> Point
    requires { Addable each.now }
    ensures { Sums each.now (length each.now) result }
{
    let mut point = Point {
        bits: Bits(0),
        error: Error(0),
        kept: 0,
    };
    for choice in each {
        point.bits = point.bits + choice.bits;
        point.error = point.error + choice.error;
        point.kept += u64::from(choice.keep.count_ones());
    }
    point
}

/// Stores each block's best choice at a price, in the first places, and returns what they come to; or the first block without one.
pub fn winners(search: &mut Search, price: Price, each: &mut [Chosen]) -> Result<Point, Uncodable>
    requires { count_of search.old.still ≤ length each.old }
    ensures outcomes { Outcomes (block_in search.old.still) (count_of search.old.still) price.a price.b each.new result }
    ensures still { search.new.still ≡ search.old.still }
    ensures count { length each.new ≡ length each.old }
{
    let n = search.still.len();
    for i in 0..n {
        let best = search.best(i, price).ok_or(Uncodable { block: i })?;
        each[i] = best;
    }
    Ok(together(&each[..n]))
}

/// Stores the keep numbers of the first choices, one a block.
pub fn store(each: &[Chosen], keep: &mut [u64])
    requires { length keep.old ≤ length each.now }
    ensures { keep.new ≡ map (λ choice. choice.keep) (take (length keep.old) each.now) }
{
    // By the index, since a loop over a zip that writes tells nothing of what it has written.
    for (i, slot) in keep.iter_mut().enumerate() {
        *slot = each[i].keep;
    }
}
