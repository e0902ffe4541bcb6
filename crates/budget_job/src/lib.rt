//! The budget job: the corner with most bits that fits, with its choice, or a refusal that stores nothing.
#![tactic(auto)]

ghost use Rattle.std.specs.Prelude.{◌≡◌, length};
ghost use Rattle.still.specs.Blocks.{block_in, count_of};
ghost use Rattle.halving.specs.Brackets.{Brackets};
ghost use Rattle.budget_job.specs.BudgetJob.{BudgetMeets};
ghost use Rattle.budget_job.specs.Fitting.{FitsWith};

use answers::{Kind, Point, Refusal};
use fitting::walk_to;
use halving::{End, bracket};
use merge::Course;
use price::Price;
use search::Search;
use winners::store;

// Goes from the high end of a bracket to the last corner that fits the budget, and stores its choice.
fn walk(search: Search, budget: u64, low: &End, high: &End, keep: &mut [u64]) -> Point
    requires brackets { Brackets (block_in search.still) (count_of search.still) budget low.now high.now }
    requires room { length keep.old ≡ count_of search.still }
    ensures { FitsWith (block_in search.entry.still) (count_of search.entry.still) budget result keep.new }
{
    let mut course = Course::new(search);
    let n = keep.len();
    course.set_out(low.price, &high.each[..n], &low.each[..n]);
    walk_to(&mut course, budget);
    for (i, slot) in keep.iter_mut().enumerate() {
        *slot = course.present(i).keep;
    }
    course.point
}

/// The point of the last corner with at most `budget` bits, once the keep number of each block is stored.
pub fn fit(
    levels: &[i16],
    steps: &[u8],
    lengths: &[u8],
    budget: u32,
    keep: &mut [u64],
) -> Result<Point, Refusal>
    ensures { BudgetMeets levels.now steps.now lengths.now budget keep.old result keep.new }
{
    let still = still::check_budget(levels, steps, lengths, keep.len())?;
    let budget = u64::from(budget);
    let mut search = Search::new(still);
    let mut low = End::NONE;
    low.decide(&mut search, Price::FREE.b)?;
    if low.point.bits.0 <= budget {
        store(&low.each, keep);
        return Ok(low.point);
    }
    let mut high = End::NONE;
    high.decide(&mut search, Price::DEAREST.b)?;
    if budget < high.point.bits.0 {
        return Err(Refusal::new(Kind::Budget, high.point.bits.0));
    }
    bracket(&mut search, budget, &mut low, &mut high);
    Ok(walk(search, budget, &low, &high, keep))
}
