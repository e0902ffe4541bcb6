//! The price job: every block of a still decided at a price, or a refusal that stores nothing.
#![tactic(auto)]

ghost use Rattle.price_job.specs.PriceJob.{PriceMeets};

use answers::{Point, Refusal};
use forward::Chosen;
use search::Search;

/// The point of a still at a price `a` on error and `b` on bits, once the keep number of each block is stored.
pub fn price(
    levels: &[i16],
    steps: &[u8],
    lengths: &[u8],
    a: u64,
    b: u64,
    keep: &mut [u64],
) -> Result<Point, Refusal>
    ensures { PriceMeets levels.now steps.now lengths.now a b keep.old result keep.new }
{
    let (still, price) = still::check_price(levels, steps, lengths, a, b, keep.len())?;
    let mut search = Search::new(still);
    // Room for as many blocks as a still may have, since the library has no heap.
    let mut each = [Chosen::NONE; 1024];
    let point = winners::winners(&mut search, price, &mut each)?;
    winners::store(&each, keep);
    Ok(point)
}
