//! The list job: all the corners of a still, or a refusal that stores nothing.
#![tactic(auto)]

ghost use Rattle.std.specs.Prelude.{◌≡◌, length, IfErr, OnOk};
ghost use Rattle.attained.specs.Uncodable.{FirstUncodable};
ghost use Rattle.still.specs.Blocks.{count_of, block_in};
ghost use Rattle.walk.specs.Written.{Walked};
ghost use Rattle.list_job.specs.ListJob.{Lists, ListMeets};
ghost use Rattle.list_job.specs.Listing.{AreEnds};

use answers::{Kind, Refusal};
use forward::Chosen;
use merge::Course;
use price::Price;
use search::Search;
use still::{Still, check_list};
use walk::list_corners;
use winners::{Uncodable, winners};

// How many corners are remembered while they are counted, in an array, since the library has no heap; a longer list is walked
// twice.
const REMEMBERED: usize = 4096;

// The blocks' best choices at the price at which bits are dearest, with which the still is at its first corner, and at the one
// at which they are free, with which it is at its last.
fn find_ends(still: Still, first: &mut [Chosen], last: &mut [Chosen]) -> Result<(), Uncodable>
    requires counts { (length first.old ≡ count_of still) × (length last.old ≡ count_of still) }
    ensures ends { OnOk result (AreEnds still.entry first.new last.new) }
    ensures uncodable { IfErr result (λ u. FirstUncodable (block_in still.entry) (count_of still.entry) u.block) }
{
    let mut search = Search::new(still);
    winners(&mut search, Price::DEAREST, first)?;
    winners(&mut search, Price::FREE, last)?;
    Ok(())
}

// Walks from the first corner to the last. It is called twice, and not inlined, so that its course takes its room but once.
#[inline(never)]
fn walk_all(still: Still, first: &[Chosen], last: &[Chosen], out: &mut [u64]) -> usize
    requires { AreEnds still first.now last.now }
    ensures { Walked (block_in still.entry) (count_of still.entry) out.old result out.new }
{
    let mut course = Course::new(Search::new(still));
    course.set_out(0, first, last);
    list_corners(&mut course, out)
}

// Nothing is stored before the corners are counted.
fn list_still(still: Still, list: &mut [u64]) -> Result<usize, Refusal>
    ensures { Lists (block_in still.entry) (count_of still.entry) list.old result list.new }
{
    let n = still.len();
    let mut first = [Chosen::NONE; 1024];
    let mut last = [Chosen::NONE; 1024];
    find_ends(still, &mut first[..n], &mut last[..n])?;
    let mut seen = [0; 3 * REMEMBERED];
    let count = walk_all(still, &first[..n], &last[..n], &mut seen);
    if list.len() / 3 < count {
        return Err(Refusal::new(Kind::Corners, count as u64));
    }
    if count <= REMEMBERED {
        list[..3 * count].copy_from_slice(&seen[..3 * count]);
    } else {
        walk_all(still, &first[..n], &last[..n], list);
    }
    Ok(count)
}

/// Lists the corners of a still in rising bits, three numbers each, and returns how many they are. Behind them the list stays as
/// it was, and on a refusal all of it does.
pub fn list(
    levels: &[i16],
    steps: &[u8],
    lengths: &[u8],
    list: &mut [u64],
) -> Result<usize, Refusal>
    ensures { ListMeets levels.now steps.now lengths.now list.old result list.new }
{
    let still = check_list(levels, steps, lengths, list.len())?;
    list_still(still, list)
}
