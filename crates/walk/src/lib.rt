//! The walk of a still along its corners, past all of them, which lists them.
#![tactic(auto)]

ghost use Rattle.still.specs.Blocks.{count_of, block_in};
ghost use Rattle.walk.specs.Written.{Walked};
ghost use Rattle.walk.specs.Walking.{First, Entered};

use answers::Point;
use merge::Course;

// Enters a corner's three numbers at its place in the list, where there is room for them.
fn enter(out: &mut [u64], count: usize, point: Point)
    ensures { Entered count point out.old out.new }
{
    // C lends the list as plain numbers, three a corner
    if count < out.len() / 3 {
        out[3 * count] = point.bits.0;
        out[3 * count + 1] = point.error.0;
        out[3 * count + 2] = point.kept;
    }
}

/// How many corners a still has. Its course stands at the first of them, and ends at the last; they are listed as far as there
/// is room.
pub fn list_corners(course: &mut Course, out: &mut [u64]) -> usize
    requires { First course.old }
    ensures { Walked (block_in course.old.search.still) (count_of course.old.search.still) out.old result out.new }
{
    let mut count = 0;
    loop {
        enter(out, count, course.point);
        count += 1;
        if course.steepest().fall == 0 {
            return count;
        }
        course.advance();
    }
}
