//! How far a still goes within a budget: from corner to corner, while the next one fits.
#![tactic(auto)]

ghost use Rattle.std.specs.Prelude.{◌≡◌, ◌≤◌, length};
ghost use Rattle.fitting.specs.Fitting.{grown_by, Walks, FitsThere};

use merge::Course;
use steepest::Way;

// By how many bits the ways that are parallel to `along` go on together.
fn grows(ways: &[Way], along: Way) -> u64
    requires { length ways.now ≤ 1024 }
    ensures value { result ≡ grown_by along ways.now (length ways.now) }
    ensures most { result ≤ 1677312 }
{
    let mut more = 0;
    for way in ways {
        if way.is_parallel(&along) {
            more += way.run;
        }
    }
    more
}

/// Goes from corner to corner as long as the next one fits the budget.
pub fn walk_to(course: &mut Course, budget: u64)
    requires { Walks course.old budget }
    ensures fits { FitsThere course.new budget }
    ensures still { course.new.search.still ≡ course.old.search.still }
{
    loop {
        let next = course.point.bits.0 + grows(course.ways(), course.steepest());
        if budget < next {
            return;
        }
        course.advance();
    }
}
