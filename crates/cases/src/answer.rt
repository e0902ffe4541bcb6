//! A case's call: the job is lent what the call says, and its answer is told.
ghost use Rattle.std.specs.Iterator.{IsFinite};

use crate::call::{Call, Job, LENGTHS, LEVELS, STEPS};
use crate::tell;
use crate::word::Word;
use std::io;

// Room for the longest list of the cases, and for more keep numbers than a still may have.
const PLACES: usize = 12300;

/// Tells the answer to a case; a heading has none.
pub fn tell(rt: &impl Print, case: &[u8]) -> io::Result<()> {
    let mut words = case.split(|c| *c == b' ').map(Word::from);
    let Some(name) = words.find(|word| word.letter.is_some()) else {
        return Ok(());
    };
    let Some(job) = Job::named(name) else {
        return Ok(());
    };
    run(rt, job, words)
}

// The answer of a job, whose call the words change. A function pays at entry for its arrays: no heading comes here.
fn run<I: Iterator<Item = Word> + Drop>(rt: &impl Print, job: Job, words: I) -> io::Result<()>
    requires can { I.can_next words }
    requires ends { IsFinite (I.remaining words) }
{
    let mut levels = [0; LEVELS];
    let mut steps = [0; STEPS];
    let mut lengths = [0; LENGTHS];
    let mut call = Call::sound(job, &mut levels, &mut steps, &mut lengths);
    for word in words {
        call.change(word);
    }
    // The places of a list or of a keep slice: one array for all jobs, since each array takes its stack for itself.
    let mut places = [9; PLACES];
    places[..3].copy_from_slice(&call.keep);
    match job {
        Job::Price => price(rt, &call, &mut places),
        Job::List => list(rt, &call, &mut places),
        Job::Budget(bits) => fit(rt, &call, bits, &mut places),
        Job::Thin => thin(rt, &mut call),
    }
}

// In these four, a call for more than there is gets no answer.

fn price(rt: &impl Print, call: &Call, places: &mut [u64]) -> io::Result<()> {
    let (Some(still), Some(keep)) = (call.still(), places.get_mut(..call.keeps)) else {
        return Ok(());
    };
    let said = price_job::price(
        still.levels,
        still.steps,
        still.lengths,
        call.a,
        call.b,
        keep,
    );
    tell::point(rt, said, keep)
}

fn list(rt: &impl Print, call: &Call, places: &mut [u64]) -> io::Result<()> {
    let (Some(still), Some(list)) = (call.still(), places.get_mut(..call.places)) else {
        return Ok(());
    };
    let said = list_job::list(still.levels, still.steps, still.lengths, list);
    tell::corners(rt, said, list)
}

fn fit(rt: &impl Print, call: &Call, budget: u32, places: &mut [u64]) -> io::Result<()> {
    let (Some(still), Some(keep)) = (call.still(), places.get_mut(..call.keeps)) else {
        return Ok(());
    };
    let said = budget_job::fit(still.levels, still.steps, still.lengths, budget, keep);
    tell::point(rt, said, keep)
}

fn thin(rt: &impl Print, call: &mut Call) -> io::Result<()> {
    let (Some(levels), Some(keep)) = (call.levels.part_mut(), call.keep.get(..call.keeps)) else {
        return Ok(());
    };
    let said = thin_job::thin(levels, keep);
    tell::kept(rt, said, keep, levels)
}
