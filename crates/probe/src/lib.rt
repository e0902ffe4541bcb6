//! The jobs as `probe_c` exports them for C, for tests and benchmarks only: each answer is told in four numbers.
#![tactic(auto)]

ghost use Rattle.std.specs.Prelude.{◌≡◌, length};
ghost use Rattle.probe.specs.Told.{numbers_of};
ghost use Rattle.probe.specs.Probe.{PriceTold, ListTold, FitTold, ThinTold};

use answers::Refusal;

/// The price job; with an answer that is not of four numbers, nothing is done.
pub fn anb_price(
    levels: &[i16],
    steps: &[u8],
    lengths: &[u8],
    a: u64,
    b: u64,
    keep: &mut [u64],
    answer: &mut [u64],
)
    ensures { PriceTold levels.now steps.now lengths.now a b keep.old keep.new answer.old answer.new }
{
    if answer.len() != 4 {
        return;
    }
    let said = price_job::price(levels, steps, lengths, a, b, keep);
    tell(said.map(|p| (p.bits.0, p.error.0, p.kept)), answer);
}

/// The list job; with an answer that is not of four numbers, nothing is done.
pub fn anb_list(levels: &[i16], steps: &[u8], lengths: &[u8], list: &mut [u64], answer: &mut [u64])
    ensures { ListTold levels.now steps.now lengths.now list.old list.new answer.old answer.new }
{
    if answer.len() != 4 {
        return;
    }
    let said = list_job::list(levels, steps, lengths, list);
    tell(said.map(|n| (n as u64, 0, 0)), answer);
}

/// The budget job; with an answer that is not of four numbers, nothing is done.
pub fn anb_fit(
    levels: &[i16],
    steps: &[u8],
    lengths: &[u8],
    budget: u32,
    keep: &mut [u64],
    answer: &mut [u64],
)
    ensures { FitTold levels.now steps.now lengths.now budget keep.old keep.new answer.old answer.new }
{
    if answer.len() != 4 {
        return;
    }
    let said = budget_job::fit(levels, steps, lengths, budget, keep);
    tell(said.map(|p| (p.bits.0, p.error.0, p.kept)), answer);
}

/// The thinning job; with an answer that is not of four numbers, nothing is done.
pub fn anb_thin(levels: &mut [i16], keep: &[u64], answer: &mut [u64])
    ensures { ThinTold levels.old levels.new keep.now answer.old answer.new }
{
    if answer.len() != 4 {
        return;
    }
    let said = thin_job::thin(levels, keep);
    tell(said.map(|n| (n, 0, 0)), answer);
}

fn tell(said: Result<(u64, u64, u64), Refusal>, answer: &mut [u64])
    requires { length answer.old ≡ 4 }
    ensures { answer.new ≡ numbers_of said }
{
    answer.copy_from_slice(&numbers(said));
}

// 0 and what a job tells where it refuses nothing, or a refusal's number and details and 0.
fn numbers(said: Result<(u64, u64, u64), Refusal>) -> [u64; 4]
    ensures { result ≡ numbers_of said }
{
    match said {
        Ok((x, y, z)) => [0, x, y, z],
        Err(refusal) => [
            u64::from(refusal.kind.number()),
            refusal.first,
            refusal.second,
            0,
        ],
    }
}
