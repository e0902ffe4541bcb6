//! The probe's calls as C links them: the library's functions under their names, with the same promises.
#![tactic(auto)]

ghost use Rattle.probe.specs.Probe.{PriceTold, ListTold, FitTold, ThinTold};

/// The price job.
#[unsafe(no_mangle)]
pub extern "C" fn anb_price(
    levels: &[i16],
    steps: &[u8],
    lengths: &[u8],
    a: u64,
    b: u64,
    keep: &mut [u64],
    answer: &mut [u64],
)
    ensures { PriceTold levels.now steps.now lengths.now a b keep.old keep.new answer.old answer.new }
{
    probe::anb_price(levels, steps, lengths, a, b, keep, answer);
}

/// The list job.
#[unsafe(no_mangle)]
pub extern "C" fn anb_list(
    levels: &[i16],
    steps: &[u8],
    lengths: &[u8],
    list: &mut [u64],
    answer: &mut [u64],
)
    ensures { ListTold levels.now steps.now lengths.now list.old list.new answer.old answer.new }
{
    probe::anb_list(levels, steps, lengths, list, answer);
}

/// The budget job.
#[unsafe(no_mangle)]
pub extern "C" fn anb_fit(
    levels: &[i16],
    steps: &[u8],
    lengths: &[u8],
    budget: u32,
    keep: &mut [u64],
    answer: &mut [u64],
)
    ensures { FitTold levels.now steps.now lengths.now budget keep.old keep.new answer.old answer.new }
{
    probe::anb_fit(levels, steps, lengths, budget, keep, answer);
}

/// The thinning job.
#[unsafe(no_mangle)]
pub extern "C" fn anb_thin(levels: &mut [i16], keep: &[u64], answer: &mut [u64])
    ensures { ThinTold levels.old levels.new keep.now answer.old answer.new }
{
    probe::anb_thin(levels, keep, answer);
}
