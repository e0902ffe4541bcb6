//! The thinning job: levels that are not kept become 0, or a refusal that stores nothing.
#![tactic(auto)]

ghost use Rattle.std.specs.Prelude.{◌≡◌, ◌*◌, eqb, pos, length};
ghost use Rattle.block.specs.First.{pick};
ghost use Rattle.thin_job.specs.ThinJob.{stays_at, ThinnedBy, Thinned, ThinMeets};
ghost use Rattle.thin_job.specs.Parts.{is_set};

use answers::Refusal;

// A level thinned by its bit.
fn thin_level(v: i16, bit: u16) -> i16
    ensures { result ≡ pick (eqb bit 1) v (pos 0) }
{
    if bit == 1 { v } else { 0 }
}

// Eight levels, thinned by eight bits. Each is stored, kept or not, and bits are as wide as levels, so that the compiler
// takes all eight at once.
fn thin_eight(levels: &mut [i16], bits: u16)
    requires { length levels.old ≡ 8 }
    ensures { ThinnedBy (is_set bits) levels.old levels.new }
{
    for (k, level) in levels.iter_mut().enumerate() {
        *level = thin_level(*level, (bits >> k) % 2);
    }
}

// A block, eight levels a turn while bits are left. DC's bit is set, so that it stays. The eights are ranges, as the blocks
// below are, since no contract says what `chunks_exact_mut` leaves in a slice.
fn thin_block(levels: &mut [i16], keep: u64)
    requires { length levels.old ≡ 64 }
    ensures { ThinnedBy (stays_at keep) levels.old levels.new }
{
    let bits = keep | 1;
    for g in 0..8 {
        let rest = bits >> (8 * g);
        if rest == 0 {
            levels[8 * g..].fill(0);
            return;
        }
        thin_eight(&mut levels[8 * g..8 * g + 8], (rest % 256) as u16);
    }
}

// Every block, by its keep number.
fn drop_levels(levels: &mut [i16], keep: &[u64])
    requires { length levels.old ≡ 64 * length keep.now }
    ensures { Thinned levels.old keep.now levels.new }
{
    for (b, bits) in keep.iter().enumerate() {
        thin_block(&mut levels[64 * b..64 * b + 64], *bits);
    }
}

/// How many coefficients are kept, once each level that is not has become 0; or a refusal, and then no level is changed.
pub fn thin(levels: &mut [i16], keep: &[u64]) -> Result<u64, Refusal>
    ensures { ThinMeets levels.old keep.now result levels.new }
{
    still::check_thin(levels, keep)?;
    drop_levels(levels, keep);
    Ok(kept::kept(keep))
}
