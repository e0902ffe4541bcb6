//! The table of bits of a still, made once: the bits of the end of block, of every level after every run, and two margins.

ghost use Rattle.std.specs.Prelude.{◌≡◌, ℕ, ◌+◌, ◌*◌, ◌≤◌, ◌<◌, get_or};
ghost use Rattle.block.specs.Block.{LevelCode, level_bits};
ghost use Rattle.forward.specs.Bits.{BitsOf};
ghost use Rattle.forward.specs.declared.table.TheConstants.{NO};
ghost use Rattle.search.specs.Tabling.{len_in, IsEntry, Filled, RowSwept, Swept, ExactMargins};

use forward::{LEAST, NO, SAVED, Table};
use still::Still;

/// The entry of the sixteen-zero code.
const SIXTEEN_ZEROS: usize = 240;

/// The least bits of a level, and the most bits that a longer run of zeros before it saves.
#[derive(Clone, Copy)]
struct Margins {
    least: u64,
    saved: u64,
}

/// The length of a code, or `None` where the still has no such code.
fn code_length(still: &Still, entry: usize) -> Option<u64>
    requires { entry < 256 }
    ensures { IsEntry (0 < len_in still.now entry) (len_in still.now entry) result }
{
    match still.lengths[entry] {
        0 => None,
        n => Some(u64::from(n)),
    }
}

/// The bits of a level after a run of zeros: a code for each sixteen zeros, its own, and its value.
fn level_bits(still: &Still, run: usize, size: usize) -> Option<u64>
    requires { (run < 63) × (size ≤ 10) }
    ensures { IsEntry (LevelCode (len_in still.now) run size) (level_bits (len_in still.now) run size) result }
{
    let code = code_length(still, run % 16 * 16 + size)?;
    if run < 16 {
        return Some(code + size as u64);
    }
    let zeros = code_length(still, SIXTEEN_ZEROS)?;
    Some((run / 16) as u64 * zeros + code + size as u64)
}

/// Fills the table but for its margins: an end of block behind each position, each level after each run, and 0 where no run
/// reaches.
fn fill(still: &Still, bits: &mut [u64; 704])
    ensures { Filled (len_in still.now) bits.new 11 0 }
{
    bits.fill(0);
    bits[..64].fill(code_length(still, 0).unwrap_or(NO));
    // Behind position 63 there is no end of block.
    bits[0] = 0;
    for size in 1..11 {
        for run in 0..63 {
            bits[64 * size + run] = level_bits(still, run, size).unwrap_or(NO);
        }
    }
}

impl Margins {
    /// With the levels of one more size: from the longest run down, so that each meets the least bits of the longer runs.
    fn with_size(self, bits: &[u64; 704], size: usize) -> Margins
        requires size_most { size ≤ 10 }
        requires bits_most { (x : ℕ) → get_or bits.now x 0 ≤ NO }
        ensures { RowSwept bits.now size self result }
    {
        let mut saved = self.saved;
        let mut longer = NO;
        for run in (0..63).rev() {
            let n = bits[64 * size + run];
            saved = saved.max(n.saturating_sub(longer));
            longer = longer.min(n);
        }
        Margins {
            least: self.least.min(longer),
            saved,
        }
    }

    /// The margins of a filled table.
    fn of(bits: &[u64; 704]) -> Margins
        requires { (x : ℕ) → get_or bits.now x 0 ≤ NO }
        ensures { Swept bits.now result 11 }
    {
        // Below `NO`, since a margin marks no code as missing.
        let mut margins = Margins {
            least: NO - 1,
            saved: 0,
        };
        for size in 1..11 {
            margins = margins.with_size(bits, size);
        }
        margins
    }
}

/// The table of bits of a still. The entries that no run reaches, the margins among them, mark no code as missing.
pub fn table_of(still: &Still) -> Table
    ensures bits { BitsOf (len_in still.now) result.bits }
    ensures unused { (s : ℕ) → 0 < s → s ≤ 10 → get_or result.bits (s * 64 + 63) 0 < NO }
    ensures margins { ExactMargins result.bits }
{
    let mut bits = [0; 704];
    fill(still, &mut bits);
    let margins = Margins::of(&bits);
    bits[LEAST] = margins.least;
    bits[SAVED] = margins.saved;
    Table {
        bits,
        full: !bits.contains(&NO),
    }
}
