//! The checks of what is lent to a job, refusals 1 to 6 and 10, joined in the order of their numbers; and the checked still.
#![tactic(auto)]

ghost use Rattle.std.specs.Prelude.{◌≡◌, false, ◌&&◌, ◌*◌, ◌/◌, ◌<◌, eqb, ltb, nat_abs, length, IfOk, OnOk};
ghost use Rattle.block.specs.Level.{levels_of};
ghost use Rattle.answers.specs.Said.{number_of, said_check, fine};
ghost use Rattle.still.specs.Passed.{Passed, first_of, outside_range, levels_in, level_bad, bit_bad, zero_kept};
ghost use Rattle.still.specs.Sound.{Sound};
ghost use Rattle.still.specs.Refusals.{levels_check, outside_at, table_check, still_check, price_check, keep_room_check, list_room_check, ac_check, keep_check, price_verdict, list_verdict, budget_verdict, thin_verdict};

use answers::{Kind, Refusal};
use price::Price;

const MOST_BLOCKS: usize = 1024;

const MOST_LEVEL: i16 = 1023;

/// A still of 1 to 1,024 blocks of 64 levels, with its steps and its code lengths, as lent and accepted.
#[derive(Clone, Copy)]
pub struct Still<'a> {
    pub levels: &'a [i16],
    pub steps: &'a [u8],
    pub lengths: &'a [u8],
    pub ghost sound: { Sound levels.now steps.now lengths.now (length levels.now / 64) },
}

impl<'a> Still<'a> {
    /// How many blocks it has.
    pub fn len(&self) -> usize
        ensures { result ≡ length self.now.levels.now / 64 }
    {
        self.levels.len() / 64
    }

    /// The 64 levels of block `i`.
    pub fn block(&self, i: usize) -> &'a [i16]
        requires { i < length self.now.levels.now / 64 }
        ensures { result.now ≡ levels_of self.now.levels.now i }
    {
        &self.levels[64 * i..64 * i + 64]
    }
}

// Refusal 1, by the number of levels; where it does not apply, the blocks that they are.
#[tactic(auto, unfolding(crate::specs::Refusals::levels_check))]
fn check_levels(levels: &[i16]) -> Result<&[[i16; 64]], Refusal>
    ensures told { said_check result ≡ levels_check (length levels.now) }
    ensures count { IfOk result (λ blocks. length blocks.now ≡ length levels.now / 64) }
    ensures same { IfOk result (λ blocks. levels_in blocks.now ≡ levels.now) }
{
    let (blocks, rest) = levels.as_chunks::<64>();
    if !rest.is_empty() || blocks.is_empty() || MOST_BLOCKS < blocks.len() {
        return Err(Refusal::new(Kind::Levels, levels.len() as u64));
    }
    Ok(blocks)
}

// Whether a number is outside low to high.
fn is_outside(v: u8, low: u8, high: u8) -> bool
    ensures { result ≡ outside_range low high v }
{
    (v < low) | (high < v)
}

// Whether one of the values is outside low to high. All are looked at, with no way out between, so that the compiler takes
// many at once.
#[tactic(auto, unfolding(crate::specs::Refusals::outside_at))]
fn any_outside(values: &[u8], low: u8, high: u8) -> bool
    ensures { result ≡ false → Passed (outside_at low high values.now) (length values.now) }
{
    let mut outside = false;
    for v in values {
        outside |= is_outside(*v, low, high);
    }
    outside
}

// The first index of a value outside low to high. It is looked for only where there is one.
fn first_outside(values: &[u8], low: u8, high: u8) -> Option<usize>
    ensures { result ≡ first_of (outside_at low high values.now) (length values.now) }
{
    if any_outside(values, low, high) {
        return values.iter().position(|v| is_outside(*v, low, high));
    }
    None
}

// Refusals 2 and 3: a wrong count is told before a bad index.
fn check_table<const COUNT: usize>(
    kind: Kind,
    low: u8,
    high: u8,
    values: &[u8],
) -> Result<(), Refusal>
    ensures { said_check result ≡ table_check (number_of kind) COUNT low high values.now }
{
    if values.len() != COUNT {
        return Err(Refusal::new(kind, COUNT as u64));
    }
    match first_outside(values, low, high) {
        Some(i) => Err(Refusal::new(kind, i as u64)),
        None => Ok(()),
    }
}

// Refusal 4, by the two numbers of a price.
fn check_price_range(a: u64, b: u64) -> Result<Price, Refusal>
    ensures told { said_check result ≡ price_check a b }
    ensures price { IfOk result (λ p. (p.a ≡ a) × (p.b ≡ b)) }
{
    Ok(Price::new(a, b)?)
}

// Refusal 5, by the length of the keep slice.
#[tactic(auto, unfolding(crate::specs::Refusals::keep_room_check))]
fn check_keep_room(n: usize, room: usize) -> Result<(), Refusal>
    ensures told { said_check result ≡ keep_room_check n room }
    ensures same { OnOk result (room ≡ n) }
{
    if room != n {
        return Err(Refusal::new(Kind::Room, room as u64));
    }
    Ok(())
}

// Refusal 5, by the length of the list.
#[tactic(auto, unfolding(crate::specs::Refusals::list_room_check))]
fn check_list_room(room: usize) -> Result<(), Refusal>
    ensures { said_check result ≡ list_room_check room }
{
    if room % 3 != 0 {
        return Err(Refusal::new(Kind::Room, room as u64));
    }
    Ok(())
}

// Whether a level is outside its range. It is compared at its own width, so that more of them are taken at once.
fn is_bad(v: i16) -> bool
    ensures { result ≡ ltb 1023 (nat_abs v) }
{
    (v < -MOST_LEVEL) | (MOST_LEVEL < v)
}

// Whether an AC level of a block is outside its range. All 63 are looked at, with no way out between, so that the compiler
// takes several at once.
#[tactic(auto, unfolding(crate::specs::Passed::level_bad))]
fn any_bad_level(block: &[i16; 64]) -> bool
    ensures { result ≡ false → Passed (level_bad block.now) 64 }
{
    let mut bad = false;
    for k in 1..64 {
        bad |= is_bad(block[k]);
    }
    bad
}

// The first position of a block at which its AC level is outside its range.
fn first_bad_level(block: &[i16; 64]) -> Option<usize>
    ensures { result ≡ first_of (level_bad block.now) 64 }
{
    if any_bad_level(block) {
        return (1..64).find(|k| is_bad(block[*k]));
    }
    None
}

// A refusal told with a block and a position in it.
fn refuse_at(kind: Kind, b: usize, k: usize) -> Refusal
    ensures { result ≡ record { kind = kind; first = b; second = k } }
{
    Refusal {
        kind,
        first: b as u64,
        second: k as u64,
    }
}

// Refusal 6, over the whole still.
fn check_ac(blocks: &[[i16; 64]]) -> Result<(), Refusal>
    ensures { said_check result ≡ ac_check (levels_in blocks.now) }
{
    for (b, block) in blocks.iter().enumerate() {
        if let Some(k) = first_bad_level(block) {
            return Err(refuse_at(Kind::Level, b, k));
        }
    }
    Ok(())
}

// Whether the bit of a level that is 0 is set.
fn is_zero_kept(v: i16, bit: u16) -> bool
    ensures { result ≡ eqb bit 1 && eqb (nat_abs v) 0 }
{
    (bit == 1) & (v == 0)
}

// Whether one of eight bits is that of a level that is 0. Bits are as wide as levels, so that the compiler takes all eight
// at once.
#[tactic(auto, unfolding(crate::specs::Passed::zero_kept))]
fn any_zero_kept(levels: &[i16; 8], bits: u16) -> bool
    ensures { result ≡ false → Passed (zero_kept levels.now bits) 8 }
{
    let mut bad = false;
    for k in 0..8 {
        bad |= is_zero_kept(levels[k], (bits >> k) % 2);
    }
    bad
}

// Whether a keep number sets a bit of its block that it may not. All 64 are looked at, with no way out between. The number is
// divided turn by turn: shifted by the turn's number, or with an end once no bit is left, a full one took up to twice as long.
fn any_bad_bit(block: &[i16; 64], keep: u64) -> bool
    ensures { result ≡ false → Passed (bit_bad block.now keep) 64 }
{
    let mut bad = keep % 2 == 1;
    let (eights, _) = block.as_chunks::<8>();
    let mut rest = keep;
    for eight in eights {
        bad |= any_zero_kept(eight, (rest % 256) as u16);
        rest /= 256;
    }
    bad
}

// Whether a keep number sets bit k, and may not: it is that of DC, or of a level that is 0.
#[tactic(auto, unfolding(crate::specs::Passed::bit_bad))]
fn is_bad_bit(block: &[i16; 64], keep: u64, k: usize) -> bool
    requires { k < 64 }
    ensures { result ≡ bit_bad block.now keep k }
{
    (keep >> k) % 2 == 1 && (k == 0 || block[k] == 0)
}

// The first position of a block at which its keep number sets a bit that it may not.
fn first_bad_bit(block: &[i16; 64], keep: u64) -> Option<usize>
    ensures { result ≡ first_of (bit_bad block.now keep) 64 }
{
    if any_bad_bit(block, keep) {
        return (0..64).find(|k| is_bad_bit(block, keep, *k));
    }
    None
}

// Refusal 10, over the whole still.
fn check_keep(blocks: &[[i16; 64]], keep: &[u64]) -> Result<(), Refusal>
    ensures { said_check result ≡ keep_check (levels_in blocks.now) keep.now }
{
    for (b, (block, bits)) in blocks.iter().zip(keep).enumerate() {
        if let Some(k) = first_bad_bit(block, *bits) {
            return Err(refuse_at(Kind::Keep, b, k));
        }
    }
    Ok(())
}

// A still to which refusals 1, 2 and 3 do not apply, and its blocks. Every job but the thinning begins with it.
#[derive(Clone, Copy)]
struct Counted<'a> {
    levels: &'a [i16],
    steps: &'a [u8],
    lengths: &'a [u8],
    blocks: &'a [[i16; 64]],
    ghost counted: { still_check levels.now steps.now lengths.now ≡ fine },
    ghost count: { length blocks.now ≡ length levels.now / 64 },
    ghost same: { levels_in blocks.now ≡ levels.now },
}

impl<'a> Counted<'a> {
    // Refusals 1, 2 and 3.
    fn check(levels: &'a [i16], steps: &'a [u8], lengths: &'a [u8]) -> Result<Counted<'a>, Refusal>
        ensures told { said_check result ≡ still_check levels.now steps.now lengths.now }
        ensures lent { IfOk result (λ s. (s.levels.now ≡ levels.now) × (s.steps.now ≡ steps.now) × (s.lengths.now ≡ lengths.now)) }
    {
        let blocks = check_levels(levels)?;
        check_table::<64>(Kind::Steps, 1, 255, steps)?;
        check_table::<256>(Kind::Lengths, 0, 16, lengths)?;
        Ok(Counted {
            levels,
            steps,
            lengths,
            blocks,
        })
    }

    // The still, unless refusal 6 applies.
    fn still(&self) -> Result<Still<'a>, Refusal>
        ensures told { said_check result ≡ ac_check self.now.levels.now }
        ensures lent { IfOk result (λ s. (s.levels.now ≡ self.now.levels.now) × (s.steps.now ≡ self.now.steps.now) × (s.lengths.now ≡ self.now.lengths.now)) }
    {
        check_ac(self.blocks)?;
        Ok(Still {
            levels: self.levels,
            steps: self.steps,
            lengths: self.lengths,
        })
    }
}

/// The checks of a price job, refusals 1 to 6. The room is the length of its keep slice.
#[tactic(auto, unfolding(crate::specs::Refusals::price_verdict))]
pub fn check_price<'a>(
    levels: &'a [i16],
    steps: &'a [u8],
    lengths: &'a [u8],
    a: u64,
    b: u64,
    room: usize,
) -> Result<(Still<'a>, Price), Refusal>
    ensures told { said_check result ≡ price_verdict levels.now steps.now lengths.now a b room }
    ensures lent { IfOk result (λ r. (r.0.levels.now ≡ levels.now) × (r.0.steps.now ≡ steps.now) × (r.0.lengths.now ≡ lengths.now)) }
    ensures price { IfOk result (λ r. (r.1.a ≡ a) × (r.1.b ≡ b)) }
    ensures room { IfOk result (λ r. room ≡ length levels.now / 64) }
{
    let counted = Counted::check(levels, steps, lengths)?;
    let price = check_price_range(a, b)?;
    check_keep_room(counted.blocks.len(), room)?;
    let still = counted.still()?;
    Ok((still, price))
}

/// The checks of a list job, refusals 1, 2, 3, 5 and 6. The room is the length of its list.
#[tactic(auto, unfolding(crate::specs::Refusals::list_verdict))]
pub fn check_list<'a>(
    levels: &'a [i16],
    steps: &'a [u8],
    lengths: &'a [u8],
    room: usize,
) -> Result<Still<'a>, Refusal>
    ensures told { said_check result ≡ list_verdict levels.now steps.now lengths.now room }
    ensures lent { IfOk result (λ s. (s.levels.now ≡ levels.now) × (s.steps.now ≡ steps.now) × (s.lengths.now ≡ lengths.now)) }
{
    let counted = Counted::check(levels, steps, lengths)?;
    check_list_room(room)?;
    counted.still()
}

/// The checks of a budget job, refusals 1, 2, 3, 5 and 6. The room is the length of its keep slice.
#[tactic(auto, unfolding(crate::specs::Refusals::budget_verdict))]
pub fn check_budget<'a>(
    levels: &'a [i16],
    steps: &'a [u8],
    lengths: &'a [u8],
    room: usize,
) -> Result<Still<'a>, Refusal>
    ensures told { said_check result ≡ budget_verdict levels.now steps.now lengths.now room }
    ensures lent { IfOk result (λ s. (s.levels.now ≡ levels.now) × (s.steps.now ≡ steps.now) × (s.lengths.now ≡ lengths.now)) }
    ensures room { IfOk result (λ s. room ≡ length levels.now / 64) }
{
    let counted = Counted::check(levels, steps, lengths)?;
    check_keep_room(counted.blocks.len(), room)?;
    counted.still()
}

/// The checks of a thinning, refusals 1, 5, 6 and 10. The keep numbers are looked at only once there is one for each block.
#[tactic(auto, unfolding(crate::specs::Refusals::thin_verdict))]
pub fn check_thin(levels: &[i16], keep: &[u64]) -> Result<(), Refusal>
    ensures { said_check result ≡ thin_verdict levels.now keep.now }
{
    let blocks = check_levels(levels)?;
    check_keep_room(blocks.len(), keep.len())?;
    check_ac(blocks)?;
    check_keep(blocks, keep)
}
