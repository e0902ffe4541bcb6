//! The head-end's call: a packed still fitted into a budget, its keep numbers in a buffer of bytes.
#![tactic(auto)]

ghost use Rattle.std.specs.Prelude.{◌≡◌, ◌+◌, ◌*◌, ◌≤◌, length};
ghost use Rattle.answers.specs.Said.{said_point};
ghost use Rattle.headend.specs.HeadEnd.{bytes_of, number_said, places as placesFor, HeadEndMeets};

use answers::{Point, Refusal};
use packet::{MOST_BLOCKS, MOST_LEVELS, Packet};

/// Fits a packed still into a budget of bits, its keep numbers into a buffer of eight bytes for each block. Gives 0, or
/// the number of the refusal.
pub fn anb_budget(packet: &[u8], budget: u32, keep: &mut [u8]) -> u32
    ensures { HeadEndMeets packet.now budget keep.old result keep.new }
{
    match fit(packet, budget, keep) {
        Ok(_) => 0,
        Err(refusal) => refusal.kind.number(),
    }
}

// The job on what the packet holds; its keep numbers are stored where it has a point.
fn fit(packet: &[u8], budget: u32, keep: &mut [u8]) -> Result<Point, Refusal>
    ensures { HeadEndMeets packet.now budget keep.old (number_said (said_point result)) keep.new }
{
    let packet = Packet::check(packet)?;
    let mut room = [0i16; MOST_LEVELS];
    let levels = packet.levels(&mut room);
    let mut numbers = [0u64; MOST_BLOCKS + 1];
    let numbers = &mut numbers[..places(packet.blocks(), keep.len())];
    let point = budget_job::fit(levels, packet.steps(), &packet.lengths(), budget, numbers)?;
    store(numbers, keep);
    Ok(point)
}

// For how many keep numbers the buffer has places. A wrong length counts as one too many, so that the job refuses it in its order.
fn places(n: usize, bytes: usize) -> usize
    requires { n ≤ 256 }
    ensures places { result ≡ placesFor n bytes }
    ensures most { result ≤ n + 1 }
{
    if bytes == 8 * n { n } else { n + 1 }
}

// Each keep number in eight bytes, most significant byte first.
fn store(numbers: &[u64], keep: &mut [u8])
    requires { length keep.old ≡ 8 * length numbers.now }
    ensures { keep.new ≡ bytes_of numbers.now }
{
    for (i, number) in numbers.iter().enumerate() {
        keep[8 * i..8 * i + 8].copy_from_slice(&number.to_be_bytes());
    }
}
