//! A packed still: its levels, steps and lengths, read out of the packet's bits.
#![tactic(auto)]

ghost use Rattle.std.specs.Prelude.{◌≡◌, ◌+◌, ◌*◌, ◌/◌, ◌%◌, ◌^◌, ◌≤◌, ◌<◌, true, pos, length, get_or, IfOk};
ghost use Rattle.answers.specs.Said.{said_check};
ghost use Rattle.packet.specs.Packet.{field, twos_complement, well_packed, packet_verdict, packed_blocks, packed_steps, packed_lengths, packed_levels};

use answers::{Kind, Refusal};

/// The most blocks that a packet has.
pub const MOST_BLOCKS: usize = 256;

/// The most levels that a packet has.
pub const MOST_LEVELS: usize = 64 * MOST_BLOCKS;

/// The most bytes that a packet has.
pub const MOST_BYTES: usize = 226 + 96 * MOST_BLOCKS;

const VERSION: u8 = 1;

// The first bit of the steps, of the lengths and of the levels.
const STEPS_AT: usize = 8 + 8;

const LENGTHS_AT: usize = STEPS_AT + 64 * 8;

const LEVELS_AT: usize = LENGTHS_AT + 256 * 5;

/// A packet of version 1 that is as long as its own number of blocks asks for.
#[derive(Clone, Copy)]
pub struct Packet<'a> {
    pub bytes: &'a [u8],
    pub ghost well: { well_packed bytes.now ≡ true },
    pub ghost long: { length bytes.now ≡ 226 + 96 * packed_blocks bytes.now },
}

impl<'a> Packet<'a> {
    /// Takes the bytes for a packet, or refuses them and tells their length.
    pub fn check(bytes: &'a [u8]) -> Result<Packet<'a>, Refusal>
        ensures told { said_check result ≡ packet_verdict bytes.now }
        ensures same { IfOk result (λ p. p.bytes.now ≡ bytes.now) }
    {
        let long = bytes.len();
        if long < 2 || bytes[0] != VERSION || long != 226 + 96 * blocks(bytes) {
            return Err(Refusal::new(Kind::Packet, long as u64));
        }
        Ok(Packet { bytes })
    }

    /// How many blocks it has, 1 to 256.
    pub fn blocks(&self) -> usize
        ensures value { result ≡ packed_blocks self.now.bytes.now }
        ensures most { result ≤ 256 }
    {
        blocks(self.bytes)
    }

    /// The 64 steps.
    pub fn steps(&self) -> &'a [u8]
        ensures { result.now ≡ packed_steps self.now.bytes.now }
    {
        steps(self.bytes)
    }

    /// The 256 lengths.
    pub fn lengths(&self) -> [u8; 256]
        ensures { result ≡ packed_lengths self.now.bytes.now }
    {
        let mut lengths = [0; 256];
        for (i, length) in lengths.iter_mut().enumerate() {
            *length = field(self.bytes, LENGTHS_AT + 5 * i, 5) as u8;
        }
        lengths
    }

    /// The levels, 64 for each block, put at the start of the room that is lent for them.
    pub fn levels<'b>(&self, room: &'b mut [i16; MOST_LEVELS]) -> &'b [i16]
        ensures { result.now ≡ packed_levels self.now.bytes.now }
    {
        let levels = &mut room[..64 * self.blocks()];
        // Two a turn: they fill three bytes, so that each is cut out of its bytes in a fixed way.
        for i in 0..levels.len() / 2 {
            let three = &self.bytes[LEVELS_AT / 8 + 3 * i..LEVELS_AT / 8 + 3 * i + 3];
            levels[2 * i] = level_of(field(three, 0, 12));
            levels[2 * i + 1] = level_of(field(three, 12, 12));
        }
        levels
    }
}

fn blocks(bytes: &[u8]) -> usize
    requires { 2 ≤ length bytes.now }
    ensures value { result ≡ packed_blocks bytes.now }
    ensures most { result ≤ 256 }
{
    bytes[1] as usize + 1
}

// Steps are whole bytes.
fn steps(bytes: &[u8]) -> &[u8]
    requires { 66 ≤ length bytes.now }
    ensures { result.now ≡ packed_steps bytes.now }
{
    &bytes[STEPS_AT / 8..LENGTHS_AT / 8]
}

// A field that lies within two bytes, cut out of them.
fn field(bytes: &[u8], at: usize, width: usize) -> u16
    requires narrow { (1 ≤ width) × (width ≤ 12) × (at % 8 + width ≤ 16) }
    requires within { at / 8 + 1 < length bytes.now }
    ensures value { result ≡ field bytes.now at width }
    ensures below { result < 2 ^ width }
{
    let window = u16::from_be_bytes([bytes[at / 8], bytes[at / 8 + 1]]);
    (window >> (16 - (at % 8 + width))) % (1u16 << width)
}

// A level out of its twelve bits in two's complement.
fn level_of(n: u16) -> i16
    requires { n < 4096 }
    ensures { result ≡ twos_complement n }
{
    if n < 2048 {
        return n as i16;
    }
    n as i16 - 4096
}
