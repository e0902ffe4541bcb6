//! What a level is to the coder: its magnitude, its size, the error of dropping it. T.81's fixed tables are in `tables`.

#![tactic(auto)]

pub mod tables;

ghost use Rattle.std.specs.Prelude.{◌≡◌, ◌≤◌, ◌<◌, nat_abs};
ghost use Rattle.block.specs.Level.{size_of, squared_error};
ghost use Rattle.block.specs.Limits.{most_level_error};

/// The magnitude of a level.
pub fn magnitude(v: i16) -> u64
    ensures { result ≡ nat_abs v }
{
    u64::from(v.unsigned_abs())
}

/// The size of a magnitude: the least number of bits that holds it.
pub fn size_of(n: u64) -> usize
    requires { n ≤ 1023 }
    ensures { result ≡ size_of n }
{
    (u64::BITS - n.leading_zeros()) as usize
}

/// The squared error of dropping a level of magnitude `n` whose quantization step is `q`.
pub fn squared_error(n: u64, q: u8) -> u64
    requires { n ≤ 1023 }
    ensures value { result ≡ squared_error n q }
    ensures most { result ≤ most_level_error }
{
    let d = n * u64::from(q);
    d * d
}
