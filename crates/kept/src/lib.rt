//! How many coefficients keep numbers keep.
#![tactic(auto)]

ghost use Rattle.std.specs.Prelude.{◌≡◌, ◌≤◌, length};
ghost use Rattle.kept.specs.Kept.{kept_of};

/// How many coefficients the keep numbers of at most 1,024 blocks keep: the count of their ones.
pub fn kept(keep: &[u64]) -> u64
    requires { length keep.now ≤ 1024 }
    ensures { result ≡ kept_of keep.now }
{
    keep.iter().map(|k| u64::from(k.count_ones())).sum()
}
