//! A tournament of contestants of which one of any two wins.
ghost use Rattle.std.specs.Prelude.{◌≡◌, ◌*◌, ◌<◌, ◌≤◌, length, slice_index, MatchBool};
ghost use Rattle.steepest.specs.Tournament.{WinsAt, IsWinner, IsTournament, IsStale, IsTop};

/// Who can meet in a tournament. Of two contestants one wins over the other, or each does; and who wins over a contestant
/// wins over all that it wins over.
pub trait Contest: Copy {
    ghost wins: { Self → Self → Type 0 };

    /// Whether the other wins, and this one does not.
    fn is_below(&self, other: &Self) -> bool
        ensures { MatchBool result (wins other.now self.now × ¬ wins self.now other.now) (wins self.now other.now) };

    ghost reflexive: { (x : Self) → wins x x };

    ghost transitive: { (x y z : Self) → wins x y → wins y z → wins x z };
}

// The winner of contestants x and y, x where both win.
fn winner<W: Contest>(ways: &[W], x: usize, y: usize) -> usize
    requires x_in { x < length ways.now }
    requires y_in { y < length ways.now }
    ensures winner { IsWinner W.wins ways.now x y result }
    ensures first { WinsAt W.wins ways.now x y → result ≡ x }
{
    if ways[x].is_below(&ways[y]) { y } else { x }
}

/// Plays the whole tournament: each contestant takes its leaf, and then each node has its duel, from the last to the root.
pub fn build<W: Contest>(ways: &[W], seats: &mut [usize])
    requires some { 1 ≤ length ways.now }
    requires room { 2 * length ways.now ≤ length seats.old }
    ensures tournament { IsTournament W.wins ways.now seats.new }
    ensures length { length seats.new ≡ length seats.old }
{
    let n = ways.len();
    for i in 0..n {
        seats[n + i] = i;
    }
    for k in (1..n).rev() {
        seats[k] = winner(ways, seats[2 * k], seats[2 * k + 1]);
    }
}

/// Plays the duels above contestant i's leaf again, after i has changed.
pub fn mend<W: Contest>(ways: &[W], seats: &mut [usize], i: usize)
    requires stale { IsStale W.wins ways.now seats.old i }
    ensures tournament { IsTournament W.wins ways.now seats.new }
    ensures length { length seats.new ≡ length seats.old }
{
    let mut best = i;
    let mut at = ways.len() + i;
    // a `while`, since no range halves its index
    while 1 < at {
        let up = at / 2;
        // nodes 2 up and 2 up + 1 are this one and the one beside it
        best = winner(ways, best, seats[4 * up + 1 - at]);
        seats[up] = best;
        at = up;
    }
}

/// The index of the winner over all, which sits at the root. Only the contract reads `ways`.
pub fn top<W: Contest>(ways: &[W], seats: &[usize]) -> usize
    requires room { 2 ≤ length seats.now }
    ensures root { result ≡ slice_index seats.now 1 }
    ensures top { IsTournament W.wins ways.now seats.now → IsTop W.wins ways.now result }
{
    seats[1]
}
