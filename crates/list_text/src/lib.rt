//! The text that the list program prints for a packet, put into lent bytes.
#![tactic(auto)]

ghost use Rattle.std.specs.Prelude.{◌≡◌, ◌+◌, ◌*◌, ◌≤◌, length, replicate, IfOk};
ghost use Rattle.answers.specs.Said.{said_corners};
ghost use Rattle.list_text.specs.ListText.{Prints, ListTextMeets, said_text, most_listed};

use answers::Refusal;
use packet::{MOST_LEVELS, Packet};

// The most corners that are listed.
const MOST_LISTED: usize = 1024;

/// As many bytes as any text takes: at most 29 for the first line and 63 for each corner's.
pub const ROOM: usize = 29 + 63 * MOST_LISTED;

/// Puts the text for a packet, whose own refusal comes before all that the list job says. Gives the text's length. It is lent
/// bytes and returns no `String`, since it can't fail and the library has no heap.
pub fn list_text(packet: &[u8], out: &mut [u8]) -> usize
    requires { 29 + 63 * most_listed ≤ length out.old }
    ensures { ListTextMeets packet.now out.old out.new result }
{
    let mut list = [0u64; 3 * MOST_LISTED];
    match list_packed(packet, &mut list) {
        Ok(n) => text::put_corners(out, n, &list),
        Err(refusal) => text::put_refusal(out, refusal),
    }
}

// How many corners the still in a packet has, listed, or why it is refused.
fn list_packed(packet: &[u8], list: &mut [u64]) -> Result<usize, Refusal>
    requires { list.old ≡ replicate (3 * most_listed) 0 }
    ensures prints { Prints packet.now (said_text (said_corners result) list.new) }
    ensures places { IfOk result (λ n. n ≤ most_listed) }
{
    let packet = Packet::check(packet)?;
    let mut room = [0i16; MOST_LEVELS];
    let levels = packet.levels(&mut room);
    list_job::list(levels, packet.steps(), &packet.lengths(), list)
}
