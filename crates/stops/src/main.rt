//! The list program: reads one packet and prints the stops of the still in it, or why it is refused.
#![tactic(auto)]

ghost use Rattle.std.specs.Prelude.{◌≤◌, length};
ghost use Rattle.list_text.specs.ListText.{Prints};

use packet::MOST_BYTES;
use std::io;

// One byte more than any packet has.
const MOST_READ: usize = MOST_BYTES + 1;

// No contract can say what standard output takes. This one says what it is handed: the whole text for what was read.
fn print(rt: &impl Print, packet: &[u8], text: &[u8]) -> io::Result<()>
    requires read { length packet.now ≤ 24803 }
    requires whole { Prints packet.now text.now }
{
    rt.write_all(text)
}

fn main(rt: HostRuntime) -> io::Result<()> {
    let mut room = [0u8; MOST_READ];
    let n = input::read_full(&mut rt.stdin(), &mut room)?;
    let packet = &room[..n];
    let mut text = [0u8; list_text::ROOM];
    let r = list_text::list_text(packet, &mut text);
    print(&rt, packet, &text[..r])
}
