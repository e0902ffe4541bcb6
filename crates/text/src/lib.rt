//! The text of the list program's answers, put into lent bytes.
#![tactic(auto)]

ghost use Rattle.std.specs.Prelude.{[], ◌∷◌, ◌++◌, ◌+◌, ◌*◌, ◌≤◌, ◌≡◌, length};
ghost use Rattle.answers.specs.Said.{number_of};
ghost use Rattle.text.specs.Text.{decimal, line, corner_lines, corners_text, refused_text, Holds};
ghost use Rattle.text.specs.Put.{Put};

use answers::Refusal;
use itoa::Buffer;

/// Puts the first `n` corners of a list, three numbers each, and gives the text's length. A number has at most 20 digits,
/// so that the first line has at most 29 bytes and a corner's at most 63.
pub fn put_corners(out: &mut [u8], n: usize, list: &[u64]) -> usize
    requires room { 29 + 63 * n ≤ length out.old }
    requires listed { 3 * n ≤ length list.now }
    ensures { Holds out.old (corners_text n list.now) out.new result }
{
    let mut text = Text { out, len: 0 };
    text.put(b"corners ");
    text.field(n as u64, b'\n');
    text.lines(n, list);
    text.len
}

/// Puts a refusal with its two details, and gives the text's length.
pub fn put_refusal(out: &mut [u8], refusal: Refusal) -> usize
    requires { 71 ≤ length out.old }
    ensures { Holds out.old (refused_text (number_of refusal.kind) refusal.first refusal.second) out.new result }
{
    let mut text = Text { out, len: 0 };
    text.put(b"refused ");
    text.line(refusal.kind.number() as u64, refusal.first, refusal.second);
    text.len
}

// A text that grows from the start of lent bytes.
#[derive(Drop)]
struct Text<'a> {
    out: &'a mut [u8],
    len: usize,
    ghost within: { len ≤ length out.now },
}

impl Text<'_> {
    // Bytes as they are.
    fn put(&mut self, bytes: &[u8])
        requires { self.old.len + length bytes.now ≤ length self.old.out.now }
        ensures same_bytes { self.new.out.ghost_name ≡ self.old.out.ghost_name }
        ensures put { Put (length bytes.now) self.old.out.now self.old.len bytes.now self.new.out.now self.new.len }
    {
        let end = self.len + bytes.len();
        self.out[self.len..end].copy_from_slice(bytes);
        self.len = end;
    }

    fn push(&mut self, byte: u8)
        requires { self.old.len + 1 ≤ length self.old.out.now }
        ensures same_bytes { self.new.out.ghost_name ≡ self.old.out.ghost_name }
        ensures put { Put 1 self.old.out.now self.old.len (byte ∷ []) self.new.out.now self.new.len }
    {
        self.out[self.len] = byte;
        self.len += 1;
    }

    // A number in decimal, and the byte that ends it.
    fn field(&mut self, n: u64, end: u8)
        requires { self.old.len + 21 ≤ length self.old.out.now }
        ensures same_bytes { self.new.out.ghost_name ≡ self.old.out.ghost_name }
        ensures put { Put 21 self.old.out.now self.old.len (decimal n ++ end ∷ []) self.new.out.now self.new.len }
    {
        self.put(Buffer::new().format(n).as_bytes());
        self.push(end);
    }

    // A line of three numbers.
    fn line(&mut self, x: u64, y: u64, z: u64)
        requires { self.old.len + 63 ≤ length self.old.out.now }
        ensures same_bytes { self.new.out.ghost_name ≡ self.old.out.ghost_name }
        ensures put { Put 63 self.old.out.now self.old.len (line x y z) self.new.out.now self.new.len }
    {
        self.field(x, b' ');
        self.field(y, b' ');
        self.field(z, b'\n');
    }

    // A line for each of the first n corners of a list.
    fn lines(&mut self, n: usize, list: &[u64])
        requires room { self.old.len + 63 * n ≤ length self.old.out.now }
        requires listed { 3 * n ≤ length list.now }
        ensures same_bytes { self.new.out.ghost_name ≡ self.old.out.ghost_name }
        ensures put { Put (63 * n) self.old.out.now self.old.len (corner_lines list.now n) self.new.out.now self.new.len }
    {
        let (corners, _) = list.as_chunks::<3>();
        for &[bits, error, kept] in &corners[..n] {
            self.line(bits, error, kept);
        }
    }
}
