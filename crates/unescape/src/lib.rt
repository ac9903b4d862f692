// String literals read: the escapes of a text, and the bytes that it reads as.
#![tactic(auto)]

ghost use Rattle.std.specs.Prelude.{◌≡◌, true, ◌+◌, ◌≤◌, ◌<◌, leb, length};
ghost use Rattle.buffers.specs.Relations.Append.{over, appended};
ghost use Rattle.rules.specs.Rules.{hex};
ghost use Rattle.scalars.specs.Scalars.{hex_value, enc_scalar};
ghost use Rattle.unescape.specs.Unescape.{has_backslash, digits_of, scalar_of, escape_of, piece_of, reads_as, more_of, unescape};

use buffers::NoRoom;
use records::has_bytes;
use rules::is_hex;
use scalars::{scalar_len, scalar_or};

// What stands at the front of a text: a byte, or an escape that gives a number; and how many bytes past the first belong to it.
#[derive(Clone, Copy)]
enum Piece {
    Byte(u8, usize),
    Scalar(u32, usize),
}

pub fn has_backslash(s: &[u8]) -> bool
    ensures { result ≡ has_backslash s.now }
{
    s.contains(&b'\\')
}

// The value of a hexadecimal digit, by arithmetic on the byte: no branch, no table. `0` (48) is a multiple of 16, and `A` (65) and `a` (97) are each one past one: so
// the low half of the byte is the value of `0` to `9`, and 9 less than that of a letter; and 64 goes once into a letter, and not into the others.
fn hex_value(b: u8) -> u32
    requires { hex b ≡ true }
    ensures { result ≡ hex_value b }
{
    let d = b as u32;
    let value = d % 16 + d / 64 * 9;
    prove!(value == scalars::hex_value(b));
    value
}

// The value of n hexadecimal digits at the front of a text, if they are all there.
fn digits(s: &[u8], n: usize) -> Option<u32>
    requires { n ≤ 6 }
    ensures { result ≡ digits_of 0 n s.now }
{
    let mut v = 0u32;
    for b in s.get(..n)? {
        if !is_hex(*b) {
            return None;
        }
        v = v * 16 + hex_value(*b);
    }
    Some(v)
}

// What n hexadecimal digits make of the backslash and the letter before them.
#[tactic(auto, unfolding(crate::specs::Unescape::scalar_of, crate::specs::Unescape::scalar_piece))]
fn scalar(s: &[u8], n: usize) -> Piece
    requires { n ≤ 6 }
    ensures { result ≡ scalar_of n s.now }
{
    match digits(s, n) {
        Some(v) => Piece::Scalar(v, n + 1),
        None => Piece::Byte(b'\\', 0),
    }
}

// What the bytes past a backslash make of it.
#[tactic(auto, unfolding(crate::specs::Unescape::escape_of))]
fn escape(s: &[u8]) -> Piece
    ensures { result ≡ escape_of s.now }
{
    match s {
        [b'\\', ..] => Piece::Byte(b'\\', 1),
        [b'"', ..] => Piece::Byte(b'"', 1),
        [b'u', rest @ ..] => scalar(rest, 4),
        [b'U', rest @ ..] => scalar(rest, 6),
        _ => Piece::Byte(b'\\', 0),
    }
}

// The piece at the front of a text, by its first byte and the rest.
#[tactic(auto, unfolding(crate::specs::Unescape::piece_of))]
fn front_piece(b: u8, rest: &[u8]) -> Piece
    ensures { result ≡ piece_of b rest.now }
{
    if b == b'\\' {
        escape(rest)
    } else {
        Piece::Byte(b, 0)
    }
}

// Writes a scalar in UTF-8. The library's `encode_utf8` doesn't say what it leaves in the buffer.
#[tactic(auto, unfolding(scalars::specs::Scalars::enc_scalar))]
fn write_scalar(d: &mut [u8], at: usize, v: u32)
    requires { (at + length (enc_scalar v) ≤ length d.old) × (v < 0x110000) }
    ensures { d.new ≡ over d.old at (enc_scalar v) }
{
    if v < 0x80 {
        d[at] = v as u8;
        return;
    }
    if v < 0x800 {
        d[at] = (192 + v / 64) as u8;
        d[at + 1] = (128 + v % 64) as u8;
        return;
    }
    if v < 0x10000 {
        d[at] = (224 + v / 4096) as u8;
        d[at + 1] = (128 + v / 64 % 64) as u8;
        d[at + 2] = (128 + v % 64) as u8;
        return;
    }
    d[at] = (240 + v / 262144) as u8;
    d[at + 1] = (128 + v / 4096 % 64) as u8;
    d[at + 2] = (128 + v / 64 % 64) as u8;
    d[at + 3] = (128 + v % 64) as u8;
}

impl Piece {
    #[tactic(auto, unfolding(crate::specs::Unescape::more_of))]
    fn more(self) -> usize
        ensures { result ≡ more_of self }
    {
        match self {
            Piece::Byte(_, more) | Piece::Scalar(_, more) => more,
        }
    }

    #[tactic(auto, unfolding(crate::specs::Unescape::reads_as))]
    fn len(self) -> usize
        ensures { result ≡ length (reads_as self) }
    {
        match self {
            Piece::Byte(_, _) => 1,
            Piece::Scalar(v, _) => scalar_len(scalar_or(v)),
        }
    }

    fn write(self, d: &mut [u8], at: usize)
        requires { at + length (reads_as self) ≤ length d.old }
        ensures { d.new ≡ over d.old at (reads_as self) }
    {
        match self {
            Piece::Byte(b, _) => d[at] = b,
            Piece::Scalar(v, _) => write_scalar(d, at, scalar_or(v)),
        }
    }
}

// How long a string literal is once its escapes are read.
#[tactic(auto, using(crate::proofs::Reading::more_inside, crate::proofs::Reading::length_unescape))]
pub fn unescaped_len(s: &[u8]) -> usize
    ensures { result ≡ length (unescape s.now) }
{
    let mut n = 0usize;
    let mut left = s;
    while let Some((b, rest)) = left.split_first() {
        let p = front_piece(*b, rest);
        n += p.len();
        left = &rest[p.more()..];
    }
    n
}

// Writes what a string literal reads as, and says where it ends.
#[tactic(auto, using(crate::proofs::Reading::more_inside))]
fn unescape_to(s: &[u8], d: &mut [u8], at: usize) -> usize
    requires { at + length (unescape s.now) ≤ length d.old }
    ensures value { result ≡ at + length (unescape s.now) }
    ensures d_after { d.new ≡ over d.old at (unescape s.now) }
{
    let mut end = at;
    let mut left = s;
    while let Some((b, rest)) = left.split_first() {
        let p = front_piece(*b, rest);
        p.write(d, end);
        end += p.len();
        left = &rest[p.more()..];
    }
    end
}

// Is there room for what a string literal reads as? That is no longer than the literal, so its escapes are read only where the literal itself has no room.
#[tactic(auto, using(crate::proofs::Reading::room_unescape))]
fn has_room(s: &[u8], size: usize, at: usize) -> bool
    ensures { result ≡ leb (at + length (unescape s.now)) size }
{
    has_bytes(size, at, s.len()) || has_bytes(size, at, unescaped_len(s))
}

// Appends what a string literal reads as, and answers the position past it.
pub fn unescape_into(s: &[u8], d: &mut [u8], at: usize) -> Result<usize, NoRoom>
    ensures { (result, d.new) ≡ appended d.old at (unescape s.now) }
{
    if has_room(s, d.len(), at) {
        return Ok(unescape_to(s, d, at));
    }
    Err(NoRoom)
}
