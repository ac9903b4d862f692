// Lent buffers: bytes appended, a buffer filled with zeros, bytes moved to its back.
#![tactic(auto)]

ghost use Rattle.std.specs.Prelude.{◌≡◌, ℕ, ◌+◌, ◌≤◌, length, replicate};
ghost use Rattle.records.specs.Bytes.{part};
ghost use Rattle.buffers.specs.Relations.Append.{over, appended, moved_back};

use records::{has_bytes, write_bytes};

// What was to be written passes the buffer; nothing is written.
#[derive(Clone, Copy, Debug, PartialEq, Eq)]
pub struct NoRoom;

// Appends the bytes of a slice, and answers the position past them.
pub fn put_bytes(d: &mut [u8], at: usize, src: &[u8]) -> Result<usize, NoRoom>
    ensures { (result, d.new) ≡ appended d.old at src.now }
{
    if has_bytes(d.len(), at, src.len()) {
        write_bytes(d, at, src);
        return Ok(at + src.len());
    }
    Err(NoRoom)
}

pub fn fill_zero(d: &mut [u8])
    ensures { d.new ≡ replicate (length d.old) 0 }
{
    d.fill(0);
}

// Moves n bytes from `from` on to `to`, where that is not before them; they may overlap. Nothing, if they do not lie within.
pub fn move_back(w: &mut [u8], from: usize, n: usize, to: usize)
    ensures { w.new ≡ moved_back w.old from n to }
{
    if from <= to && has_bytes(w.len(), to, n) {
        w.copy_within(from..from + n, to);
    }
}
