// Numbers and Strs, read at a position.
ghost use Rattle.std.specs.Prelude.{◌≡◌, ◌+◌, ◌≤◌, ◌<◌, length, leb};
ghost use Rattle.records.specs.Relations.Answer.{next_of, num_of};
ghost use Rattle.records.specs.Bytes.{be, part, byte_at, number_at, span_at, str_at, bytes_at};

use decimals::bytes::wide;

// A byte as a number, and the position past it.
pub fn read_byte(s: &[u8], at: usize) -> Option<(usize, usize)>
    ensures { result ≡ num_of (byte_at s.now at) }
{
    if at < s.len() {
        Some((wide(s[at]), at + 1))
    } else {
        None
    }
}

// Two bytes as a number.
fn two(s: &[u8], at: usize) -> usize
    requires { at + 2 ≤ length s.now }
    ensures { (result ≡ be (part s.now at 2)) × (result < 65536) }
{
    let high = wide(s[at]);
    let low = wide(s[at + 1]);
    high * 256 + low
}

// Four bytes as a number.
fn four(s: &[u8], at: usize) -> usize
    requires { at + 4 ≤ length s.now }
    ensures { (result ≡ be (part s.now at 4)) × (result < 4294967296) }
{
    let high = two(s, at);
    let low = two(s, at + 2);
    high * 65536 + low
}

// Do n bytes from `at` on lie in a slice of `size` bytes?
pub fn has_bytes(size: usize, at: usize, n: usize) -> bool
    ensures { result ≡ leb (at + n) size }
{
    if size < n {
        return false;
    }
    at <= size - n
}

// A u16, the high byte first.
pub fn read_u16(s: &[u8], at: usize) -> Option<(usize, usize)>
    ensures { result ≡ num_of (number_at 2 s.now at) }
{
    if has_bytes(s.len(), at, 2) {
        return Some((two(s, at), at + 2));
    }
    None
}

// A u32, the high byte first.
pub fn read_u32(s: &[u8], at: usize) -> Option<(usize, usize)>
    ensures { result ≡ num_of (number_at 4 s.now at) }
{
    if has_bytes(s.len(), at, 4) {
        return Some((four(s, at), at + 4));
    }
    None
}

// A u64, the high byte first.
pub fn read_u64(s: &[u8], at: usize) -> Option<(usize, usize)>
    ensures { result ≡ num_of (number_at 8 s.now at) }
{
    if has_bytes(s.len(), at, 8) {
        let high = four(s, at);
        let low = four(s, at + 4);
        return Some((high * 4294967296 + low, at + 8));
    }
    None
}

// Past n bytes.
pub fn skip_bytes(s: &[u8], at: usize, n: usize) -> Option<usize>
    ensures { result ≡ next_of (bytes_at n s.now at) }
{
    if has_bytes(s.len(), at, n) {
        return Some(at + n);
    }
    None
}

// Where the bytes of a Str start, and the position past them.
pub fn read_str(s: &[u8], at: usize) -> Option<(usize, usize)>
    ensures { result ≡ num_of (span_at s.now at) }
{
    let (n, p) = read_u16(s, at)?;
    let e = skip_bytes(s, p, n)?;
    Some((p, e))
}

// Past a Str.
pub fn skip_str(s: &[u8], at: usize) -> Option<usize>
    ensures { result ≡ next_of (str_at s.now at) }
{
    let (_, e) = read_str(s, at)?;
    Some(e)
}
