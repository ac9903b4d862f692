// The fields of a case: bytes, numbers with the highest byte first, Strs and Blobs. What lies past the end reads as 0, and a Str or
// a Blob that passes it as empty.
ghost use Rattle.std.specs.Prelude.{◌≡◌, ◌+◌, ◌<◌, min, length, drop, ◌==◌, slice_index};
ghost use Rattle.vectors.specs.Readings.{u16_in, u32_in, u64_in, part_in, string_in, past_string, blob_in, past_blob};

pub fn byte(s: &[u8], at: usize) -> u8
    ensures { result ≡ slice_index s.now at }
{
    s.get(at).copied().unwrap_or(0)
}

pub fn flag(s: &[u8], at: usize) -> bool
    ensures { result ≡ (slice_index s.now at == 1) }
{
    byte(s, at) == 1
}

// n bytes further, or the end.
pub fn past(s: &[u8], at: usize, n: usize) -> usize
    ensures { result ≡ min (at + n) (length s.now) }
{
    at.saturating_add(n).min(s.len())
}

// Each width is a line over the one below it.
pub fn u16_at(s: &[u8], at: usize) -> u64
    ensures { (result ≡ u16_in s.now at) × (result < 65536) }
{
    u64::from(byte(s, at)) * 256 + u64::from(byte(s, past(s, at, 1)))
}

pub fn u32_at(s: &[u8], at: usize) -> u64
    ensures { (result ≡ u32_in s.now at) × (result < 4294967296) }
{
    u16_at(s, at) * 65536 + u16_at(s, past(s, at, 2))
}

pub fn u64_at(s: &[u8], at: usize) -> u64
    ensures { result ≡ u64_in s.now at }
{
    u32_at(s, at) * 4294967296 + u32_at(s, past(s, at, 4))
}

// The n bytes from a position on, and nothing where they pass the end.
pub fn part(s: &[u8], at: usize, n: usize) -> &[u8]
    ensures { result.now ≡ part_in s.now at n }
{
    s.get(at..at.saturating_add(n)).unwrap_or(&[])
}

// The bytes from a position on.
pub fn tail(s: &[u8], at: usize) -> &[u8]
    ensures { result.now ≡ drop at s.now }
{
    s.get(at..).unwrap_or(&[])
}

// The bytes of a Str, and the position past them. A Blob, below, has a longer length: for both there is a line over part and past, as short as a call of one
// function for the two would be.
pub fn string(s: &[u8], at: usize) -> &[u8]
    ensures { result.now ≡ string_in s.now at }
{
    part(s, past(s, at, 2), u16_at(s, at) as usize)
}

pub fn past_string(s: &[u8], at: usize) -> usize
    ensures { result ≡ past_string s.now at }
{
    past(s, past(s, at, 2), u16_at(s, at) as usize)
}

// The bytes of a Blob, and the position past them.
pub fn blob(s: &[u8], at: usize) -> &[u8]
    ensures { result.now ≡ blob_in s.now at }
{
    part(s, past(s, at, 4), u32_at(s, at) as usize)
}

pub fn past_blob(s: &[u8], at: usize) -> usize
    ensures { result ≡ past_blob s.now at }
{
    past(s, past(s, at, 4), u32_at(s, at) as usize)
}
