// The bytes that a case lends, and comparing bytes.
ghost use Rattle.std.specs.Prelude.{◌≡◌, length, replicate};
ghost use Rattle.vectors.specs.Readings.{all_are, begins_with, differing};
ghost use Rattle.vectors.specs.Lendings.{fronted};

// Has every byte this value?
pub fn all_are(s: &[u8], value: u8) -> bool
    ensures { result ≡ all_are s.now value }
{
    s.iter().all(|b| *b == value)
}

// Are these bytes at the front, and AA in every later one?
pub fn begins(s: &[u8], front: &[u8]) -> bool
    ensures { result ≡ begins_with s.now front.now }
{
    match s.strip_prefix(front) {
        Some(rest) => all_are(rest, 0xAA),
        None => false,
    }
}

// 1 where two things are not the same, to be counted.
#[tactic(auto, unfolding(crate::specs::Readings::differing))]
pub fn differs(same: bool) -> u64
    ensures { result ≡ differing same }
{
    u64::from(!same)
}

// Puts bytes at the front of others, if there is room.
#[tactic(auto, using(crate::proofs::Fronts::front_put, crate::proofs::Fronts::front_none))]
fn put_front(d: &mut [u8], front: &[u8])
    ensures { d.new ≡ fronted d.old front.now }
{
    if front.len() <= d.len() {
        d[..front.len()].copy_from_slice(front);
    }
}

// Bytes to lend, this value in each. Lending them as a slice needs their length, here and below.
pub fn filled<const N: usize>(value: u8) -> [u8; N]
    ensures size { N ≡ length result }
    ensures bytes { result ≡ replicate N value }
{
    [value; N]
}

// The same, with some bytes at the front, if there is room.
pub fn headed<const N: usize>(value: u8, front: &[u8]) -> [u8; N]
    ensures size { N ≡ length result }
    ensures bytes { result ≡ fronted (replicate N value) front.now }
{
    let mut bytes = filled(value);
    put_front(&mut bytes, front);
    bytes
}
