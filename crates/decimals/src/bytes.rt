// Bytes: equal ones, digits, and a byte as a number.
ghost use Rattle.std.specs.Prelude.{◌≡◌, ◌<◌};
ghost use Rattle.decimals.specs.Bytes.{same_bytes, digit};

// Is a byte a digit, `0` to `9`?
#[tactic(auto, unfolding(crate::specs::Bytes::digit))]
pub fn is_digit(b: u8) -> bool
    ensures { result ≡ digit b }
{
    b.is_ascii_digit()
}

// A byte as a number.
pub fn wide(b: u8) -> usize
    ensures { (result ≡ b) × (result < 256) }
{
    usize::from(b)
}

// Are the bytes of two slices equal?
pub fn same_bytes(a: &[u8], b: &[u8]) -> bool
    ensures { result ≡ same_bytes a.now b.now }
{
    a == b
}
