// The values of hexadecimal digits, and the Unicode scalars that escapes write.
#![tactic(auto)]

ghost use Rattle.std.specs.Prelude.{◌≡◌, ℕ, ◌<◌, length};
ghost use Rattle.scalars.specs.Scalars.{hex_value, scalar_or, enc_scalar};

// The value of a hexadecimal digit; 0 of any other byte.
#[tactic(auto, using(std::proofs::lemmas::Bool::Decides::nat_tests), unfolding(crate::specs::Scalars::hex_value, decimals::specs::Bytes::digit))]
pub fn hex_value(b: u8) -> u32
    ensures { result ≡ hex_value b }
{
    char::from(b).to_digit(16).unwrap_or(0)
}

// The value itself if it is a Unicode scalar, else U+FFFD.
#[tactic(auto, using(std::proofs::lemmas::Bool::Decides::nat_tests), unfolding(crate::specs::Scalars::scalar_or, crate::specs::Scalars::is_scalar))]
pub fn scalar_or(v: u32) -> u32
    ensures { (result ≡ scalar_or v) × (result < 0x110000) }
{
    u32::from(char::from_u32(v).unwrap_or(char::REPLACEMENT_CHARACTER))
}

// How many bytes a scalar has in UTF-8.
#[tactic(auto, using(std::proofs::lemmas::Bool::Decides::nat_tests), unfolding(crate::specs::Scalars::enc_scalar))]
pub fn scalar_len(v: u32) -> usize
    ensures { result ≡ length (enc_scalar v) }
{
    match v {
        0..=0x7F => 1,
        0x80..=0x7FF => 2,
        0x800..=0xFFFF => 3,
        _ => 4,
    }
}
