// Classes of ASCII bytes.
ghost use Rattle.std.specs.Prelude.{◌≡◌};
ghost use Rattle.rules.specs.Rules.{letter, hex};

// Is a byte a letter?
#[tactic(auto, unfolding(crate::specs::Rules::letter))]
pub(crate) fn is_letter(b: u8) -> bool
    ensures { result ≡ letter b }
{
    b.is_ascii_alphabetic()
}

// Is a byte a hexadecimal digit?
#[tactic(auto, using(std::proofs::lemmas::Bool::Decides::nat_tests), unfolding(crate::specs::Rules::hex, decimals::specs::Bytes::digit))]
pub fn is_hex(b: u8) -> bool
    ensures { result ≡ hex b }
{
    b.is_ascii_hexdigit()
}
