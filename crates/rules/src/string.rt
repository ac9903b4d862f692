// The bytes of a string literal.
ghost use Rattle.std.specs.Prelude.{◌≡◌};
ghost use Rattle.rules.specs.Rules.{escape_step, is_string};

use crate::ascii::is_hex;
use crate::utf8::is_utf8;

// The states are the numbers of `escape_step` in specs/, and no enum: 2 + n counts the digits that are to come.
#[tactic(auto, using(std::proofs::lemmas::Bool::Decides::nat_tests), unfolding(crate::specs::Rules::escape_step))]
fn escape_step(q: u8, b: u8) -> u8
    ensures { result ≡ escape_step q b }
{
    match q {
        0 => { if b == b'\\' { 1 } else { 0 } }
        1 => match b {
            b'\\' | b'"' => 0,
            b'u' => 6,
            b'U' => 8,
            _ => 2,
        },
        3 if is_hex(b) => 0,
        4.. if is_hex(b) => q - 1,
        _ => 2,
    }
}

// Are these the bytes of a string literal? A byte is visited twice: once for the escapes, once for UTF-8.
pub fn is_string(s: &[u8]) -> bool
    ensures { result ≡ is_string s.now }
{
    let mut q = 0;
    for b in s {
        q = escape_step(q, *b);
    }
    q == 0 && is_utf8(s)
}
