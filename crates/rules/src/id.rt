// The bytes of an Id.
ghost use Rattle.std.specs.Prelude.{◌≡◌, eqb};
ghost use Rattle.rules.specs.Rules.{id_step, is_id};

use crate::ascii::is_letter;
use decimals::bytes::is_digit;

// May a byte stand in an Id, behind the first?
#[tactic(auto, using(std::proofs::lemmas::Bool::Decides::nat_tests), unfolding(crate::specs::Rules::id_step))]
fn is_inner(b: u8) -> bool
    ensures { result ≡ eqb (id_step 1 b) 1 }
{
    is_letter(b) || is_digit(b) || matches!(b, b'-' | b'_')
}

// Are these the bytes of an Id?
pub fn is_id(s: &[u8]) -> bool
    ensures { result ≡ is_id s.now }
{
    match s {
        [first, others @ ..] => {
            s.len() <= 255 && is_letter(*first) && others.iter().all(|b| is_inner(*b))
        }
        [] => false,
    }
}
