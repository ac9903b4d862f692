// An argument's number.
ghost use Rattle.std.specs.Prelude.{◌≡◌};
ghost use Rattle.records.specs.Relations.Answer.{next_of};
ghost use Rattle.records.specs.Images.{argument_number_at};
ghost use Rattle.arguments.specs.Relations.Checked.{is_whole, least_given};
ghost use Rattle.arguments.specs.Relations.Outline.{given_from, value_given};

use crate::Given;
use crate::find::read_argument_value;
use decimals::types::{DIGITS_LIMIT, SCALE_LIMIT};

// An argument's number: sign Flag, u64 below 10^15, scale byte 0 to 14.
pub(crate) fn check_argument_number(s: &[u8], at: usize) -> Option<usize>
    ensures { result ≡ next_of (argument_number_at s.now at) }
{
    let p = records::check_flag(s, at)?;
    let (d, q) = records::read_u64(s, p)?;
    if d < DIGITS_LIMIT as usize {
        let (k, e) = records::read_byte(s, q)?;
        if k <= SCALE_LIMIT as usize {
            return Some(e);
        }
    }
    None
}

// Is the value at a position no number with a scale above 0? A number's scale stands ten bytes behind its tag.
#[tactic(auto, unfolding(crate::specs::Relations::Checked::is_whole))]
fn is_whole(s: &[u8], at: usize) -> bool
    ensures { result ≡ is_whole s.now at }
{
    if s.len() < 11 || s.len() - 11 < at {
        return true;
    }
    s[at] != 2 || s[at + 10] == 0
}

// Is the value at a position no number with a scale above 0 and digits divisible by 10? Most have no scale, and are not read again.
pub(crate) fn has_least_scale(s: &[u8], at: usize) -> bool
    ensures { result ≡ least_given (given_from (value_given s.now at)) }
{
    if is_whole(s, at) {
        return true;
    }
    match read_argument_value(s, at) {
        Some(Given::Number(_, digits, scale)) => scale == 0 || digits % 10 != 0,
        Some(Given::Text(_, _)) => true,
        Some(Given::Nothing) => true,
        None => true,
    }
}
