// Number literals.
ghost use Rattle.std.specs.Prelude.{◌≡◌, true, ◌+◌, ◌-◌, ◌^◌, ◌≤◌, ◌<◌};
ghost use Rattle.decimals.specs.Bytes.{choose, digit};
ghost use Rattle.literals.specs.Literal.{number_step, is_number, read_step, read_from, read_start, read_number, one_more, with_fraction};
ghost use Rattle.decimals.specs.Decimal.{or_zero, digits_limit, default_options};
ghost use Rattle.decimals.specs.Relations.Shown.{shown, shown_options, told_count};
ghost use Rattle.literals.specs.Relations.Shown.{literal_of, told_read};

use decimals::bytes::is_digit;
use decimals::types::{Number, Options};

// The states are the numbers of `number_step` in specs/: an enum would have a name for each of them and no less to say.
#[tactic(auto, using(std::proofs::lemmas::Bool::Decides::nat_tests), unfolding(crate::specs::Literal::number_step, decimals::specs::Bytes::digit))]
fn number_step(q: u8, b: u8) -> u8
    ensures { result ≡ number_step q b }
{
    match b {
        b'0'..=b'9' => match q {
            0..=2 => 2,
            3 | 4 => 4,
            _ => 5,
        },
        b'-' if q == 0 => 1,
        b'.' if q == 2 => 3,
        _ => 5,
    }
}

// Are these the bytes of a number literal?
pub fn is_number(s: &[u8]) -> bool
    ensures { result ≡ is_number s.now }
{
    let mut q = 0;
    let mut n = 0;
    for b in s {
        q = number_step(q, *b);
        n += usize::from(is_digit(*b));
    }
    matches!(q, 2 | 4) && n <= 15
}

// What was read of a literal.
#[derive(Clone, Copy)]
struct Read {
    negative: bool,
    digits: u64,
    fraction: Option<u64>,
}

#[tactic(auto, using(std::proofs::lemmas::Bool::Decides::nat_tests), unfolding(crate::specs::Literal::read_step, crate::specs::Literal::read_sign, crate::specs::Literal::read_dot, crate::specs::Literal::read_digit, crate::specs::Literal::one_more, decimals::specs::Relations::Shown::told_count, decimals::specs::Decimal::or_zero))]
fn read_step(r: Read, b: u8) -> Read
    requires { (r.digits ≤ digits_limit) × (or_zero (told_count r.fraction) < 2 ^ 63) }
    ensures { told_read result ≡ read_step (told_read r) b }
{
    match b {
        b'-' => Read {
            negative: true,
            ..r
        },
        b'.' => Read {
            fraction: Some(0),
            ..r
        },
        _ => Read {
            digits: r.digits * 10 + u64::from(b.saturating_sub(b'0')),
            fraction: r.fraction.map(|places| places + 1),
            ..r
        },
    }
}

// The number that was read: a literal's fraction length is its minimum of fraction digits.
#[tactic(auto, using(decimals::proofs::Shown::unset_zero, decimals::proofs::Shown::count_back), unfolding(crate::specs::Literal::read_number, crate::specs::Literal::with_fraction, decimals::specs::Decimal::default_options, decimals::specs::Relations::Shown::shown_text, decimals::specs::Relations::Shown::shown_count))]
fn read_number(r: Read) -> Number
    requires { or_zero (told_count r.fraction) < 256 }
    ensures { result ≡ shown (read_number (told_read r)) }
{
    Number {
        negative: r.negative,
        digits: r.digits,
        scale: r.fraction.unwrap_or(0) as u8,
        options: Options {
            minimum_fraction_digits: r.fraction,
            ..Options::default()
        },
    }
}

fn read_from(s: &[u8]) -> Read
    requires { is_number s.now ≡ true }
    ensures { (told_read result ≡ read_from s.now read_start) × (or_zero (told_count result.fraction) < 256) }
{
    let mut r = Read {
        negative: false,
        digits: 0,
        fraction: None,
    };
    for b in s {
        r = read_step(r, *b);
    }
    r
}

// The number that a literal stands for, None for what is none.
#[tactic(auto, unfolding(crate::specs::Relations::Shown::literal_of, crate::specs::Literal::literal))]
pub fn read_literal(s: &[u8]) -> Option<Number>
    ensures { result ≡ literal_of s.now }
{
    if is_number(s) {
        Some(read_number(read_from(s)))
    } else {
        None
    }
}
