// A number's text.
ghost use Rattle.std.specs.Prelude.{◌≡◌, ◌+◌, ◌/◌, ◌^◌, ◌≤◌, ◌<◌, [], ◌∷◌, length, replicate};
ghost use Rattle.decimals.specs.Decimal.{shortest as shortestOf, or_zero};
ghost use Rattle.decimals.specs.Text.{digits_of, decimal, sign_text, fraction_text, text_limit, in_range, ranged_text};
ghost use Rattle.decimals.specs.Relations.Shown.{told, told_count, held_text};
ghost use Rattle.decimals.specs.Relations.Adds.{Adds};

use crate::types::{DIGITS_LIMIT, FRACTION_LIMIT, Number, NumberText, Options, SCALE_LIMIT};

// A decimal without sign and options.
#[derive(Clone, Copy, PartialEq, Eq)]
pub struct Decimal {
    pub digits: u64,
    pub scale: u8,
}

// The shortest decimal of a value.
pub fn shortest(digits: u64, scale: u8) -> Decimal
    ensures { shortestOf digits scale ≡ (result.digits, result.scale) }
{
    let mut d = digits;
    let mut s = scale;
    while 0 < s && d % 10 == 0 {
        d /= 10;
        s -= 1;
    }
    Decimal {
        digits: d,
        scale: s,
    }
}

// The whole part of a decimal.
pub fn whole(digits: u64, scale: u8) -> u64
    ensures { result ≡ digits / 10 ^ scale }
{
    match 10u64.checked_pow(u32::from(scale)) {
        Some(power) => digits / power,
        None => 0,
    }
}

// A text with a byte added.
fn push(mut t: NumberText, b: u8) -> NumberText
    requires { t.len < text_limit }
    ensures { Adds t (b ∷ []) result }
{
    t.bytes[t.len] = b;
    t.len += 1;
    t
}

// A text with the lowest w digits of n added.
fn push_digits(t: NumberText, w: u64, n: u64) -> NumberText
    requires { t.len + w ≤ text_limit }
    ensures { Adds t (digits_of w n) result }
{
    if w == 0 {
        return t;
    }
    let u = push_digits(t, w - 1, n / 10);
    push(u, 48 + ((n % 10) as u8))
}

// A text with a whole number added.
fn push_whole(t: NumberText, n: u64) -> NumberText
    requires { t.len + length (decimal n) ≤ text_limit }
    ensures { Adds t (decimal n) result }
{
    if n < 10 {
        return push(t, 48 + (n as u8));
    }
    let u = push_whole(t, n / 10);
    push(u, 48 + ((n % 10) as u8))
}

// A text with n zeros added.
fn push_zeros(t: NumberText, n: u64) -> NumberText
    requires { t.len + n ≤ text_limit }
    ensures { Adds t (replicate n 48) result }
{
    if n == 0 {
        return t;
    }
    push_zeros(push(t, 48), n - 1)
}

#[tactic(auto, using(crate::proofs::Writing::adds_none), unfolding(crate::specs::Text::sign_text))]
fn push_sign(t: NumberText, negative: bool) -> NumberText
    requires { t.len < text_limit }
    ensures { Adds t (sign_text negative) result }
{
    if negative {
        return push(t, 45);
    }
    t
}

// A text with a fraction added: a dot, s digits, and zeros up to the minimum; nothing where there are no digits.
fn push_fraction(t: NumberText, m: Option<u64>, d: u64, s: u64) -> NumberText
    requires { t.len + length (fraction_text (told_count m) d s) ≤ text_limit }
    ensures { Adds t (fraction_text (told_count m) d s) result }
{
    let k = m.unwrap_or(0);
    if k <= s {
        if s == 0 {
            return t;
        }
        return push_digits(push(t, 46), s, d);
    }
    push_zeros(push_digits(push(t, 46), s, d), k - s)
}

#[tactic(auto, unfolding(crate::specs::Text::padded))]
fn empty() -> NumberText
    ensures { result ≡ held_text [] }
{
    NumberText {
        bytes: [0u8; 36],
        len: 0,
    }
}

#[tactic(auto, using(crate::proofs::Shown::unset_zero, std::proofs::lemmas::Bool::Decides::nat_tests), unfolding(crate::specs::Text::in_range))]
fn in_range(n: Number) -> bool
    ensures { result ≡ in_range (told n) }
{
    n.digits < DIGITS_LIMIT
        && n.scale <= SCALE_LIMIT
        && n.options.minimum_fraction_digits.unwrap_or(0) <= FRACTION_LIMIT
}

// The text of a number in range, no bytes for any other; behind it zeros.
pub fn number_text(n: Number) -> NumberText
    ensures { result ≡ held_text (ranged_text (told n)) }
{
    if in_range(n) {
        let q = shortest(n.digits, n.scale);
        let t = push_sign(empty(), n.negative);
        let u = push_whole(t, whole(q.digits, q.scale));
        return push_fraction(
            u,
            n.options.minimum_fraction_digits,
            q.digits,
            q.scale as u64,
        );
    }
    empty()
}
