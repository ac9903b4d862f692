// One case of each operation on numbers: does the library answer what the Rust answered.
use crate::number_fields::{decimal, kind, minimum, number, options, plain};
use decimals::text::number_text;
use decimals::types::{Kind, Number, Options};
use literals::literal::{is_number, read_literal};
use numbers::equal::same_number;
use numbers::merge::{TooLong, merge_number, merge_text};
use plural::plural::{category, matches_category};
use plural::types::category_number;
use refusals::Refusal;
use vectors::{byte, flag, part, past, past_string, string, tail};

// The same as written: sign, digits and scale, and all ten options.
fn is_written(a: Number, b: Number) -> bool {
    a.negative == b.negative && a.digits == b.digits && a.scale == b.scale && a.options == b.options
}

// A count as the file has it, which stops at 4,294,967,295.
fn stopped(count: Option<u64>) -> Option<u64> {
    count.map(|n| n.min(4294967295))
}

fn all_stopped(o: Options) -> Options {
    Options {
        minimum_integer_digits: stopped(o.minimum_integer_digits),
        minimum_fraction_digits: stopped(o.minimum_fraction_digits),
        maximum_fraction_digits: stopped(o.maximum_fraction_digits),
        minimum_significant_digits: stopped(o.minimum_significant_digits),
        maximum_significant_digits: stopped(o.maximum_significant_digits),
        ..o
    }
}

// Is this a number's text?
fn is_text(n: Number, text: &[u8]) -> bool {
    let t = number_text(n);
    part(&t.bytes, 0, t.len) == text
}

// Str text, Flag accepted, Decimal, Minimum.
pub(crate) fn literal_case(s: &[u8]) -> bool {
    let text = string(s, 1);
    let t = tail(s, past_string(s, 1));
    let accepted = flag(t, 0);
    if is_number(text) != accepted {
        return false;
    }
    match read_literal(text) {
        Some(n) => is_written(n, number(tail(t, 1), Kind::Cardinal)),
        None => !accepted,
    }
}

// Decimal, Minimum, Str text.
pub(crate) fn text_case(s: &[u8]) -> bool {
    is_text(number(tail(s, 1), Kind::Cardinal), string(s, 13))
}

// u8 locale, u8 type, Decimal, Minimum, u8 category.
pub(crate) fn category_case(s: &[u8]) -> bool {
    let c = category(byte(s, 1), number(tail(s, 3), kind(byte(s, 2))));
    category_number(c) == byte(s, 15)
}

// One named option: a string (1) or a number literal.
fn merged(kind: u8, name: &[u8], value: &[u8], o: Options) -> Result<Options, TooLong> {
    if kind == 1 {
        return Ok(merge_text(name, value, o));
    }
    match read_literal(value) {
        Some(n) => merge_number(name, n, o),
        None => Ok(o),
    }
}

// So many named options from a position on, each Str name, u8 kind, Str value: the options with them, and the position past them.
fn merge_all(
    s: &[u8],
    from: usize,
    count: u8,
    options: Options,
) -> Result<(Options, usize), TooLong> {
    let mut o = options;
    let mut at = from;
    for _ in 0..count {
        let kind = past_string(s, at);
        let value = past(s, kind, 1);
        o = merged(byte(s, kind), string(s, at), string(s, value), o)?;
        at = past_string(s, value);
    }
    Ok((o, at))
}

// u8 result, Options, Str text: the number's with these options.
fn is_result(t: &[u8], n: Number, o: Options) -> bool {
    byte(t, 0) == 1
        && all_stopped(o) == options(tail(t, 1))
        && is_text(Number { options: o, ..n }, string(t, 31))
}

// The last byte: the answer, where it is an Error or a refusal.
fn last(s: &[u8]) -> u8 {
    s.last().copied().unwrap_or(0)
}

// NUMBER's answer, where the first value is a number.
fn called(s: &[u8], n: Number) -> bool {
    match merge_all(s, 15, byte(s, 14), n.options) {
        Ok((o, at)) => is_result(tail(s, at), n, o),
        Err(TooLong) => last(s) == Refusal::ManyDigits.number(),
    }
}

// u8 kind of the first value, where it is a number (2) Decimal and Minimum, u8 count of named options.
pub(crate) fn call_case(s: &[u8]) -> bool {
    if byte(s, 1) == 2 {
        return called(s, number(tail(s, 2), Kind::Cardinal));
    }
    last(s) == 0
}

// Twice Decimal and Options, Flag equal.
pub(crate) fn equality_case(s: &[u8]) -> bool {
    let a = decimal(tail(s, 1), options(tail(s, 11)));
    let b = decimal(tail(s, 41), options(tail(s, 51)));
    same_number(a, b) == flag(s, 81)
}

// Str key, u8 locale, Decimal, u8 type, Minimum, Flag matches.
pub(crate) fn match_case(s: &[u8]) -> bool {
    let t = tail(s, past_string(s, 1));
    let n = decimal(tail(t, 1), plain(kind(byte(t, 11)), minimum(t, 12)));
    let c = category(byte(t, 0), n);
    matches_category(string(s, 1), c) == flag(t, 14)
}
