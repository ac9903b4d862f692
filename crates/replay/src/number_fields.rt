// Numbers and options in a case.
use decimals::types::{Display, Kind, Number, Options, Style};
use vectors::{byte, flag, past, tail, u32_at, u64_at};

pub(crate) fn kind(b: u8) -> Kind {
    match b {
        0 => Kind::Cardinal,
        _ => Kind::Ordinal,
    }
}

fn style(b: u8) -> Style {
    match b {
        0 => Style::Decimal,
        1 => Style::Currency,
        _ => Style::Percent,
    }
}

fn display(b: u8) -> Display {
    match b {
        0 => Display::Symbol,
        1 => Display::Code,
        _ => Display::Name,
    }
}

// Flag set, u32 count.
fn count(s: &[u8], at: usize) -> Option<u64> {
    flag(s, at).then_some(u32_at(s, past(s, at, 1)))
}

// Flag set, u8 count.
pub(crate) fn minimum(s: &[u8], at: usize) -> Option<u64> {
    flag(s, at).then_some(u64::from(byte(s, past(s, at, 1))))
}

// 30 bytes.
pub(crate) fn options(s: &[u8]) -> Options {
    Options {
        kind: kind(byte(s, 0)),
        style: style(byte(s, 1)),
        currency: flag(s, 2),
        currency_display: display(byte(s, 3)),
        use_grouping: flag(s, 4),
        minimum_integer_digits: count(s, 5),
        minimum_fraction_digits: count(s, 10),
        maximum_fraction_digits: count(s, 15),
        minimum_significant_digits: count(s, 20),
        maximum_significant_digits: count(s, 25),
    }
}

// Options of a kind and a minimum, the others not set.
pub(crate) fn plain(kind: Kind, minimum: Option<u64>) -> Options {
    Options {
        kind,
        minimum_fraction_digits: minimum,
        ..Options::default()
    }
}

// A Decimal, 10 bytes: Flag, u64 digits, u8 scale.
pub(crate) fn decimal(s: &[u8], options: Options) -> Number {
    Number {
        negative: flag(s, 0),
        digits: u64_at(s, 1),
        scale: byte(s, 9),
        options,
    }
}

// A Decimal and a Minimum.
pub(crate) fn number(s: &[u8], kind: Kind) -> Number {
    decimal(s, plain(kind, minimum(s, 10)))
}
