// NUMBER's named options.
ghost use Rattle.std.specs.Prelude.{◌≡◌, ◌&&◌, [], eqb, ltb};
ghost use Rattle.decimals.specs.Decimal.{fraction_limit};
ghost use Rattle.numbers.specs.Value.{numeric, kind_of, style_of, display_of, to_count, merge_text};
ghost use Rattle.numbers.specs.Relations.Places.{place_from, text_names, count_names, set_count};
ghost use Rattle.decimals.specs.Relations.Shown.{told, told_options, shown_options};
ghost use Rattle.numbers.specs.Relations.Shown.{merged_of};

use decimals::bytes::same_bytes;
use decimals::text::whole;
use decimals::types::{Display, FRACTION_LIMIT, Kind, Number, Options, Style};

// The error of a merged minimumFractionDigits above the limit.
#[derive(Clone, Copy, Debug, PartialEq, Eq)]
pub struct TooLong;

#[tactic(auto, unfolding(crate::specs::Value::kind_of))]
fn kind_of(s: &[u8]) -> Kind
    ensures { result ≡ kind_of s.now }
{
    if same_bytes(s, b"ordinal") {
        Kind::Ordinal
    } else {
        Kind::Cardinal
    }
}

#[tactic(auto, unfolding(crate::specs::Value::style_of))]
fn style_of(s: &[u8]) -> Style
    ensures { result ≡ style_of s.now }
{
    if same_bytes(s, b"currency") {
        Style::Currency
    } else if same_bytes(s, b"percent") {
        Style::Percent
    } else {
        Style::Decimal
    }
}

#[tactic(auto, unfolding(crate::specs::Value::display_of))]
fn display_of(s: &[u8]) -> Display
    ensures { result ≡ display_of s.now }
{
    if same_bytes(s, b"code") {
        Display::Code
    } else if same_bytes(s, b"name") {
        Display::Name
    } else {
        Display::Symbol
    }
}

// The place of a name among those of the options whose value is text, from 0; 5 where it is none of them.
#[tactic(auto, unfolding(crate::specs::Relations::Places::place_from))]
fn text_place(name: &[u8]) -> usize
    ensures { result ≡ place_from name.now [] text_names }
{
    if same_bytes(name, b"type") {
        0
    } else if same_bytes(name, b"style") {
        1
    } else if same_bytes(name, b"currency") {
        2
    } else if same_bytes(name, b"currencyDisplay") {
        3
    } else if same_bytes(name, b"useGrouping") {
        4
    } else {
        5
    }
}

// Options with one named option merged, whose value is text.
#[tactic(auto, using(crate::proofs::Places::text_place, crate::proofs::Places::merge_past, decimals::proofs::Shown::count_back, decimals::proofs::Shown::text_back), unfolding(crate::specs::Relations::Places::merge_at, crate::specs::Value::with_kind, crate::specs::Value::with_style, crate::specs::Value::with_currency, crate::specs::Value::with_currency_display, crate::specs::Value::with_use_grouping, decimals::specs::Relations::Shown::shown_text))]
pub fn merge_text(name: &[u8], value: &[u8], o: Options) -> Options
    ensures { result ≡ shown_options (merge_text name.now value.now (told_options o)) }
{
    match text_place(name) {
        0 => Options {
            kind: kind_of(value),
            ..o
        },
        1 => Options {
            style: style_of(value),
            ..o
        },
        2 => Options {
            currency: true,
            ..o
        },
        3 => Options {
            currency_display: display_of(value),
            ..o
        },
        4 => Options {
            use_grouping: !same_bytes(value, b"false"),
            ..o
        },
        _ => o,
    }
}

// A number as a digit count: its fraction is dropped, and a negative one becomes 0.
#[tactic(auto, unfolding(crate::specs::Value::to_count))]
fn to_count(n: Number) -> u64
    ensures { result ≡ to_count (told n) }
{
    if n.negative {
        0
    } else {
        whole(n.digits, n.scale)
    }
}

// The place of a name among those of the digit counts, from 0; 5 where it is none of them.
#[tactic(auto, unfolding(crate::specs::Relations::Places::place_from))]
fn count_place(name: &[u8]) -> usize
    ensures { result ≡ place_from name.now [] count_names }
{
    if same_bytes(name, b"minimumIntegerDigits") {
        0
    } else if same_bytes(name, b"minimumFractionDigits") {
        1
    } else if same_bytes(name, b"maximumFractionDigits") {
        2
    } else if same_bytes(name, b"minimumSignificantDigits") {
        3
    } else if same_bytes(name, b"maximumSignificantDigits") {
        4
    } else {
        5
    }
}

// Options with the digit count at a place set.
#[tactic(auto, unfolding(crate::specs::Relations::Places::set_count))]
fn with_count(o: Options, at: usize, count: u64) -> Options
    ensures { result ≡ set_count at count o }
{
    match at {
        0 => Options {
            minimum_integer_digits: Some(count),
            ..o
        },
        1 => Options {
            minimum_fraction_digits: Some(count),
            ..o
        },
        2 => Options {
            maximum_fraction_digits: Some(count),
            ..o
        },
        3 => Options {
            minimum_significant_digits: Some(count),
            ..o
        },
        4 => Options {
            maximum_significant_digits: Some(count),
            ..o
        },
        _ => o,
    }
}

// Is a digit count at a place above its limit? Only the minimum of fraction digits, the second of them, has one.
fn too_long(at: usize, count: u64) -> bool
    ensures { result ≡ (eqb at 1 && ltb fraction_limit count) }
{
    at == 1 && FRACTION_LIMIT < count
}

// Options with one named option merged, whose value is a number.
pub fn merge_number(name: &[u8], value: Number, o: Options) -> Result<Options, TooLong>
    ensures { result ≡ merged_of name.now (numeric (told value)) (told_options o) }
{
    let at = count_place(name);
    let count = to_count(value);
    if too_long(at, count) {
        return Err(TooLong);
    }
    Ok(with_count(o, at, count))
}
