// The types of the number layer. All are plain data, passed by value.
ghost use Rattle.std.specs.Prelude.{◌≡◌};
ghost use Rattle.decimals.specs.Decimal.{kind_number, default_options};
ghost use Rattle.decimals.specs.Relations.Shown.{shown_options};

// The digits of a number in range are below this, its scale is at most SCALE_LIMIT.
pub const DIGITS_LIMIT: u64 = 1000000000000000;

pub const SCALE_LIMIT: u8 = 14;

// The most fraction digits that may be asked for.
pub const FRACTION_LIMIT: u64 = 19;

// The Rust's FluentNumberType.
#[derive(Clone, Copy, PartialEq, Eq)]
pub enum Kind {
    Cardinal,
    Ordinal,
}

// The Rust's FluentNumberStyle.
#[derive(Clone, Copy, PartialEq, Eq)]
pub enum Style {
    Decimal,
    Currency,
    Percent,
}

// The Rust's FluentNumberCurrencyDisplayStyle.
#[derive(Clone, Copy, PartialEq, Eq)]
pub enum Display {
    Symbol,
    Code,
    Name,
}

// The ten options, in the Rust's order. Of the currency only whether it is set; a digit count may be unset.
#[derive(Clone, Copy, PartialEq, Eq)]
pub struct Options {
    pub kind: Kind,
    pub style: Style,
    pub currency: bool,
    pub currency_display: Display,
    pub use_grouping: bool,
    pub minimum_integer_digits: Option<u64>,
    pub minimum_fraction_digits: Option<u64>,
    pub maximum_fraction_digits: Option<u64>,
    pub minimum_significant_digits: Option<u64>,
    pub maximum_significant_digits: Option<u64>,
}

// The digits over 10^scale, with a sign and options.
#[derive(Clone, Copy)]
pub struct Number {
    pub negative: bool,
    pub digits: u64,
    pub scale: u8,
    pub options: Options,
}

// A number's text: its first `len` bytes.
#[derive(Clone, Copy)]
pub struct NumberText {
    pub bytes: [u8; 36],
    pub len: usize,
}

// Options with no named option: the Rust's Default.
impl Default for Options {
    ghost is_default = { λ o. o ≡ shown_options default_options };

    #[tactic(auto, unfolding(crate::specs::Decimal::default_options, crate::specs::Relations::Shown::shown_text, crate::specs::Relations::Shown::shown_count))]
    fn default() -> Options {
        Options {
            kind: Kind::Cardinal,
            style: Style::Decimal,
            currency: false,
            currency_display: Display::Symbol,
            use_grouping: true,
            minimum_integer_digits: None,
            minimum_fraction_digits: None,
            maximum_fraction_digits: None,
            minimum_significant_digits: None,
            maximum_significant_digits: None,
        }
    }
}

// A kind as a number: cardinal 0, ordinal 1.
pub fn kind_number(k: Kind) -> u8
    ensures { result ≡ kind_number k }
{
    k as u8
}
