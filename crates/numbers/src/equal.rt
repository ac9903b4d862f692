// Equality of numbers: value and all ten options.
ghost use Rattle.std.specs.Prelude.{◌≡◌};
ghost use Rattle.numbers.specs.Equal.{same_value, same_number};
ghost use Rattle.decimals.specs.Relations.Shown.{told};

use decimals::text::shortest;
use decimals::types::Number;

fn same_value(a: Number, b: Number) -> bool
    ensures { result ≡ same_value (told a) (told b) }
{
    shortest(a.digits, a.scale) == shortest(b.digits, b.scale)
        && (a.digits == 0 || a.negative == b.negative)
}

// Are two numbers equal: in value (-0 equals 0) and in all ten options?
pub fn same_number(a: Number, b: Number) -> bool
    ensures { result ≡ same_number (told a) (told b) }
{
    same_value(a, b) && a.options == b.options
}
