// Plural categories.
ghost use Rattle.std.specs.Prelude.{◌≡◌};
ghost use Rattle.decimals.specs.Bytes.{same_bytes};
ghost use Rattle.plural.specs.Plural.{operands, whole_operands, rule_of, category as categoryOf, category_number, keyword};
ghost use Rattle.decimals.specs.Relations.Shown.{told};
ghost use Rattle.plural.specs.Relations.Shown.{Shows};

use crate::conditions::{Seen, conditions, numbered};
use crate::types::Category;
use categories::digit;
use decimals::bytes::same_bytes;
use decimals::text::{shortest, whole};
use decimals::types::{Kind, Number, kind_number};

fn operands_of(n: Number) -> Seen
    ensures { Shows (operands (told n)) result }
{
    let q = shortest(n.digits, n.scale);
    let no_fraction = q.scale == 0;
    Seen {
        i: whole(q.digits, q.scale),
        no_digits: no_fraction && n.options.minimum_fraction_digits.unwrap_or(0) == 0,
        no_fraction,
    }
}

// The category of a whole number with v = 0 by the written conditions: the program `plural_table` makes its lines by it.
pub fn by_conditions(locale: u8, kind: Kind, n: u64) -> Category
    ensures { category_number result ≡ rule_of kind locale (whole_operands n) }
{
    conditions(
        locale,
        kind,
        Seen {
            i: n,
            no_digits: true,
            no_fraction: true,
        },
    )
}

// The same category, read from the table.
fn by_table(locale: u8, kind: Kind, n: u64) -> Category
    ensures { category_number result ≡ rule_of kind locale (whole_operands n) }
{
    let rule = usize::from(locale) * 2 + usize::from(kind_number(kind));
    numbered(u64::from(digit(rule, n) - b'0'))
}

// The category of a number in a locale: 0 en, 1 da, 2 ru, 3 cy.
pub fn category(locale: u8, n: Number) -> Category
    ensures { category_number result ≡ categoryOf locale (told n) }
{
    let o = operands_of(n);
    if o.no_digits {
        by_table(locale, n.options.kind, o.i)
    } else {
        conditions(locale, n.options.kind, o)
    }
}

// The word of a category.
#[tactic(auto, unfolding(crate::specs::Plural::keyword))]
fn keyword(c: Category) -> &'static [u8]
    ensures { result.now ≡ keyword (category_number c) }
{
    match c {
        Category::Zero => b"zero",
        Category::One => b"one",
        Category::Two => b"two",
        Category::Few => b"few",
        Category::Many => b"many",
        Category::Other => b"other",
    }
}

// Does a word name a category.
pub fn matches_category(word: &[u8], c: Category) -> bool
    ensures { result ≡ same_bytes word.now (keyword (category_number c)) }
{
    same_bytes(word, keyword(c))
}
