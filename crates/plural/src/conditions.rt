// The written conditions of plural categories.
ghost use Rattle.std.specs.Prelude.{◌≡◌, ◌≤◌};
ghost use Rattle.plural.specs.Plural.{Operands, en_cardinal, da_cardinal, ru_whole, ru_cardinal, cy_whole, cy_cardinal, en_place, en_ordinal, cy_place, cy_ordinal, rule_of, category_number};
ghost use Rattle.plural.specs.Relations.Shown.{Shows};

use crate::types::Category;
use decimals::types::Kind;

// i whole part; v whether no fraction digit is shown; t whether there is no fraction.
#[derive(Clone, Copy)]
pub struct Seen {
    pub i: u64,
    pub no_digits: bool,
    pub no_fraction: bool,
}

#[tactic(auto, using(std::proofs::lemmas::Bool::Decides::nat_tests), unfolding(crate::specs::Plural::en_cardinal))]
fn en_cardinal(o: Seen) -> Category
    ensures { (x : Operands) → Shows x o → category_number result ≡ en_cardinal x }
{
    if o.i == 1 && o.no_digits {
        Category::One
    } else {
        Category::Other
    }
}

#[tactic(auto, using(std::proofs::lemmas::Bool::Decides::nat_tests), unfolding(crate::specs::Plural::da_cardinal))]
fn da_cardinal(o: Seen) -> Category
    ensures { (x : Operands) → Shows x o → category_number result ≡ da_cardinal x }
{
    match o.i {
        1 => Category::One,
        0 if !o.no_fraction => Category::One,
        _ => Category::Other,
    }
}

#[tactic(auto, using(std::proofs::lemmas::Bool::Decides::nat_tests), unfolding(crate::specs::Plural::ru_whole))]
fn ru_whole(ten: u64, hundred: u64) -> Category
    ensures { category_number result ≡ ru_whole ten hundred }
{
    match ten {
        1 if hundred != 11 => Category::One,
        2..=4 if !matches!(hundred, 12..=14) => Category::Few,
        _ => Category::Many,
    }
}

#[tactic(auto, using(std::proofs::lemmas::Bool::Decides::nat_tests), unfolding(crate::specs::Plural::ru_cardinal))]
fn ru_cardinal(o: Seen) -> Category
    ensures { (x : Operands) → Shows x o → category_number result ≡ ru_cardinal x }
{
    if o.no_digits {
        ru_whole(o.i % 10, o.i % 100)
    } else {
        Category::Other
    }
}

// The category of a number up to 5.
pub fn numbered(n: u64) -> Category
    requires { n ≤ 5 }
    ensures { category_number result ≡ n }
{
    match n {
        0 => Category::Zero,
        1 => Category::One,
        2 => Category::Two,
        3 => Category::Few,
        4 => Category::Many,
        _ => Category::Other,
    }
}

#[tactic(auto, using(std::proofs::lemmas::Bool::Decides::nat_tests), unfolding(crate::specs::Plural::cy_whole))]
fn cy_whole(n: u64) -> Category
    ensures { category_number result ≡ cy_whole n }
{
    match n {
        0..=3 => numbered(n),
        6 => Category::Many,
        _ => Category::Other,
    }
}

#[tactic(auto, using(std::proofs::lemmas::Bool::Decides::nat_tests), unfolding(crate::specs::Plural::cy_cardinal))]
fn cy_cardinal(o: Seen) -> Category
    ensures { (x : Operands) → Shows x o → category_number result ≡ cy_cardinal x }
{
    if o.no_fraction {
        cy_whole(o.i)
    } else {
        Category::Other
    }
}

#[tactic(auto, using(std::proofs::lemmas::Bool::Decides::nat_tests), unfolding(crate::specs::Plural::en_place))]
fn en_place(ten: u64, hundred: u64) -> Category
    ensures { category_number result ≡ en_place ten hundred }
{
    match ten {
        1..=3 if !matches!(hundred, 11..=13) => numbered(ten),
        _ => Category::Other,
    }
}

#[tactic(auto, using(std::proofs::lemmas::Bool::Decides::nat_tests), unfolding(crate::specs::Plural::en_ordinal))]
fn en_ordinal(o: Seen) -> Category
    ensures { (x : Operands) → Shows x o → category_number result ≡ en_ordinal x }
{
    if o.no_fraction {
        en_place(o.i % 10, o.i % 100)
    } else {
        Category::Other
    }
}

#[tactic(auto, using(std::proofs::lemmas::Bool::Decides::nat_tests), unfolding(crate::specs::Plural::cy_place))]
fn cy_place(n: u64) -> Category
    ensures { category_number result ≡ cy_place n }
{
    match n {
        0 | 7..=9 => Category::Zero,
        1 | 2 => numbered(n),
        3 | 4 => Category::Few,
        5 | 6 => Category::Many,
        _ => Category::Other,
    }
}

#[tactic(auto, using(std::proofs::lemmas::Bool::Decides::nat_tests), unfolding(crate::specs::Plural::cy_ordinal))]
fn cy_ordinal(o: Seen) -> Category
    ensures { (x : Operands) → Shows x o → category_number result ≡ cy_ordinal x }
{
    if o.no_fraction {
        cy_place(o.i)
    } else {
        Category::Other
    }
}

// The category by the rule of a kind in a locale: 0 en, 1 da, 2 ru, 3 cy.
#[tactic(auto, using(std::proofs::lemmas::Bool::Decides::nat_tests), unfolding(crate::specs::Plural::rule_of))]
pub fn conditions(locale: u8, kind: Kind, o: Seen) -> Category
    ensures { (x : Operands) → Shows x o → category_number result ≡ rule_of kind locale x }
{
    match (kind, locale) {
        (Kind::Cardinal, 0) => en_cardinal(o),
        (Kind::Cardinal, 1) => da_cardinal(o),
        (Kind::Cardinal, 2) => ru_cardinal(o),
        (Kind::Cardinal, 3) => cy_cardinal(o),
        (Kind::Ordinal, 0) => en_ordinal(o),
        (Kind::Ordinal, 3) => cy_ordinal(o),
        _ => Category::Other,
    }
}
