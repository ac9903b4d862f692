// The plural categories.
ghost use Rattle.std.specs.Prelude.{◌≡◌};
ghost use Rattle.plural.specs.Plural.{category_number};

// A plural category.
#[derive(Clone, Copy, PartialEq, Eq)]
pub enum Category {
    Zero,
    One,
    Two,
    Few,
    Many,
    Other,
}

// A category as a number: zero 0, one 1, two 2, few 3, many 4, other 5.
pub fn category_number(c: Category) -> u8
    ensures { result ≡ category_number c }
{
    c as u8
}
