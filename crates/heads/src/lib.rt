// What the first bytes of a record say of it: a store's locale byte and isolating Flag, an expression's tag.
//
// Each function takes every slice whatsoever: a byte that is not there counts as 0. What the bytes say of a store or an expression that decodes is in
// the laws of proofs/Heads.
#![tactic(auto)]

ghost use Rattle.std.specs.Prelude.{◌≡◌, get_or};
ghost use Rattle.heads.specs.Header.{locale_byte, isolated};
ghost use Rattle.heads.specs.Tags.{text_tag, bare_at, marks_at};

// The byte at a position; 0 past the end.
fn byte_of(s: &[u8], at: usize) -> u8
    ensures { result ≡ get_or s.now at 0 }
{
    s.get(at).copied().unwrap_or(0)
}

// Is what stands at `at` written without isolating marks: a direct message, term or string literal?
#[tactic(auto, using(std::proofs::lemmas::Bool::Decides::nat_tests), unfolding(crate::specs::Tags::bare_at, crate::specs::Tags::bare_tag))]
fn is_bare(s: &[u8], at: usize) -> bool
    ensures { result ≡ bare_at s.now at }
{
    matches!(byte_of(s, at), 1 | 4 | 5)
}

// Has the placeable at `at` isolating marks?
#[tactic(auto, using(std::proofs::lemmas::Bool::Decides::nat_tests), unfolding(crate::specs::Tags::marks_at))]
pub fn has_marks(s: &[u8], iso: bool, at: usize) -> bool
    ensures { result ≡ marks_at s.now iso at }
{
    iso && !is_bare(s, at)
}

// Are the placeables of a pattern of n elements isolated?
#[tactic(auto, using(std::proofs::lemmas::Bool::Decides::nat_tests), unfolding(crate::specs::Header::isolated))]
pub fn isolates(s: &[u8], n: usize) -> bool
    ensures { result ≡ isolated s.now n }
{
    1 < n && byte_of(s, 6) == 1
}

// The locale byte of a store; 0 in a slice too short for it.
#[tactic(auto, unfolding(crate::specs::Header::locale_byte))]
pub fn locale_of(s: &[u8]) -> u8
    ensures { result ≡ locale_byte s.now }
{
    byte_of(s, 5)
}

// Is the value of an inline expression with this tag a text of its own: a message, a term or an inline placeable?
#[tactic(auto, using(std::proofs::lemmas::Bool::Decides::nat_tests), unfolding(crate::specs::Tags::text_tag))]
pub fn gives_text(tag: usize) -> bool
    ensures { result ≡ text_tag tag }
{
    matches!(tag, 4 | 5 | 7)
}
