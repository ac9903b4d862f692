// Walking over records by the lengths that stand there: past an expression, an element, a pattern. No byte of a text is looked at.
//
// Each function takes every slice whatsoever, and answers where the outline of the record ends. Where a decoder reads the record, it ends there too
// (the laws of proofs/Passing).
//
// The check finds its proofs by itself, over the definitions and the laws that stand in the next line.
#![tactic(auto, using(crate::proofs::Steps::expression_none, crate::proofs::Steps::expression_some, crate::proofs::Steps::many_none, crate::proofs::Steps::many_some, std::proofs::lemmas::Bool::Decides::nat_tests), unfolding(records::specs::Got::after, records::specs::Got::pick, records::specs::Relations::Answer::next_of, records::specs::Relations::Answer::num_of, crate::specs::Outline::sized_at, crate::specs::Outline::pattern_outline, crate::specs::Outline::str_outline, crate::specs::Outline::optional_outline, crate::specs::Outline::named_outline, crate::specs::Outline::variant_outline, crate::specs::Outline::arguments_outline, crate::specs::Outline::rest_outline, crate::specs::Outline::select_outline, crate::specs::Outline::body_outline, crate::specs::Outline::element_outline))]

ghost use Rattle.std.specs.Prelude.{◌≡◌};
ghost use Rattle.records.specs.Relations.Answer.{next_of};
ghost use Rattle.walks.specs.Outline.{sized_at, str_outline, many_outline, optional_outline, named_outline, variant_outline, arguments_outline, rest_outline, expression_outline, element_outline};

use records::{read_byte, read_u16, read_u32, skip_bytes, skip_str};

// Past a pattern, by its length.
pub fn skip_pattern(s: &[u8], at: usize) -> Option<usize>
    ensures { result ≡ next_of (sized_at 4 s.now at) }
{
    let (n, p) = read_u32(s, at)?;
    skip_bytes(s, p, n)
}

// Past a Flag and the Str that it announces.
fn skip_optional(s: &[u8], at: usize) -> Option<usize>
    ensures { result ≡ next_of (optional_outline str_outline s.now at) }
{
    let (flag, e) = read_byte(s, at)?;
    if flag == 0 { Some(e) } else { skip_str(s, e) }
}

// Past a named argument: an Id and a literal.
fn skip_name(s: &[u8], at: usize) -> Option<usize>
    ensures { result ≡ next_of (named_outline s.now at) }
{
    let p = skip_str(s, at)?;
    let (_, q) = read_byte(s, p)?;
    skip_str(s, q)
}

// Past `count` named arguments.
fn skip_named(s: &[u8], from: usize, count: usize) -> Option<usize>
    ensures { result ≡ next_of (many_outline count named_outline s.now from) }
{
    let mut at = from;
    for _ in 0..count {
        at = skip_name(s, at)?;
    }
    Some(at)
}

// Past a variant: a key kind, a key, a Flag and a pattern.
fn skip_variant(s: &[u8], at: usize) -> Option<usize>
    ensures { result ≡ next_of (variant_outline s.now at) }
{
    let (_, p) = read_byte(s, at)?;
    let q = skip_str(s, p)?;
    let (_, e) = read_byte(s, q)?;
    skip_pattern(s, e)
}

// Past `count` variants.
fn skip_variants(s: &[u8], from: usize, count: usize) -> Option<usize>
    ensures { result ≡ next_of (many_outline count variant_outline s.now from) }
{
    let mut at = from;
    for _ in 0..count {
        at = skip_variant(s, at)?;
    }
    Some(at)
}

// Past an expression that nests at most `left` deep.
#[cycle(skip)]
pub fn skip_expression(s: &[u8], at: usize, left: usize) -> Option<usize>
    ensures { result ≡ next_of (expression_outline left s.now at) }
{
    if left == 0 {
        return None;
    }
    let (tag, p) = read_byte(s, at)?;
    match tag {
        7 => skip_expression(s, p, left - 1),
        8 => {
            let q = skip_expression(s, p, left - 1)?;
            let (k, e) = read_u16(s, q)?;
            skip_variants(s, e, k)
        }
        _ => {
            let q = skip_str(s, p)?;
            skip_rest(s, tag, q, left - 1)
        }
    }
}

// Past what follows the Str of an expression with this tag.
#[cycle(skip)]
fn skip_rest(s: &[u8], tag: usize, at: usize, left: usize) -> Option<usize>
    ensures { result ≡ next_of (rest_outline (expression_outline left) tag s.now at) }
{
    match tag {
        3 => skip_arguments(s, at, left),
        4 => skip_optional(s, at),
        5 => {
            let e = skip_optional(s, at)?;
            skip_term_arguments(s, e, left)
        }
        _ => Some(at),
    }
}

// Past the arguments of a term reference, if it has any.
#[cycle(skip)]
fn skip_term_arguments(s: &[u8], at: usize, left: usize) -> Option<usize>
    ensures { result ≡ next_of (optional_outline (arguments_outline (expression_outline left)) s.now at) }
{
    let (flag, e) = read_byte(s, at)?;
    if flag == 0 {
        Some(e)
    } else {
        skip_arguments(s, e, left)
    }
}

// Past the arguments of a call.
#[cycle(skip)]
fn skip_arguments(s: &[u8], at: usize, left: usize) -> Option<usize>
    ensures { result ≡ next_of (arguments_outline (expression_outline left) s.now at) }
{
    let (n, p) = read_u16(s, at)?;
    let q = skip_inlines(s, p, n, left)?;
    let (m, e) = read_u16(s, q)?;
    skip_named(s, e, m)
}

// Past `count` inline expressions.
#[cycle(skip)]
fn skip_inlines(s: &[u8], from: usize, count: usize, left: usize) -> Option<usize>
    ensures { result ≡ next_of (many_outline count (expression_outline left) s.now from) }
{
    let mut at = from;
    for _ in 0..count {
        at = skip_expression(s, at, left)?;
    }
    Some(at)
}

// Past an element.
pub fn skip_element(s: &[u8], at: usize, left: usize) -> Option<usize>
    ensures { result ≡ next_of (element_outline left s.now at) }
{
    let (kind, p) = read_byte(s, at)?;
    if kind == 1 {
        skip_str(s, p)
    } else {
        skip_expression(s, p, left)
    }
}
