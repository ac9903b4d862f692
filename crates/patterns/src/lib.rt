// The checks of patterns and expressions, and of what they hold: one cycle of calls.
//
// The check finds most of its proof by itself, over the definitions and the laws that stand in the next line.
#![tactic(auto, using(std::proofs::lemmas::Bool::Decides::nat_tests, crate::proofs::Steps::expression_none, crate::proofs::Steps::expression_some, crate::proofs::Steps::inline_none, crate::proofs::Steps::inline_some), unfolding(records::specs::Got::after, records::specs::Got::test, records::specs::Got::pick, records::specs::Relations::Answer::next_of, records::specs::Relations::Answer::num_of, records::specs::Relations::Rule::rule_of, records::specs::Decode::arguments_at, records::specs::Decode::inline_body, records::specs::Decode::literal_number_at, records::specs::Decode::string_at, records::specs::Decode::element_at, records::specs::Decode::text_read_at, records::specs::Decode::pattern_at, records::specs::Decode::select_at, records::specs::Decode::term_reference_at, records::specs::Decode::variant_at, records::specs::Decode::expr_at, records::specs::Decode::inline_at, records::specs::Decode::term_arguments_at, records::specs::Decode::optional_at))]

ghost use Rattle.std.specs.Prelude.{◌≡◌};
ghost use Rattle.records.specs.Relations.Answer.{next_of};
ghost use Rattle.records.specs.Tree.{no_variant, or};
ghost use Rattle.records.specs.Decode.{many, element_at, elements_at, pattern_at, variant_at, inlines_at, arguments_at, term_reference_at, select_at, inline_body, expression, inline};

use records::{
    Rule, check_flag, check_id, check_key, check_named_arguments, check_optional_id, check_ruled,
    ends_at, read_byte, read_u16, read_u32,
};

// A pattern: u32 length of the rest, u16 element count, elements. `depth` is what is left of the nesting.
//
// The check is one pass. A byte of a text, an Id or a number literal is visited once by its rule, a byte of a string literal twice, and every
// other byte once as a tag, a Flag, a count or a length. Only the names of the named arguments of a call are visited again: they are compared
// pairwise (check_named_arguments).
#[cycle(check)]
pub fn check_pattern(s: &[u8], at: usize, depth: usize) -> Option<usize>
    ensures { result ≡ next_of (pattern_at (expression depth) s.now at) }
{
    let (n, p) = read_u32(s, at)?;
    let (k, q) = read_u16(s, p)?;
    if k == 0 {
        return None;
    }
    let f = check_elements(s, q, k, depth)?;
    ends_at(p, n, f)
}

// `count` elements of a pattern.
#[cycle(check)]
fn check_elements(s: &[u8], from: usize, count: usize, depth: usize) -> Option<usize>
    ensures { result ≡ next_of (elements_at (expression depth) count s.now from) }
{
    let mut at = from;
    for _ in 0..count {
        at = check_element(s, at, depth)?;
    }
    Some(at)
}

#[cycle(check)]
fn check_element(s: &[u8], at: usize, depth: usize) -> Option<usize>
    ensures { result ≡ next_of (element_at (expression depth) s.now at) }
{
    let (tag, e) = read_byte(s, at)?;
    match tag {
        1 => check_ruled(s, e, Rule::Text),
        2 => check_expression(s, e, depth),
        _ => None,
    }
}

#[cycle(check)]
pub(crate) fn check_expression(s: &[u8], at: usize, depth: usize) -> Option<usize>
    ensures { result ≡ next_of (expression depth s.now at) }
{
    if depth == 0 {
        return None;
    }
    let (tag, p) = read_byte(s, at)?;
    if tag == 8 {
        check_select(s, p, depth - 1)
    } else {
        check_body(s, p, tag, depth - 1)
    }
}

#[cycle(check)]
pub(crate) fn check_inline(s: &[u8], at: usize, depth: usize) -> Option<usize>
    ensures { result ≡ next_of (inline depth s.now at) }
{
    if depth == 0 {
        return None;
    }
    let (tag, p) = read_byte(s, at)?;
    check_body(s, p, tag, depth - 1)
}

// What follows the tag of an inline expression. `depth` is what is left below it.
#[cycle(check)]
fn check_body(s: &[u8], at: usize, tag: usize, depth: usize) -> Option<usize>
    ensures { result ≡ next_of (inline_body (expression depth) (inline depth) tag s.now at) }
{
    match tag {
        1 => check_ruled(s, at, Rule::String),
        2 => check_ruled(s, at, Rule::Number),
        3 => {
            let q = check_id(s, at)?;
            check_arguments(s, q, depth)
        }
        4 => {
            let q = check_id(s, at)?;
            check_optional_id(s, q)
        }
        5 => check_term(s, at, depth),
        6 => check_id(s, at),
        7 => check_expression(s, at, depth),
        _ => None,
    }
}

// What follows the tag of a term reference.
#[cycle(check)]
fn check_term(s: &[u8], at: usize, depth: usize) -> Option<usize>
    ensures { result ≡ next_of (term_reference_at (inline depth) s.now at) }
{
    let p = check_id(s, at)?;
    let q = check_optional_id(s, p)?;
    let (flag, e) = read_byte(s, q)?;
    match flag {
        0 => Some(e),
        1 => check_arguments(s, e, depth),
        _ => None,
    }
}

// The arguments of a call.
#[cycle(check)]
fn check_arguments(s: &[u8], at: usize, depth: usize) -> Option<usize>
    ensures { result ≡ next_of (arguments_at (inline depth) s.now at) }
{
    let (n, p) = read_u16(s, at)?;
    let q = check_inlines(s, p, n, depth)?;
    let (m, r) = read_u16(s, q)?;
    check_named_arguments(s, r, m)
}

// `count` inline expressions.
#[cycle(check)]
fn check_inlines(s: &[u8], from: usize, count: usize, depth: usize) -> Option<usize>
    ensures { result ≡ next_of (inlines_at (inline depth) count s.now from) }
{
    let mut at = from;
    for _ in 0..count {
        at = check_inline(s, at, depth)?;
    }
    Some(at)
}

// What follows the tag of a select expression.
#[cycle(check)]
fn check_select(s: &[u8], at: usize, depth: usize) -> Option<usize>
    ensures { result ≡ next_of (select_at (expression depth) (inline depth) s.now at) }
{
    let p = check_inline(s, at, depth)?;
    let (k, q) = read_u16(s, p)?;
    if 0 < k {
        check_variants(s, q, k, depth)
    } else {
        None
    }
}

// `count` variants.
#[cycle(check)]
fn check_variants(s: &[u8], from: usize, count: usize, depth: usize) -> Option<usize>
    ensures { result ≡ next_of (many no_variant or count (variant_at (expression depth)) s.now from) }
{
    let mut at = from;
    for _ in 0..count {
        at = check_variant(s, at, depth)?;
    }
    Some(at)
}

#[cycle(check)]
fn check_variant(s: &[u8], at: usize, depth: usize) -> Option<usize>
    ensures { result ≡ next_of (variant_at (expression depth) s.now at) }
{
    let p = check_key(s, at)?;
    let q = check_flag(s, p)?;
    check_pattern(s, q, depth)
}
