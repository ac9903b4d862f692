// Choosing a variant, on any bytes: the first whose key matches a value, or else the first default, among the variants that can be read.
#![tactic(auto)]

ghost use Rattle.std.specs.Prelude.{◌≡◌, ◌&&◌, ℕ, ◌-◌, ◌≤◌, length, eqb};
ghost use Rattle.decimals.specs.Relations.Shown.{told};
ghost use Rattle.numbers.specs.Value.{textual, numeric};
ghost use Rattle.records.specs.Bytes.{part};
ghost use Rattle.variants.specs.Outline.{variants_at};
ghost use Rattle.records.specs.Optional.{or_else};
ghost use Rattle.variants.specs.Choice.{first_of, is_default, chosen_at};
ghost use Rattle.variants.specs.Relations.Sought.{place_of, pattern_place, Reads, equals, kinds_of, matches_by, answers, pattern_at_place, Sees, Chooses};

use decimals::bytes::same_bytes;
use decimals::types::Number;
use literals::literal::read_literal;
use numbers::equal::same_number;
use plural::plural::{category, matches_category};
use plural::types::Category;
use records::{read_byte, read_str, read_u16};
use walks::skip_pattern;

// A value as keys are compared to it: a text, whose bytes are lent beside it, or a number and its category.
#[derive(Clone, Copy)]
enum Sought {
    Text,
    Number(Number, Category),
}

// A value before its category is known: a text, or a number and the locale.
#[derive(Clone, Copy)]
enum Asked {
    Text,
    Number(Number, u8),
}

// A variant by its positions: the key's kind, where the key begins and ends, the default Flag, where the pattern begins and ends.
#[derive(Clone, Copy)]
struct Span {
    kind: usize,
    from: usize,
    to: usize,
    flag: usize,
    pattern: usize,
    end: usize,
}

// Reads the variant at `at`.
fn read_variant(s: &[u8], at: usize) -> Option<Span>
    ensures { Reads s.now at result }
{
    let (kind, p) = read_byte(s, at)?;
    let (from, to) = read_str(s, p)?;
    let (flag, pattern) = read_byte(s, to)?;
    let end = skip_pattern(s, pattern)?;
    Some(Span {
        kind,
        from,
        to,
        flag,
        pattern,
        end,
    })
}

// Is a key a number literal that equals n?
fn is_equal(key: &[u8], n: Number) -> bool
    ensures { result ≡ equals key.now n }
{
    match read_literal(key) {
        Some(k) => same_number(k, n),
        None => false,
    }
}

// How many kinds of key can match a value: an Id matches texts and numbers, a literal numbers alone.
fn kinds_of(x: Sought) -> usize
    ensures { result ≡ kinds_of x }
{
    match x {
        Sought::Text => 1,
        Sought::Number(_, _) => 2,
    }
}

// Does a key of a kind, 1 Id or 2 literal, match: an Id of the text's bytes or that names the number's category, a literal that equals the number?
fn key_matches(kind: usize, key: &[u8], text: &[u8], x: Sought) -> bool
    ensures { result ≡ matches_by kind key.now text.now x }
{
    match x {
        Sought::Text => same_bytes(key, text),
        Sought::Number(n, c) => {
            if kind == 1 {
                matches_category(key, c)
            } else if kind == 2 {
                is_equal(key, n)
            } else {
                false
            }
        }
    }
}

// Is the key of a variant of a kind, and does it match?
fn variant_matches(s: &[u8], v: Span, kind: usize, text: &[u8], x: Sought) -> bool
    requires { (v.from ≤ v.to) × (v.to ≤ length s.now) }
    ensures { result ≡ (eqb v.kind kind && matches_by kind (part s.now v.from (v.to - v.from)) text.now x) }
{
    v.kind == kind && key_matches(kind, &s[v.from..v.to], text, x)
}

// The first variant whose key matches, by its place: the search goes through the variants and the kinds of key, and is left at the first match.
fn search(s: &[u8], at: usize, text: &[u8], x: Sought) -> Option<usize>
    ensures { result ≡ place_of (first_of (answers text.now x) (variants_at s.now at)) }
{
    let (count, start) = read_u16(s, at)?;
    let kinds = kinds_of(x);
    let mut found = None;
    let mut p = start;
    'search: for _ in 0..count {
        let Some(v) = read_variant(s, p) else {
            break 'search;
        };
        for kind in 1..kinds + 1 {
            if variant_matches(s, v, kind, text, x) {
                found = Some(p);
                break 'search;
            }
        }
        p = v.end;
    }
    found
}

// The first default variant, by its place.
fn find_default(s: &[u8], at: usize) -> Option<usize>
    ensures { result ≡ place_of (first_of is_default (variants_at s.now at)) }
{
    let (count, start) = read_u16(s, at)?;
    let mut p = start;
    for _ in 0..count {
        let v = read_variant(s, p)?;
        if v.flag == 1 {
            return Some(p);
        }
        p = v.end;
    }
    None
}

// Where the pattern of the variant at a place stands.
fn pattern_of(s: &[u8], place: usize) -> Option<usize>
    ensures { result ≡ pattern_at_place s.now place }
{
    Some(read_variant(s, place)?.pattern)
}

// The pattern of the first default variant.
pub fn choose_default(s: &[u8], at: usize) -> Option<usize>
    ensures { result ≡ pattern_place (first_of is_default (variants_at s.now at)) }
{
    pattern_of(s, find_default(s, at)?)
}

// The pattern of the variant that a value chooses, by what keys are compared to.
fn choose_by(s: &[u8], at: usize, text: &[u8], x: Sought) -> Option<usize>
    ensures { result ≡ pattern_place (or_else (first_of (answers text.now x) (variants_at s.now at)) (first_of is_default (variants_at s.now at))) }
{
    match search(s, at, text, x) {
        Some(p) => pattern_of(s, p),
        None => choose_default(s, at),
    }
}

// What keys are compared to: a number with its category.
fn compared(a: Asked) -> Sought
    ensures { Sees a result }
{
    match a {
        Asked::Text => Sought::Text,
        Asked::Number(n, locale) => Sought::Number(n, category(locale, n)),
    }
}

// The pattern of the variant that a value chooses. The category is worked out here, in a function that has two callers and so a frame of its own.
fn choose(s: &[u8], at: usize, text: &[u8], a: Asked) -> Option<usize>
    ensures { Chooses a text.now s.now at result }
{
    choose_by(s, at, text, compared(a))
}

// The pattern of the variant that a text chooses; in every locale the same.
pub fn choose_text(s: &[u8], at: usize, text: &[u8]) -> Option<usize>
    ensures { (locale : ℕ) → result ≡ pattern_place (chosen_at locale (textual text.now) s.now at) }
{
    choose(s, at, text, Asked::Text)
}

// The pattern of the variant that a number chooses.
pub fn choose_number(s: &[u8], at: usize, locale: u8, n: Number) -> Option<usize>
    ensures { result ≡ pattern_place (chosen_at locale (numeric (told n)) s.now at) }
{
    choose(s, at, b"", Asked::Number(n, locale))
}
