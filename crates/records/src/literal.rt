// Records that hold no other: Ids, texts, literals, keys, Flags.
ghost use Rattle.std.specs.Prelude.{◌≡◌};
ghost use Rattle.records.specs.Relations.Answer.{next_of};
ghost use Rattle.records.specs.Relations.Rule.{rule_of, tagged_at};
ghost use Rattle.records.specs.Decode.{ruled_at, id_at, literal_at, key_at, flag_at, optional_at};
ghost use Rattle.records.specs.Images.{one_at};

use crate::Rule;
use crate::bytes::{read_byte, read_str};

// Do bytes keep a rule?
fn obeys(rule: Rule, t: &[u8]) -> bool
    ensures { result ≡ rule_of rule t.now }
{
    match rule {
        Rule::Id => rules::is_id(t),
        Rule::Text => rules::is_text(t),
        Rule::String => rules::is_string(t),
        Rule::Number => literals::is_number(t),
        Rule::Utf8 => rules::is_utf8(t),
    }
}

// A Str whose bytes keep a rule.
pub fn check_ruled(s: &[u8], at: usize, rule: Rule) -> Option<usize>
    ensures { result ≡ next_of (ruled_at (rule_of rule) s.now at) }
{
    let (p, e) = read_str(s, at)?;
    if obeys(rule, &s[p..e]) { Some(e) } else { None }
}

pub fn check_id(s: &[u8], at: usize) -> Option<usize>
    ensures { result ≡ next_of (id_at s.now at) }
{
    check_ruled(s, at, Rule::Id)
}

// Tag 1 and a Str of one rule, or tag 2 and a Str of another.
fn check_tagged(s: &[u8], at: usize, one: Rule, two: Rule) -> Option<usize>
    ensures { result ≡ next_of (tagged_at (rule_of one) (rule_of two) s.now at) }
{
    let (tag, e) = read_byte(s, at)?;
    if tag == 1 {
        check_ruled(s, e, one)
    } else if tag == 2 {
        check_ruled(s, e, two)
    } else {
        None
    }
}

pub(crate) fn check_literal(s: &[u8], at: usize) -> Option<usize>
    ensures { result ≡ next_of (literal_at s.now at) }
{
    check_tagged(s, at, Rule::String, Rule::Number)
}

pub fn check_key(s: &[u8], at: usize) -> Option<usize>
    ensures { result ≡ next_of (key_at s.now at) }
{
    check_tagged(s, at, Rule::Id, Rule::Number)
}

pub fn check_flag(s: &[u8], at: usize) -> Option<usize>
    ensures { result ≡ next_of (flag_at s.now at) }
{
    let (flag, e) = read_byte(s, at)?;
    if flag == 0 {
        Some(e)
    } else if flag == 1 {
        Some(e)
    } else {
        None
    }
}

// The byte 1: a version, or the code of NUMBER.
pub fn check_one(s: &[u8], at: usize) -> Option<usize>
    ensures { result ≡ next_of (one_at s.now at) }
{
    let (v, e) = read_byte(s, at)?;
    if v == 1 { Some(e) } else { None }
}

pub fn check_optional_id(s: &[u8], at: usize) -> Option<usize>
    ensures { result ≡ next_of (optional_at id_at s.now at) }
{
    let (flag, e) = read_byte(s, at)?;
    if flag == 0 {
        Some(e)
    } else if flag == 1 {
        check_id(s, e)
    } else {
        None
    }
}
