// The named arguments of a call.
ghost use Rattle.std.specs.Prelude.{◌≡◌, ℕ, ◌-◌, ◌≤◌, List, [], ◌∷◌, length};
ghost use Rattle.records.specs.Got.{got};
ghost use Rattle.records.specs.Relations.Answer.{next_of};
ghost use Rattle.records.specs.Tree.{Literal};
ghost use Rattle.records.specs.Names.{among, distinct};
ghost use Rattle.records.specs.Bytes.{part};
ghost use Rattle.records.specs.Decode.{literal_at, named_at, named_arguments_at, many};

use crate::bytes::{read_byte, read_str, skip_str};
use crate::literal::{check_id, check_literal};

// A named argument: Id, then a literal.
fn check_named(s: &[u8], at: usize) -> Option<usize>
    ensures { result ≡ next_of (named_at s.now at) }
{
    let e = check_id(s, at)?;
    check_literal(s, e)
}

// `count` named arguments.
fn check_all_named(s: &[u8], from: usize, count: usize) -> Option<usize>
    ensures { result ≡ next_of (many [] ◌∷◌ count named_at s.now from) }
{
    let mut at = from;
    for _ in 0..count {
        at = check_named(s, at)?;
    }
    Some(at)
}

// Past a literal that was checked: its tag and its Str, whose bytes are not looked at again.
fn skip_literal(s: &[u8], at: usize) -> Option<usize>
    ensures { (x : Literal) (e : ℕ) → literal_at s.now at ≡ got x e → result ≡ Some e }
{
    let (_, e) = read_byte(s, at)?;
    skip_str(s, e)
}

// Is the name that stands from p up to e among those of `count` named arguments?
fn name_among(s: &[u8], from: usize, count: usize, p: usize, e: usize) -> bool
    requires { (p ≤ e) × (e ≤ length s.now) }
    ensures { (l : List (List ℕ × Literal)) (f : ℕ) → many [] ◌∷◌ count named_at s.now from ≡ got l f → result ≡ among (part s.now p (e - p)) l }
{
    let mut at = from;
    for _ in 0..count {
        let Some((q, f)) = read_str(s, at) else {
            return false;
        };
        if decimals::bytes::same_bytes(&s[p..e], &s[q..f]) {
            return true;
        }
        let Some(g) = skip_literal(s, f) else {
            return false;
        };
        at = g;
    }
    false
}

// Has none of `count` named arguments the name of another?
fn names_distinct(s: &[u8], from: usize, count: usize) -> bool
    ensures { (l : List (List ℕ × Literal)) (f : ℕ) → many [] ◌∷◌ count named_at s.now from ≡ got l f → result ≡ distinct l }
{
    let mut at = from;
    for left in (0..count).rev() {
        let Some((q, f)) = read_str(s, at) else {
            return false;
        };
        let Some(g) = skip_literal(s, f) else {
            return false;
        };
        if name_among(s, g, left, q, f) {
            return false;
        }
        at = g;
    }
    true
}

// The named arguments of a call, no name twice. The names are compared pairwise: with m arguments a name is compared with m - 1 others, and byte by byte
// only with those of its length.
pub fn check_named_arguments(s: &[u8], from: usize, count: usize) -> Option<usize>
    ensures { result ≡ next_of (named_arguments_at count s.now from) }
{
    let t = check_all_named(s, from, count)?;
    if names_distinct(s, from, count) {
        Some(t)
    } else {
        None
    }
}
