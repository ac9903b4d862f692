// A resource's bytes: reading behind a head, skipping, the first and the last entry of an id.
ghost use Rattle.std.specs.Prelude.{◌≡◌, get_or, eqb, Some};
ghost use Rattle.std.proofs.Math.Option.{some};
ghost use Rattle.decimals.specs.Bytes.{same_bytes};
ghost use Rattle.records.specs.Got.{after};
ghost use Rattle.records.specs.Relations.Answer.{next_of, num_of};
ghost use Rattle.records.specs.Bytes.{span_at, number_at};
ghost use Rattle.records.specs.Names.{first_named};
ghost use Rattle.entries.specs.Lookup.{last_named};
ghost use Rattle.records.specs.Optional.{or_else, option_of};
ghost use Rattle.entries.specs.Outline.{behind, value_outline, attribute_outline, attributes_outline, entry_outline, kind_as, entry_head, item_outline, readable};
ghost use Rattle.walks.specs.Outline.{many_outline};
ghost use Rattle.entries.specs.Relations.Meets.{found_of, held_by};

use crate::Holder;
use decimals::bytes::same_bytes;
use records::{read_byte, read_str, read_u16, read_u32, skip_bytes, skip_str};
use walks::skip_pattern;

// The walkers take any bytes, and go by the lengths that stand there: what they answer is said by the outline.

// A Str behind n bytes: where its bytes stand.
pub fn read_str_behind(s: &[u8], at: usize, n: usize) -> Option<(usize, usize)>
    ensures { result ≡ num_of (behind n span_at s.now at) }
{
    let p = skip_bytes(s, at, n)?;
    read_str(s, p)
}

// A u16 behind n bytes.
pub fn read_u16_behind(s: &[u8], at: usize, n: usize) -> Option<(usize, usize)>
    ensures { result ≡ num_of (behind n (number_at 2) s.now at) }
{
    let p = skip_bytes(s, at, n)?;
    read_u16(s, p)
}

// Past a value Flag, and the pattern that it announces.
pub(crate) fn skip_value(s: &[u8], at: usize) -> Option<usize>
    ensures { result ≡ next_of (value_outline s.now at) }
{
    let (flag, p) = read_byte(s, at)?;
    if flag == 0 {
        return Some(p);
    }
    skip_pattern(s, p)
}

// Past `count` attributes.
fn skip_all_attributes(s: &[u8], from: usize, count: usize) -> Option<usize>
    ensures { result ≡ next_of (many_outline count attribute_outline s.now from) }
{
    let mut at = from;
    for _ in 0..count {
        let p = skip_str(s, at)?;
        at = skip_pattern(s, p)?;
    }
    Some(at)
}

// Past what follows the Id of an entry: its value, and its attributes from their count on. A search for an id takes a turn of it for each entry.
#[inline(always)]
fn skip_rest(s: &[u8], at: usize) -> Option<usize>
    ensures { result ≡ next_of (after (value_outline s.now at) (λ v q. attributes_outline s.now q)) }
{
    let p = skip_value(s, at)?;
    let (count, start) = read_u16(s, p)?;
    skip_all_attributes(s, start, count)
}

// Past an entry.
pub fn skip_entry(s: &[u8], at: usize) -> Option<usize>
    ensures { result ≡ next_of (entry_outline s.now at) }
{
    let (_, e) = read_str_behind(s, at, 1)?;
    skip_rest(s, e)
}

// Past an item, by the length of its record.
pub fn skip_item(s: &[u8], at: usize) -> Option<usize>
    ensures { result ≡ next_of (item_outline s.now at) }
{
    let p = skip_bytes(s, at, 1)?;
    let (n, _) = read_u32(s, p)?;
    skip_bytes(s, p, n)
}

// The entry at a position, by its kind byte.
fn holder_at(s: &[u8], at: usize) -> Holder
    ensures { Some result ≡ found_of (some (kind_as (eqb (get_or s.now at 0) 1) at)) }
{
    if at < s.len() && s[at] == 1 {
        Holder::Message(at)
    } else {
        Holder::Term(at)
    }
}

// Is an Id the one that is asked for? Ids of one length often differ only in their last byte, so that is looked at first.
fn same_id(found: &[u8], id: &[u8]) -> bool
    ensures { result ≡ same_bytes found.now id.now }
{
    let n = id.len();
    found.len() == n && (n == 0 || found[n - 1] == id[n - 1]) && same_bytes(found, id)
}

// The first of `count` entries that has the id.
pub fn find_first(s: &[u8], from: usize, count: usize, id: &[u8]) -> Option<Holder>
    ensures { result ≡ found_of (first_named id.now (readable count entry_head entry_outline s.now from)) }
{
    let mut at = from;
    for _ in 0..count {
        let (a, e) = read_str_behind(s, at, 1)?;
        if same_id(&s[a..e], id) {
            return Some(holder_at(s, at));
        }
        at = skip_rest(s, e)?;
    }
    None
}

// The entry at a position if it has the id, else the last one so far.
fn later(s: &[u8], same: bool, at: usize, last: Option<Holder>) -> Option<Holder>
    ensures { result ≡ found_of (or_else (option_of same (kind_as (eqb (get_or s.now at 0) 1) at)) (held_by last)) }
{
    if same { Some(holder_at(s, at)) } else { last }
}

// The last of `count` entries that has the id.
pub(crate) fn find_last(s: &[u8], from: usize, count: usize, id: &[u8]) -> Option<Holder>
    ensures { result ≡ found_of (last_named id.now (readable count entry_head entry_outline s.now from)) }
{
    let mut at = from;
    let mut last = None;
    for _ in 0..count {
        let Some((a, e)) = read_str_behind(s, at, 1) else {
            return last;
        };
        last = later(s, same_id(&s[a..e], id), at, last);
        let Some(next) = skip_rest(s, e) else {
            return last;
        };
        at = next;
    }
    last
}
