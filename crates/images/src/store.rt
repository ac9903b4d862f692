// Stores and their items.
ghost use Rattle.std.specs.Prelude.{◌≡◌, [], ◌∷◌};
ghost use Rattle.records.specs.Relations.Answer.{next_of};
ghost use Rattle.records.specs.Decode.{many};
ghost use Rattle.records.specs.Images.{function_at, item_at, locale_at, store_of};

use crate::resource::check_resource_at;
use records::{MAX_ITEMS, MAX_STORE};

// The greatest number of a locale.
const MAX_LOCALE: usize = 3;

// A function record at a position: u32 length of the record, version 1, code byte 1 (NUMBER), Id.
pub(crate) fn check_function_at(s: &[u8], at: usize) -> Option<usize>
    ensures { result ≡ next_of (function_at s.now at) }
{
    let (n, p) = records::read_u32(s, at)?;
    let q = records::check_one(s, p)?;
    let r = records::check_one(s, q)?;
    let e = records::check_id(s, r)?;
    records::ends_at(at, n, e)
}

// An item of a store: mode byte, then a resource image or a function record.
pub(crate) fn check_item(s: &[u8], at: usize) -> Option<usize>
    ensures { result ≡ next_of (item_at s.now at) }
{
    let (mode, p) = records::read_byte(s, at)?;
    match mode {
        1 | 2 => check_resource_at(s, p),
        3 => check_function_at(s, p),
        _ => None,
    }
}

// `count` items.
pub(crate) fn check_items(s: &[u8], from: usize, count: usize) -> Option<usize>
    ensures { result ≡ next_of (many [] ◌∷◌ count item_at s.now from) }
{
    let mut at = from;
    for _ in 0..count {
        at = check_item(s, at)?;
    }
    Some(at)
}

// The locale of a store.
pub(crate) fn check_locale(s: &[u8], at: usize) -> Option<usize>
    ensures { result ≡ next_of (locale_at s.now at) }
{
    let (l, e) = records::read_byte(s, at)?;
    if l <= MAX_LOCALE { Some(e) } else { None }
}

// A store, to its used length. One pass: how often a byte is visited at most stands at patterns::check_pattern.
pub fn check_store(s: &[u8]) -> Option<usize>
    ensures { result ≡ next_of (store_of s.now) }
{
    let (n, p) = records::read_u32(s, 0)?;
    if MAX_STORE < n {
        return None;
    }
    let q = records::check_one(s, p)?;
    let r = check_locale(s, q)?;
    let t = records::check_flag(s, r)?;
    let (k, u) = records::read_u16(s, t)?;
    if MAX_ITEMS < k {
        return None;
    }
    let e = check_items(s, u, k)?;
    if e == n { Some(e) } else { None }
}
