// What holds an id: in a function record, after an item, in a store.
ghost use Rattle.std.specs.Prelude.{◌≡◌, not, ◌||◌, get_or, eqb};
ghost use Rattle.std.proofs.Math.Option.{none};
ghost use Rattle.records.specs.Images.{is_some};
ghost use Rattle.records.specs.Names.{first_named};
ghost use Rattle.entries.specs.Outline.{readable, function_in, item_head, item_outline, locate_from, locate};
ghost use Rattle.entries.specs.Relations.Meets.{found_of, held_by, after_ids};

use crate::Holder;
use crate::resource::{find_first, find_last, read_str_behind, read_u16_behind, skip_item};
use decimals::bytes::same_bytes;
use records::{read_byte, read_u16};

// Whether the function record at a position has the id.
pub(crate) fn function_in(s: &[u8], at: usize, id: &[u8]) -> Option<Holder>
    ensures { result ≡ found_of (first_named id.now (function_in s.now at)) }
{
    let (a, e) = read_str_behind(s, at, 6)?;
    if same_bytes(&s[a..e], id) {
        Some(Holder::Function)
    } else {
        None
    }
}

// What an id has after an item, where it had `held` before it.
fn after_item(s: &[u8], at: usize, id: &[u8], held: Option<Holder>) -> Option<Holder>
    ensures { result ≡ found_of (after_ids (item_head s.now at) id.now (held_by held)) }
{
    let Some((mode, p)) = read_byte(s, at) else {
        return held;
    };
    if mode == 3 {
        return held.or(function_in(s, p, id));
    }
    let Some((count, start)) = read_u16_behind(s, p, 5) else {
        return held;
    };
    if mode == 2 {
        return find_last(s, start, count, id).or(held);
    }
    held.or(find_first(s, start, count, id))
}

// Can the item at a position change what an id has? What is held is replaced by an overriding resource only.
fn can_change(s: &[u8], at: usize, held: Option<Holder>) -> bool
    ensures { result ≡ not (is_some (held_by held)) || eqb (get_or s.now at 0) 2 }
{
    if held.is_some() {
        at < s.len() && s[at] == 2
    } else {
        true
    }
}

// What holds an id in `count` items: one walk over them.
fn find_in_items(s: &[u8], from: usize, count: usize, id: &[u8]) -> Option<Holder>
    ensures { result ≡ found_of (locate_from (readable count item_head item_outline s.now from) id.now none) }
{
    let mut at = from;
    let mut found = None;
    for _ in 0..count {
        if can_change(s, at, found) {
            found = after_item(s, at, id, found);
        }
        let Some(next) = skip_item(s, at) else {
            return found;
        };
        at = next;
    }
    found
}

// What holds an id in a store.
#[tactic(auto, using(crate::proofs::Held::locate_bad, crate::proofs::Held::locate_start, crate::proofs::Held::none_found))]
pub fn find_holder(s: &[u8], id: &[u8]) -> Option<Holder>
    ensures { result ≡ found_of (locate s.now id.now) }
{
    let (count, start) = read_u16(s, 7)?;
    find_in_items(s, start, count, id)
}

// Whether an id has an entry in a store.
pub fn has_holder(s: &[u8], id: &[u8]) -> bool
    ensures { result ≡ is_some (locate s.now id.now) }
{
    find_holder(s, id).is_some()
}
