// The marks of an image's entries: 1 if the id is held in the store, or by an entry before it.
ghost use Rattle.std.specs.Prelude.{◌≡◌, ℕ, ◌-◌, ◌≤◌, List, [], ◌∷◌, length, eqb};
ghost use Rattle.records.specs.Got.{got};
ghost use Rattle.records.specs.Bytes.{part, span_at, number_at};
ghost use Rattle.records.specs.Decode.{many};
ghost use Rattle.records.specs.Images.{is_some, resource_of, Entry, Store, entry_at, store_of};
ghost use Rattle.entries.specs.Lookup.{find_in};
ghost use Rattle.records.specs.Names.{first_named};
ghost use Rattle.entries.specs.Outline.{behind, readable, entry_head, entry_outline};
ghost use Rattle.entries.specs.Repeats.{is_held, repeats};
ghost use Rattle.entries.specs.Relations.Marked.{marked};
ghost use Rattle.repeats.specs.Relations.Slots.{Ready};
ghost use Rattle.repeats.specs.Relations.Seen.{seen_after};

use crate::slots::{Slots, place_entries};
use entries::entry::has_holder;
use entries::resource::{find_first, read_str_behind, skip_entry};
use records::read_u16;

// Whether one of `count` entries has the id.
fn is_among(s: &[u8], from: usize, count: usize, id: &[u8]) -> bool
    ensures { result ≡ is_some (first_named id.now (readable count entry_head entry_outline s.now from)) }
{
    find_first(s, from, count, id).is_some()
}

// The mark of an entry whose Id stands from a up to e: 1 if the Id is held by one of the k entries before it, or in the store.
fn mark_of(s: &[u8], image: &[u8], start: usize, k: usize, a: usize, e: usize) -> u8
    requires { (a ≤ e) × (e ≤ length image.now) }
    ensures { (st : Store) (f : ℕ) (pre : List Entry) (i : ℕ) → store_of s.now ≡ got st f → many [] ◌∷◌ k entry_at image.now start ≡ got pre i
        → eqb result 1 ≡ is_held (find_in st.items) (seen_after [] pre) (part image.now a (e - a)) }
{
    let id = &image[a..e];
    (is_among(image, start, k, id) || has_holder(s, id)) as u8
}

// The mark of an entry: from its slot, if it or one before it stands there; else by walking.
#[tactic(auto, using(crate::proofs::Seeking::slot_is))]
fn mark_at(
    s: &[u8],
    slots: Slots,
    held: &[u8; 8200],
    start: usize,
    k: usize,
    at: usize,
    a: usize,
    e: usize,
) -> u8
    requires { (a ≤ e) × (e ≤ length slots.image.now) }
    ensures { (st : Store) (f count : ℕ) (pre : List Entry) → store_of s.now ≡ got st f → Ready slots.entry.image.now slots.entry.places.now held.now (find_in st.items)
        → number_at 2 slots.entry.image.now 5 ≡ got count start → k ≤ count → many [] ◌∷◌ k entry_at slots.entry.image.now start ≡ got pre at → behind 1 span_at slots.entry.image.now at ≡ got a e
        → eqb result 1 ≡ is_held (find_in st.items) (seen_after [] pre) (part slots.entry.image.now a (e - a)) }
{
    if let Some(j) = slots.seek(&slots.image[a..e]) {
        let p = slots.places[j] as usize;
        if 0 < p {
            if p == at {
                return held[j];
            }
            if p < at {
                return 1;
            }
        }
    }
    mark_of(s, slots.image, start, k, a, e)
}

// Marks the entries of an image that repeat an id. An entry has 6 bytes or more, so an image of 65,536 has at most 10,921.
#[tactic(auto, using(entries::proofs::Walk::behind_in))]
fn mark_repeats(s: &[u8], slots: Slots, held: &[u8; 8200], marks: &mut [u8])
    requires { 10922 ≤ length marks.old }
    ensures { (st : Store) (u : ℕ) (es : List Entry) (f : ℕ) → store_of s.now ≡ got st u → resource_of slots.entry.image.now ≡ got es f
        → Ready slots.entry.image.now slots.entry.places.now held.now (find_in st.items) → marked marks.new 0 es ≡ repeats (find_in st.items) es }
{
    let image = slots.image;
    let Some((count, start)) = read_u16(image, 5) else {
        return;
    };
    if 10921 < count {
        return;
    }
    let mut at = start;
    for k in 0..count {
        let Some((a, e)) = read_str_behind(image, at, 1) else {
            return;
        };
        marks[k] = mark_at(s, slots, held, start, k, at, a, e);
        let Some(next) = skip_entry(image, at) else {
            return;
        };
        at = next;
    }
}

// Marks the entries of an image that repeat an id, with two tables to do it by: n entries and a store of m are walked once each, and only an entry
// whose id finds none of its eight slots is looked up by a walk of its own. Of 3,800 numbered ids fewer than 20 are.
pub fn mark_image(s: &[u8], image: &[u8], marks: &mut [u8; 10922])
    ensures { (st : Store) (u : ℕ) (es : List Entry) (f : ℕ) → store_of s.now ≡ got st u → resource_of image.now ≡ got es f
        → marked marks.new 0 es ≡ repeats (find_in st.items) es }
{
    let mut places = [0u16; 8200];
    place_entries(image, &mut places);
    let slots = Slots {
        image,
        places: &places,
    };
    let mut held = [0u8; 8200];
    slots.note_store(&mut held, s);
    mark_repeats(s, slots, &held, marks);
}
