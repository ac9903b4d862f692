// Two tables by slots: where an image's entries stand, and which of their ids a store holds. An id has eight slots to look at, and a slot once taken stays so. Arrays, and no map: the operations use no heap.
ghost use Rattle.std.specs.Prelude.{◌≡◌, ℕ, ◌<◌, ◌%◌, List};
ghost use Rattle.records.specs.Got.{got};
ghost use Rattle.decimals.specs.Bytes.{same_bytes};
ghost use Rattle.records.specs.Images.{is_some, resource_of, Entry, Store, store_of};
ghost use Rattle.entries.specs.Lookup.{find_in};
ghost use Rattle.repeats.specs.Relations.Slots.{slot_of, suits, seek_of, if_slot, placed, Cleared, PlacesAll, Notes, NotesEntries, NotesItem};

use decimals::bytes::same_bytes;
use entries::resource::{read_str_behind, read_u16_behind, skip_entry, skip_item};
use records::{read_byte, read_u16};

// The first of an id's eight slots: equal ids have equal slots.
fn slot(id: &[u8]) -> usize
    ensures { (result ≡ slot_of id.now) × (result < 8192) }
{
    let mut h = 0usize;
    for b in id {
        h = (h * 31 + *b as usize) % 4294967296;
    }
    (h + h / 65536) * 2654435769 % 4294967296 / 524288
}

// Whether a slot that has p suits an id: it is free, or the entry at p has the id.
#[tactic(auto, using(entries::proofs::Walk::behind_in))]
fn is_suited(image: &[u8], p: usize, id: &[u8]) -> bool
    ensures { result ≡ suits image.now id.now p }
{
    if p == 0 {
        return true;
    }
    let Some((a, e)) = read_str_behind(image, p, 1) else {
        return false;
    };
    same_bytes(&image[a..e], id)
}

// Puts a position into the slot of an id, if that is free.
#[tactic(auto, using(crate::proofs::Seeking::slot_is))]
fn place(image: &[u8], places: &mut [u16; 8200], id: &[u8], at: usize)
    ensures { places.new ≡ placed places.old (seek_of image.now places.old id.now) (at % 65536) }
{
    let slots = Slots {
        image,
        places: &*places,
    };
    if let Some(j) = slots.seek(id) {
        if places[j] == 0 {
            places[j] = (at % 65536) as u16;
        }
    }
}

// Puts each entry of an image into a slot of its id, where one is free and none before it has the id.
#[tactic(auto, using(entries::proofs::Walk::behind_in))]
pub(crate) fn place_entries(image: &[u8], places: &mut [u16; 8200])
    ensures { (es : List Entry) (f : ℕ) → resource_of image.now ≡ got es f → Cleared places.old → PlacesAll image.now places.new }
{
    let Some((count, start)) = read_u16(image, 5) else {
        return;
    };
    let mut at = start;
    for _ in 0..count {
        let Some((a, e)) = read_str_behind(image, at, 1) else {
            return;
        };
        place(image, places, &image[a..e], at);
        let Some(next) = skip_entry(image, at) else {
            return;
        };
        at = next;
    }
}

// An image, and the places of its entries by slots.
#[derive(Clone, Copy)]
pub(crate) struct Slots<'a> {
    pub(crate) image: &'a [u8],
    pub(crate) places: &'a [u16; 8200],
}

impl Slots<'_> {
    // The first of an id's slots that suits it.
    pub(crate) fn seek(self, id: &[u8]) -> Option<usize>
        ensures { result ≡ if_slot (seek_of self.entry.image.now self.entry.places.now id.now) }
    {
        let h = slot(id);
        for j in h..h + 8 {
            if is_suited(self.image, self.places[j] as usize, id) {
                return Some(j);
            }
        }
        None
    }

    // Notes in an id's slot that the id is held.
    #[tactic(auto, using(crate::proofs::Seeking::slot_is))]
    fn note(self, held: &mut [u8; 8200], id: &[u8])
        ensures { Notes self.entry.image.now self.entry.places.now held.old (same_bytes id.now) held.new }
    {
        if let Some(j) = self.seek(id) {
            held[j] = 1;
        }
    }

    // The ids of `count` entries.
    #[tactic(auto, using(entries::proofs::Walk::behind_in))]
    fn note_entries(self, held: &mut [u8; 8200], s: &[u8], from: usize, count: usize)
        ensures { NotesEntries s.now self.entry.image.now self.entry.places.now count from held.old held.new }
    {
        let mut at = from;
        for _ in 0..count {
            let Some((a, e)) = read_str_behind(s, at, 1) else {
                return;
            };
            self.note(held, &s[a..e]);
            let Some(next) = skip_entry(s, at) else {
                return;
            };
            at = next;
        }
    }

    // The ids of an item.
    #[tactic(auto, using(entries::proofs::Walk::behind_in))]
    fn note_item(self, held: &mut [u8; 8200], s: &[u8], at: usize)
        ensures { NotesItem s.now self.entry.image.now self.entry.places.now at held.old held.new }
    {
        let Some((mode, p)) = read_byte(s, at) else {
            return;
        };
        if mode == 3 {
            let Some((a, e)) = read_str_behind(s, p, 6) else {
                return;
            };
            self.note(held, &s[a..e]);
            return;
        }
        let Some((count, start)) = read_u16_behind(s, p, 5) else {
            return;
        };
        self.note_entries(held, s, start, count);
    }

    // Notes which ids that stand in their slots have an entry in a store: one walk over it.
    pub(crate) fn note_store(self, held: &mut [u8; 8200], s: &[u8])
        ensures { (st : Store) (f : ℕ) → store_of s.now ≡ got st f → Notes self.entry.image.now self.entry.places.now held.old (λ x. is_some (find_in st.items x)) held.new }
    {
        let Some((count, start)) = read_u16(s, 7) else {
            return;
        };
        let mut at = start;
        for _ in 0..count {
            self.note_item(held, s, at);
            let Some(next) = skip_item(s, at) else {
                return;
            };
            at = next;
        }
    }
}
