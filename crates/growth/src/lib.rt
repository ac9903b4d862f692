// One item more in a store's bytes: whether there is room, the item behind the others, the used length and the count.
#![tactic(auto)]

ghost use Rattle.std.specs.Prelude.{◌≡◌, ◌+◌, ◌≤◌, ◌<◌, ◌∷◌, length, leb};
ghost use Rattle.records.specs.Bytes.{to_be};
ghost use Rattle.records.specs.Encode.{enc_function};
ghost use Rattle.buffers.specs.Relations.Append.{over};
ghost use Rattle.growth.specs.Items.{has_room, written_if, file_item};

use records::{MAX_ITEMS, MAX_STORE, has_bytes, write_bytes, write_u16, write_u32};

// Whether a slice of `size` bytes, of which `used` are used by `count` items, has room for an item of n bytes.
#[tactic(auto, unfolding(crate::specs::Items::has_room, records::specs::Images::max_store, records::specs::Images::max_items))]
pub fn has_room(size: usize, used: usize, count: usize, n: usize) -> bool
    ensures { result ≡ has_room size used count n }
{
    has_bytes(size, used, n) && has_bytes(MAX_STORE, used, n) && count < MAX_ITEMS
}

// Writes the item of a resource.
fn put_resource(slice: &mut [u8], at: usize, mode: u8, image: &[u8])
    requires { at + (1 + length image.now) ≤ length slice.old }
    ensures { slice.new ≡ over slice.old at (mode ∷ image.now) }
{
    slice[at] = mode;
    write_bytes(slice, at + 1, image);
}

// Writes the item of a function: mode 3, length, version 1, code 1, Id.
fn put_function(slice: &mut [u8], at: usize, id: &[u8])
    requires { (at + (9 + length id.now) ≤ length slice.old) × (length id.now ≤ 255) }
    ensures { slice.new ≡ over slice.old at (3 ∷ enc_function id.now) }
{
    slice[at] = 3;
    write_u32(slice, at + 1, 8 + id.len());
    slice[at + 5] = 1;
    slice[at + 6] = 1;
    write_u16(slice, at + 7, id.len());
    write_bytes(slice, at + 9, id);
}

// Writes the used length and the item count of a store.
fn put_counts(slice: &mut [u8], used: usize, count: usize)
    requires { (9 ≤ length slice.old) × (used < 4294967296) × (count < 65536) }
    ensures { slice.new ≡ over (over slice.old 0 (to_be 4 used)) 7 (to_be 2 count) }
{
    write_u32(slice, 0, used);
    write_u16(slice, 7, count);
}

// Files a resource behind the others, where it has room: its item, and the used length and the count over it.
#[tactic(auto, using(crate::proofs::Items::room_true))]
pub fn file_resource(slice: &mut [u8], used: usize, count: usize, mode: u8, image: &[u8])
    ensures { slice.new ≡ file_item slice.old used count (mode ∷ image.now) }
{
    if 9 <= used && has_room(slice.len(), used, count, 1 + image.len()) {
        put_resource(slice, used, mode, image);
        put_counts(slice, used + (1 + image.len()), count + 1);
    }
}

// Files a function behind the others, where it has room and its Id is no longer than one may be.
#[tactic(auto, using(crate::proofs::Items::room_true))]
pub fn file_function(slice: &mut [u8], used: usize, count: usize, id: &[u8])
    ensures { slice.new ≡ written_if (leb (length id.now) 255) slice.old (file_item slice.old used count (3 ∷ enc_function id.now)) }
{
    if id.len() <= 255 && 9 <= used && has_room(slice.len(), used, count, 9 + id.len()) {
        put_function(slice, used, id);
        put_counts(slice, used + (9 + id.len()), count + 1);
    }
}
