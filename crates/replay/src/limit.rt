// The limit of a store, 1,048,576 bytes, in a slice of one byte more: 15 images of 65,536 bytes and one of 65,511 fill it.
use refusals::Refusal;
use vectors::{differs, filled, headed, part};

// An image of one message, `size` bytes long: a head, a text, and no attributes.
fn image(head: &[u8; 21], size: usize) -> [u8; 65537] {
    let mut b = headed(b'x', head);
    if 2 <= size && size <= 65537 {
        b[size - 2] = 0;
        b[size - 1] = 0;
    }
    b
}

// Adds an image, and says whether the answer differs from what is told.
fn added(store: &mut [u8], head: &[u8; 21], size: usize, told: Option<Refusal>) -> u64 {
    let b = image(head, size);
    let answer = bundle::add_resource_overriding(store, part(&b, 0, size));
    differs(answer.err() == told)
}

// A new bundle is filled: after the 15th image 65,512 bytes are left with the item's own. One byte too many is refused, the last byte is used, and then there
// is no room for a function either.
fn fill(store: &mut [u8]) -> u64 {
    let mut differ = differs(bundle::new(store, 0, 1).is_ok());
    for step in 0..17 {
        let (head, size, told) = match step {
            15 => (
                b"\x00\x00\xFF\xE8\x01\x00\x01\x01\x00\x01a\x01\x00\x00\xFF\xD6\x00\x01\x01\xFF\xD1",
                65512,
                Some(Refusal::FullStore),
            ),
            16 => (
                b"\x00\x00\xFF\xE7\x01\x00\x01\x01\x00\x01a\x01\x00\x00\xFF\xD5\x00\x01\x01\xFF\xD0",
                65511,
                None,
            ),
            _ => (
                b"\x00\x01\x00\x00\x01\x00\x01\x01\x00\x01a\x01\x00\x00\xFF\xEE\x00\x01\x01\xFF\xE9",
                65536,
                None,
            ),
        };
        differ = differ.wrapping_add(added(store, head, size, told));
    }
    let function = bundle::add_function(store, b"F", 1);
    differ.wrapping_add(differs(function.err() == Some(Refusal::FullStore)))
}

pub(crate) fn limit() -> u64 {
    let mut store: [u8; 1048577] = filled(0xAA);
    fill(&mut store)
}
