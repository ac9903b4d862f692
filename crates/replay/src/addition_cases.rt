// The cases of new bundles and additions, each in buffers of its own: does the library answer what the oracle answered, and leave the same bytes.
use crate::image_cases::number;
use refusals::Refusal;
use vectors::{
    blob, byte, filled, headed, past, past_blob, past_string, string, tail, u16_at, u32_at,
};

// Lends a slice that begins with bytes, and a list, and answers what is said of them. Longer ones than 8,192 bytes are not lent.
fn lend<F: FnOnce(&mut [u8], &mut [u8]) -> bool>(
    before: &[u8],
    slice_length: usize,
    list_length: usize,
    run: F,
) -> bool
    requires { F.IsAlwaysCallable run }
{
    if 8192 < slice_length || 8192 < list_length {
        return false;
    }
    let mut slice: [u8; 8192] = headed(0xAA, before);
    let mut list: [u8; 8192] = filled(0xAA);
    run(&mut slice[..slice_length], &mut list[..list_length])
}

// Is it the answer that is told, and do slice and list hold what is told behind it? Past a case's end stands an empty list.
fn are_told(
    told: &[u8],
    behind: usize,
    answer: Result<usize, Refusal>,
    slice: &[u8],
    list: &[u8],
) -> bool {
    byte(told, 0) == number(answer)
        && slice == blob(told, behind)
        && list == blob(told, past_blob(told, behind))
}

fn make(s: &[u8], slice: &mut [u8]) -> Result<usize, Refusal> {
    bundle::new(slice, byte(s, 5), byte(s, 6))
}

fn add_function(s: &[u8], slice: &mut [u8]) -> Result<usize, Refusal> {
    let id = past_blob(s, 1);
    bundle::add_function(slice, string(s, id), byte(s, past_string(s, id)))
}

// u32 slice length, u8 locale, u8 isolating, u8 answer, Blob slice after.
pub(crate) fn new_case(s: &[u8]) -> bool {
    lend(&[], u32_at(s, 1) as usize, 0, |slice, list| {
        let answer = make(s, slice);
        are_told(tail(s, 7), 1, answer, slice, list)
    })
}

// u8 mode, Blob slice before, Blob image, u32 list length, u8 answer, u16 count, Blob slice after, Blob list after. A resource is added plainly in mode 1, and
// else overriding; a mode of 30 or 32 is the operation of that number.
pub(crate) fn resource_case(s: &[u8]) -> bool {
    let before = blob(s, 2);
    let at = past_blob(s, 2);
    let image = blob(s, at);
    let length = past_blob(s, at);
    let told = tail(s, past(s, length, 4));
    lend(
        before,
        before.len(),
        u32_at(s, length) as usize,
        |slice, list| {
            let answer = match byte(s, 1) {
                1 => bundle::add_resource(slice, image, list),
                30 => make(s, slice),
                32 => add_function(s, slice),
                _ => bundle::add_resource_overriding(slice, image),
            };
            u16_at(told, 1) == answer.unwrap_or(0) as u64 && are_told(told, 3, answer, slice, list)
        },
    )
}

// Blob slice before, Str id, u8 code, u8 answer, Blob slice after.
pub(crate) fn function_case(s: &[u8]) -> bool {
    let before = blob(s, 1);
    let code = past_string(s, past_blob(s, 1));
    lend(before, before.len(), 0, |slice, list| {
        let answer = add_function(s, slice);
        are_told(tail(s, past(s, code, 1)), 1, answer, slice, list)
    })
}
