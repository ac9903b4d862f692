// Where an addition puts its item, or why it is refused: each test of document 01, in its order.
ghost use Rattle.std.specs.Prelude.{◌≡◌, ℕ, length};
ghost use Rattle.records.specs.Got.{got};
ghost use Rattle.records.specs.Images.{Store, store_of};
ghost use Rattle.bundle.specs.Relations.Places.{ResourcePlace, FunctionPlace};

use crate::Place;
use entries::entry::has_holder;
use growth::has_room;
use images::{check_resource, check_store};
use records::read_u16;
use refusals::Refusal;
use rules::is_id;

// The number of items of a store.
fn count_items(s: &[u8]) -> usize
    ensures { (st : Store) (f : ℕ) → store_of s.now ≡ got st f → result ≡ length st.items }
{
    let Some((n, _)) = read_u16(s, 7) else {
        return 0;
    };
    n
}

// The place of a resource.
pub(crate) fn resource_place(slice: &[u8], image: &[u8]) -> Result<Place, Refusal>
    ensures { ResourcePlace slice.now image.now result }
{
    let used = check_store(slice).ok_or(Refusal::MalformedStore)?;
    check_resource(image).ok_or(Refusal::MalformedResource)?;
    let count = count_items(slice);
    if !has_room(slice.len(), used, count, 1 + image.len()) {
        return Err(Refusal::FullStore);
    }
    Ok(Place { used, count })
}

// The place of a function.
pub(crate) fn function_place(slice: &[u8], id: &[u8], code: u8) -> Result<Place, Refusal>
    ensures { FunctionPlace slice.now id.now code result }
{
    let used = check_store(slice).ok_or(Refusal::MalformedStore)?;
    if !is_id(id) {
        return Err(Refusal::NoId);
    }
    if code != 1 {
        return Err(Refusal::NoCode);
    }
    if has_holder(slice, id) {
        return Err(Refusal::HeldId);
    }
    let count = count_items(slice);
    if !has_room(slice.len(), used, count, 9 + id.len()) {
        return Err(Refusal::FullStore);
    }
    Ok(Place { used, count })
}
