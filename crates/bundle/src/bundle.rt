// New bundles and additions: an addition finds its place first, or is refused, and writes then.
ghost use Rattle.std.specs.Prelude.{◌≡◌, []};
ghost use Rattle.bundle.specs.Additions.{new_bundle, add_resource, add_resource_overriding, add_function};
ghost use Rattle.bundle.specs.Gives.{gave};

use crate::places::{function_place, resource_place};
use growth::{file_function, file_resource};
use listing::list_repeats;
use refusals::Refusal;
use repeats::marks::mark_image;

// A new bundle at the front of a slice.
pub fn new(slice: &mut [u8], locale: u8, isolating: u8) -> Result<usize, Refusal>
    ensures { gave result slice.new [] ≡ new_bundle slice.old locale isolating }
{
    if slice.len() < 9 {
        return Err(Refusal::ShortSlice);
    }
    if 3 < locale {
        return Err(Refusal::NoLocale);
    }
    if 1 < isolating {
        return Err(Refusal::NoFlag);
    }
    slice[..9].copy_from_slice(&[0, 0, 0, 9, 1, locale, isolating, 0, 0]);
    Ok(0)
}

// Adds a resource whose entries yield to those of their ids; lists one Overriding record for each that does.
pub fn add_resource(slice: &mut [u8], image: &[u8], list: &mut [u8]) -> Result<usize, Refusal>
    ensures { gave result slice.new list.new ≡ add_resource slice.old image.now list.old }
{
    let place = resource_place(slice, image)?;
    let mut marks = [0u8; 10922];
    mark_image(slice, image, &mut marks);
    let Ok(n) = list_repeats(image, &marks, list) else {
        return Err(Refusal::ShortList);
    };
    file_resource(slice, place.used, place.count, 1, image);
    Ok(n)
}

// Adds a resource whose entries take their ids.
pub fn add_resource_overriding(slice: &mut [u8], image: &[u8]) -> Result<usize, Refusal>
    ensures { gave result slice.new [] ≡ add_resource_overriding slice.old image.now }
{
    let place = resource_place(slice, image)?;
    file_resource(slice, place.used, place.count, 2, image);
    Ok(0)
}

// Adds a function under an id that has no entry.
pub fn add_function(slice: &mut [u8], id: &[u8], code: u8) -> Result<usize, Refusal>
    ensures { gave result slice.new [] ≡ add_function slice.old id.now code }
{
    let place = function_place(slice, id, code)?;
    file_function(slice, place.used, place.count, id);
    Ok(0)
}
