// The proved operations for programs in C and Rust. `exports_c` has them under their names in C, and `tools/archive` writes target/staticlib/libexports.a;
// include/weszlagyo.h declares them.
// Each answers 0, or the number of its refusal, and writes its figures into the numbers that are lent to it. None has a `requires`: whatever bytes the
// slices hold, the answer is the definition's.
#![tactic(auto)]

ghost use Rattle.std.specs.Prelude.{◌≡◌};
ghost use Rattle.bundle.specs.Additions.{new_bundle, add_resource, add_resource_overriding, add_function};
ghost use Rattle.records.specs.Optional.{lent, option_of};
ghost use Rattle.resolution.specs.Format.{format};
ghost use Rattle.theorems.specs.HighestUse.{highest_use};
ghost use Rattle.sheets.specs.Sheet.{format_sheet};
ghost use Rattle.sheet_theorems.specs.HighestUse.{sheet_highest_use};
ghost use Rattle.exports.specs.Numbers.{number_of, count_of, handed, used_after};

// The attribute, where it is asked for.
fn named<'a>(has: bool, attribute: &'a [u8]) -> Option<&'a [u8]>
    ensures { lent result ≡ option_of has attribute.now }
{
    if has { Some(attribute) } else { None }
}

// A new bundle at the front of a slice. Refusals: 1, 2, 3.
#[unsafe(no_mangle)]
pub extern "C" fn weszlagyo_new(slice: &mut [u8], locale: u8, isolating: u8) -> u8
    ensures value { result ≡ number_of (new_bundle slice.old locale isolating).answer }
    ensures slice_after { slice.new ≡ (new_bundle slice.old locale isolating).slice }
{
    match bundle::new(slice, locale, isolating) {
        Ok(_) => 0,
        Err(refusal) => refusal.number(),
    }
}

// Adds a resource whose entries yield to those of their ids; lists one Overriding record for each that does, and writes how many. Refusals: 4, 5, 6, 7.
#[unsafe(no_mangle)]
pub extern "C" fn weszlagyo_add_resource(
    slice: &mut [u8],
    image: &[u8],
    list: &mut [u8],
    count: &mut usize,
) -> u8
    ensures value { result ≡ number_of (add_resource slice.old image.now list.old).answer }
    ensures slice_after { slice.new ≡ (add_resource slice.old image.now list.old).slice }
    ensures list_after { list.new ≡ (add_resource slice.old image.now list.old).list }
    ensures count_after { count.new ≡ count_of (add_resource slice.old image.now list.old).answer count.old }
{
    match bundle::add_resource(slice, image, list) {
        Ok(n) => {
            *count = n;
            0
        }
        Err(refusal) => refusal.number(),
    }
}

// Adds a resource whose entries take their ids. Refusals: 4, 5, 6.
#[unsafe(no_mangle)]
pub extern "C" fn weszlagyo_add_resource_overriding(slice: &mut [u8], image: &[u8]) -> u8
    ensures value { result ≡ number_of (add_resource_overriding slice.old image.now).answer }
    ensures slice_after { slice.new ≡ (add_resource_overriding slice.old image.now).slice }
{
    match bundle::add_resource_overriding(slice, image) {
        Ok(_) => 0,
        Err(refusal) => refusal.number(),
    }
}

// Adds a function under an id that has no entry. Refusals: 4, 8, 9, 10, 6.
#[unsafe(no_mangle)]
pub extern "C" fn weszlagyo_add_function(slice: &mut [u8], id: &[u8], code: u8) -> u8
    ensures value { result ≡ number_of (add_function slice.old id.now code).answer }
    ensures slice_after { slice.new ≡ (add_function slice.old id.now code).slice }
{
    match bundle::add_function(slice, id, code) {
        Ok(_) => 0,
        Err(refusal) => refusal.number(),
    }
}

// Formats the message `id`, or its attribute where `has` is set, with an arguments image, and writes the formatting's five figures. Refusals:
// 4, 8, 11, 12, 13, 19 and 7, which change nothing; then 15, 7, 16, 17, which clear the three buffers.
#[unsafe(no_mangle)]
pub extern "C" fn weszlagyo_format<'a>(
    store: &'a [u8],
    id: &[u8],
    has: bool,
    attribute: &[u8],
    arguments: &'a [u8],
    text: &mut [u8],
    list: &mut [u8],
    work: &mut [u8],
    written: &mut usize,
    errors: &mut usize,
    begun: &mut usize,
    unfound: &mut u64,
    used: &mut usize,
) -> u8
    ensures used_value { handed (format store.now id.now (option_of has attribute.now) arguments.now
        (record { text = text.entry.now; list = list.old; work = work.old }))
        (record { written = written.entry.now; errors = errors.old; begun = begun.old; unfound = unfound.old; used = used.old })
        ≡ record {
          number = result;
          figures = record { written = written.exit.now; errors = errors.new; begun = begun.new; unfound = unfound.new; used = used.new };
          buffers = record { text = text.exit.now; list = list.new; work = work.new };
        } }
    ensures used_after { used.new ≡ used_after result (highest_use store.now id.now (option_of has attribute.now) arguments.now) used.old }
{
    match resolver::format::format(
        store,
        id,
        named(has, attribute),
        arguments,
        text,
        list,
        work,
    ) {
        Ok(f) => {
            *written = f.text;
            *errors = f.errors;
            *begun = f.begun;
            *unfound = f.unfound;
            *used = f.work;
            0
        }
        Err(failure) => failure.number(),
    }
}

// Formats the messages of a sheet image one after the other into the same text and the same list, and writes the five figures. Refusals: 4, 18 and 7, which
// change nothing; then, message by message, 11, 12, 13, 19, 15, 7, 16, 17, which clear the three buffers.
#[unsafe(no_mangle)]
pub extern "C" fn weszlagyo_format_sheet<'a>(
    store: &'a [u8],
    sheet: &'a [u8],
    text: &mut [u8],
    list: &mut [u8],
    work: &mut [u8],
    written: &mut usize,
    errors: &mut usize,
    begun: &mut usize,
    unfound: &mut u64,
    used: &mut usize,
) -> u8
    ensures used_value { handed (format_sheet store.now sheet.now
        (record { text = text.entry.now; list = list.old; work = work.old }))
        (record { written = written.entry.now; errors = errors.old; begun = begun.old; unfound = unfound.old; used = used.old })
        ≡ record {
          number = result;
          figures = record { written = written.exit.now; errors = errors.new; begun = begun.new; unfound = unfound.new; used = used.new };
          buffers = record { text = text.exit.now; list = list.new; work = work.new };
        } }
    ensures used_after { used.new ≡ used_after result (sheet_highest_use store.now sheet.now) used.old }
{
    match sheet_format::format_sheet(store, sheet, text, list, work) {
        Ok(sums) => {
            *written = sums.text;
            *errors = sums.errors;
            *begun = sums.begun;
            *unfound = sums.unfound;
            *used = sums.work;
            0
        }
        Err(failure) => failure.number(),
    }
}
