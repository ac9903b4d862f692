// The cases of stores, images, arguments and sheet images: does the library answer what the oracle answered.
use arguments::{Given, check_arguments, find_argument, text_of};
use images::{check_resource, check_store};
use refusals::Refusal;
use requests::check_sheet;
use unescape::unescape_into;
use vectors::{blob, byte, filled, headed, part, past_blob, past_string, string, tail, u64_at};

// The number of an answer: 0 where it is done, or that of its refusal.
pub(crate) fn number<T: Drop>(answer: Result<T, Refusal>) -> u8 {
    match answer {
        Ok(_) => 0,
        Err(refusal) => refusal.number(),
    }
}

// What an image is checked as: unordered are arguments in whatever order.
#[derive(Clone, Copy, PartialEq, Eq)]
pub(crate) enum Image {
    Store,
    Resource,
    Sheet,
    Arguments,
    Unordered,
}

// By the kind in a damage case: the number of the refusal that such an image meets.
impl From<u8> for Image {
    fn from(kind: u8) -> Self {
        match kind {
            4 => Image::Store,
            5 => Image::Resource,
            18 => Image::Sheet,
            13 => Image::Unordered,
            _ => Image::Arguments,
        }
    }
}

impl Image {
    fn check(self, s: &[u8]) -> Result<(), Refusal> {
        let (checked, refusal) = match self {
            Image::Store => (check_store(s), Refusal::MalformedStore),
            Image::Resource => (check_resource(s), Refusal::MalformedResource),
            Image::Sheet => (check_sheet(s), Refusal::MalformedSheet),
            Image::Arguments => return check_arguments(s, &mut [0; 256]),
            Image::Unordered => match check_arguments(s, &mut [0; 256]) {
                Err(Refusal::UnorderedArguments) => return Ok(()),
                checked => return checked,
            },
        };
        checked.ok_or(refusal)?;
        Ok(())
    }
}

// Blob, u8 answer: 0, or the number of the refusal.
pub(crate) fn image_case(image: Image, s: &[u8]) -> bool {
    number(image.check(blob(s, 1))) == byte(s, past_blob(s, 1))
}

// What was found, against kind (0 missing, 1 string, 2 number, 3 none) and value (Str; or sign Flag, u64, u8 scale).
fn is_told(told: &[u8], args: &[u8], name: &[u8]) -> bool {
    let mut places = [0; 256];
    if check_arguments(args, &mut places).is_err() {
        return false;
    }
    let kind = byte(told, 0);
    match find_argument(args, &places, name) {
        None => kind == 0,
        Some(Given::Text(a, e)) => kind == 1 && text_of(args, a, e) == string(told, 1),
        Some(Given::Number(sign, digits, scale)) => {
            kind == 2
                && byte(told, 1) == u8::from(sign)
                && u64_at(told, 2) == digits
                && byte(told, 10) == scale
        }
        Some(Given::Nothing) => kind == 3,
    }
}

// Blob, Str name, kind, value.
pub(crate) fn find_case(s: &[u8]) -> bool {
    let at = past_blob(s, 1);
    is_told(tail(s, past_string(s, at)), blob(s, 1), string(s, at))
}

// Str string literal, Str text: the text that the literal reads as.
pub(crate) fn unescape_case(s: &[u8]) -> bool {
    let mut text: [u8; 8192] = filled(0xAA);
    match unescape_into(string(s, 1), &mut text, 0) {
        Ok(n) => part(&text, 0, n) == string(s, past_string(s, 1)),
        Err(_) => false,
    }
}

// The bit at a place of a bit map, the highest of a byte first.
fn bit(s: &[u8], at: usize) -> bool {
    let shift = 7 - at % 8;
    (byte(s, at / 8) >> shift) % 2 == 1
}

// The byte at a place has this value, or so many bytes are left.
#[derive(Clone, Copy)]
enum Damage {
    Changed(usize, u8),
    Cut(usize),
}

// Of the 255 other values of a byte the one at a place.
fn other(was: u8, place: u8) -> u8 {
    if place < was {
        return place;
    }
    place.saturating_add(1)
}

// The damage that a bit stands for: a bit for each place and each other value there, then one for each shorter length.
fn damage_at(image: &[u8], at: usize) -> Damage {
    let place = at / 255;
    if place < image.len() {
        return Damage::Changed(place, other(image[place], (at % 255) as u8));
    }
    Damage::Cut(at - image.len() * 255)
}

// A copy of an image, with the byte at a place changed.
fn changed(image: &[u8], place: usize, value: u8) -> [u8; 128] {
    let mut copy = headed(0, image);
    if place < 128 {
        copy[place] = value;
    }
    copy
}

// Is the damaged image still accepted?
fn stays(kind: Image, image: &[u8], at: usize) -> bool {
    match damage_at(image, at) {
        Damage::Changed(place, value) => {
            let copy = changed(image, place, value);
            kind.check(part(&copy, 0, image.len())).is_ok()
        }
        Damage::Cut(length) => kind.check(part(image, 0, length)).is_ok(),
    }
}

// How many of the damaged images, from a bit map's first up to its `count`th, are not as their bits say.
fn wrong(kind: Image, image: &[u8], bits: &[u8], count: usize) -> usize {
    (0..count)
        .filter(|at| stays(kind, image, *at) != bit(bits, *at))
        .count()
}

// Kind byte, Blob image of at most 120 bytes, Blob bit map: how many images the case stands for, and how many of them differ.
pub(crate) fn damage_case(s: &[u8]) -> (u64, u64) {
    let image = blob(s, 2);
    if 120 < image.len() {
        return (0, 0);
    }
    let count = image.len() * 256;
    let differ = wrong(
        Image::from(byte(s, 1)),
        image,
        blob(s, past_blob(s, 2)),
        count,
    );
    (count as u64, differ as u64)
}
