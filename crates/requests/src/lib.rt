// Sheet images: checking them, and reading where the parts of a request stand. Each function takes every slice whatsoever.
//
// The check finds most of its proofs by itself, over the definitions that stand in the next line.
#![tactic(auto, using(std::proofs::lemmas::Bool::Decides::nat_tests), unfolding(records::specs::Got::after, records::specs::Got::test, records::specs::Got::pick, records::specs::Relations::Answer::next_of, records::specs::Relations::Answer::num_of, records::specs::Images::whole_of, records::specs::Images::max_image, crate::specs::Image::arguments_bytes_at, crate::specs::Image::request_at, crate::specs::Image::sheet_at, crate::specs::Image::sheet_of, crate::specs::Image::max_sheet, crate::specs::Image::min_arguments, crate::specs::Relations::Outline::spans, crate::specs::Relations::Outline::image_spans, crate::specs::Relations::Outline::attribute_spans, crate::specs::Relations::Outline::spans_at, crate::specs::Relations::Outline::asked_of))]

pub mod image;
pub mod request;

pub use image::check_sheet;
pub use request::read_request;

// The most bytes of a sheet image.
pub const MAX_SHEET: usize = 1048576;

// The fewest bytes of an arguments image.
pub const MIN_ARGUMENTS: usize = 7;

// Where the parts of a request stand in its sheet image: the bytes of the message's Id, those of the attribute's if it has one, and the arguments image,
// each from a position up to another.
#[derive(Clone, Copy)]
pub struct Spans {
    pub id: usize,
    pub id_end: usize,
    pub attribute: Option<(usize, usize)>,
    pub image: usize,
    pub end: usize,
}
