// A reader of records carries its image along with its position: each of its methods is a read of `records` there.
//
// Other crates call `read_marked` and `read_size`, whose parameters are a plain slice and a number.
#![tactic(auto)]

ghost use Rattle.std.specs.Prelude.{◌≡◌, ◌-◌, length};
ghost use Rattle.records.specs.Relations.Answer.{num_of};
ghost use Rattle.records.specs.Bytes.{byte_at, number_at, span_at};
ghost use Rattle.reader.specs.Relations.Rows.{end_of, row_at, sized_at};

// An image, and a position in it.
#[derive(Clone, Copy)]
pub struct Reader<'a> {
    pub image: &'a [u8],
    pub at: usize,
}

// What three reads in a row answer, each from past the one before. Where one is malformed, those after it mean nothing.
#[derive(Clone, Copy)]
pub struct Row {
    pub first: Option<(usize, usize)>,
    pub second: Option<(usize, usize)>,
    pub third: Option<(usize, usize)>,
}

// What a u32 that counts bytes answers, where those bytes start, and how many the image has from there on.
#[derive(Clone, Copy)]
pub struct Sized {
    pub size: Option<(usize, usize)>,
    pub at: usize,
    pub left: usize,
}

impl<'a> Reader<'a> {
    // How many bytes are left: none past the end.
    pub(crate) fn left(self) -> usize
        ensures { result ≡ length self.entry.image.now - self.entry.at }
    {
        self.image.len().saturating_sub(self.at)
    }

    // A byte as a number, and the position past it.
    pub(crate) fn read_byte(self) -> Option<(usize, usize)>
        ensures { result ≡ num_of (byte_at self.entry.image.now self.entry.at) }
    {
        records::read_byte(self.image, self.at)
    }

    pub(crate) fn read_u16(self) -> Option<(usize, usize)>
        ensures { result ≡ num_of (number_at 2 self.entry.image.now self.entry.at) }
    {
        records::read_u16(self.image, self.at)
    }

    pub(crate) fn read_u32(self) -> Option<(usize, usize)>
        ensures { result ≡ num_of (number_at 4 self.entry.image.now self.entry.at) }
    {
        records::read_u32(self.image, self.at)
    }

    // A Str as a part of the image: where its bytes start, and the position past them.
    pub(crate) fn read_str(self) -> Option<(usize, usize)>
        ensures { result ≡ num_of (span_at self.entry.image.now self.entry.at) }
    {
        records::read_str(self.image, self.at)
    }

    // The reader past what was read; where that was malformed it stays.
    pub(crate) fn past(self, read: Option<(usize, usize)>) -> Reader<'a>
        ensures { (result.image ≡ self.entry.image) × (result.at ≡ end_of read self.entry.at) }
    {
        let at = match read {
            Some((_, end)) => end,
            None => self.at,
        };
        Reader { at, ..self }
    }
}

// A Str, a byte and a Str: a reference's Id, Flag and attribute; a named argument's Id, tag and literal. What was read before a malformed part stands in
// the row, so no read ends the function.
pub fn read_marked(image: &[u8], at: usize) -> Row
    ensures { result ≡ row_at span_at byte_at span_at image.now at }
{
    let start = Reader { image, at };
    let first = start.read_str();
    let marked = start.past(first);
    let second = marked.read_byte();
    let third = marked.past(second).read_str();
    Row {
        first,
        second,
        third,
    }
}

// A u32 that counts bytes, and what is left for them.
pub fn read_size(image: &[u8], at: usize) -> Sized
    ensures { result ≡ sized_at image.now at }
{
    let start = Reader { image, at };
    let size = start.read_u32();
    let rest = start.past(size);
    Sized {
        size,
        at: rest.at,
        left: rest.left(),
    }
}
