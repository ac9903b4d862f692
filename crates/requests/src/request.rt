// Where the parts of a request stand, by the lengths in the bytes: an image that was checked is not checked again.
ghost use Rattle.std.specs.Prelude.{◌≡◌};
ghost use Rattle.requests.specs.Relations.Outline.{asked_of, image_spans, spans_at};

use crate::Spans;

// The arguments image at a position, behind an Id (from id up to id_end) and an attribute: as many bytes as its first four state.
fn read_image(
    s: &[u8],
    id: usize,
    id_end: usize,
    attribute: Option<(usize, usize)>,
    at: usize,
) -> Option<Spans>
    ensures { result ≡ asked_of (image_spans id id_end attribute s.now at) }
{
    let (n, _) = records::read_u32(s, at)?;
    let end = records::skip_bytes(s, at, n)?;
    Some(Spans {
        id,
        id_end,
        attribute,
        image: at,
        end,
    })
}

// The request at a position: message Id, attribute Flag (and Id), arguments image.
pub fn read_request(s: &[u8], at: usize) -> Option<Spans>
    ensures { result ≡ asked_of (spans_at s.now at) }
{
    let (id, id_end) = records::read_str(s, at)?;
    let (flag, p) = records::read_byte(s, id_end)?;
    match flag {
        0 => read_image(s, id, id_end, None, p),
        1 => {
            let (start, end) = records::read_str(s, p)?;
            read_image(s, id, id_end, Some((start, end)), end)
        }
        _ => None,
    }
}
