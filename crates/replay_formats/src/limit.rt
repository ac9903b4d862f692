// The longest arguments image, 65,536 bytes, which is too long for a vector: one text of 65,523 bytes. It is put twice, so that the text of the message is
// longer than a Str or an image can be.
use refusals::Refusal;
use resolver::format::{Failure, Figures, format};
use vectors::{all_are, differs, filled, headed, part};

// The message `a = { $n }{ $n }`, in English, isolating. Its figure is 0, and that is the workspace that it is lent.
fn formatted(args: &[u8], text: &mut [u8]) -> Result<Figures, Failure> {
    let mut list = [0xAA; 5];
    format(
        b"\x00\x00\x00\x28\x01\x00\x01\x00\x01\x01\x00\x00\x00\x1E\x01\x00\x01\x01\x00\x01a\x01\x00\x00\x00\x0C\x00\x02\x02\x06\x00\x01n\x02\x06\x00\x01n\x00\x00",
        b"a",
        None,
        args,
        text,
        &mut list,
        &mut [],
    )
}

// U+2068, letters, U+2069.
fn is_isolated(s: &[u8]) -> bool {
    let Some(rest) = s.strip_prefix(b"\xE2\x81\xA8") else {
        return false;
    };
    match rest.strip_suffix(b"\xE2\x81\xA9") {
        Some(text) => all_are(text, b'x'),
        None => false,
    }
}

// In a text buffer of so many bytes: is it the answer that is wanted, and the text as it leaves it, the argument between its marks each time, as before, or
// cleared?
fn agrees(args: &[u8], size: usize, wanted: Result<Figures, Failure>) -> bool {
    let mut room: [u8; 131058] = filled(0xAA);
    let Some(text) = room.get_mut(..size) else {
        return false;
    };
    let answer = formatted(args, text);
    answer == wanted
        && match answer {
            Ok(_) => text.chunks(65529).all(is_isolated),
            Err(Failure::Refused(_)) => all_are(text, 0xAA),
            Err(Failure::Cleared(_) | Failure::Other(_)) => all_are(text, 0),
        }
}

// The argument `n`, a text of so many x: the image is a byte too long; it fits; the text buffer is a byte too short.
pub(crate) fn limit() -> u64 {
    let figures = Figures {
        text: 131058,
        errors: 0,
        begun: 2,
        unfound: 0,
        work: 0,
    };
    let long: [u8; 65537] = headed(b'x', b"\x00\x01\x00\x01\x01\x00\x01\x00\x01n\x01\xFF\xF4");
    let args: [u8; 65537] = headed(b'x', b"\x00\x01\x00\x00\x01\x00\x01\x00\x01n\x01\xFF\xF3");
    let args = part(&args, 0, 65536);
    let malformed = Err(Failure::Refused(Refusal::MalformedArguments));
    let short = Err(Failure::Cleared(Refusal::ShortText));
    let a = differs(agrees(&long, 131058, malformed));
    let b = differs(agrees(args, 131058, Ok(figures)));
    let c = differs(agrees(args, 131057, short));
    a.wrapping_add(b).wrapping_add(c)
}
