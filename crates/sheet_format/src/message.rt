// One message of a sheet.
ghost use Rattle.std.specs.Prelude.{◌≡◌};
ghost use Rattle.requests.specs.Relations.Shown.{Inside};
ghost use Rattle.resolver.specs.Relations.Runs.{message_in};
ghost use Rattle.sheet_format.specs.Relations.Sheets.{id_of, attribute_of, MessageRan};

use arguments::check_arguments;
use refusals::Refusal;
use requests::Spans;
use resolver::format::{find_message, run_on};
use state::Progress;

// The pattern that a request asks for. Refusals: 11, 12.
fn find_request(store: &[u8], sheet: &[u8], q: Spans) -> Result<usize, Refusal>
    requires { Inside sheet.now q }
    ensures { result ≡ message_in store.now (id_of sheet.now q) (attribute_of sheet.now q) }
{
    let attribute = match q.attribute {
        Some((start, end)) => Some(&sheet[start..end]),
        None => None,
    };
    find_message(store, &sheet[q.id..q.id_end], attribute)
}

// The request's refusal by its number, 11, 12, 13 or 19, or its run, which goes on from where text, list and counts stand. How many placeables it began.
pub(crate) fn run_message<'a>(
    store: &'a [u8],
    sheet: &'a [u8],
    text: &mut [u8],
    list: &mut [u8],
    work: &mut [u8],
    st: &mut Progress,
    q: Spans,
) -> usize
    requires { Inside sheet.now q }
    ensures { MessageRan store.now sheet.now q text.old list.old work.old st.old text.new list.new work.new st.new result }
{
    let at = match find_request(store, sheet, q) {
        Ok(at) => at,
        Err(missing) => {
            st.refuse_with(usize::from(missing.number()));
            return 0;
        }
    };
    let args = &sheet[q.image..q.end];
    let mut places = [0usize; 256];
    match check_arguments(args, &mut places) {
        Ok(()) => run_on(store, args, &places, text, list, work, st, at).begun,
        Err(why) => {
            st.refuse_with(usize::from(why.number()));
            0
        }
    }
}
