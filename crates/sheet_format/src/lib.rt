// A sheet in one call: store and sheet image are checked once, and its messages are formatted one after the other into the same text and the same list.
#![tactic(auto)]

mod message;

ghost use Rattle.std.specs.Prelude.{◌≡◌};
ghost use Rattle.resolver.specs.Formats.{answer_of, gave, ByName};
ghost use Rattle.theorems.specs.Figures.{FigureIs};
ghost use Rattle.sheet_theorems.specs.HighestUse.{sheet_highest_use};
ghost use Rattle.sheet_format.specs.Relations.Sheets.{Begins, SheetRan};
ghost use Rattle.sheets.specs.Sheet.{format_sheet};

use images::check_store;
use message::run_message;
use records::read_u16;
use refusals::Refusal;
use requests::{check_sheet, read_request};
use resolver::format::{Failure, Figures, finish};
use state::Progress;

// The messages of a sheet, up to the first that is refused. How many placeables they began.
fn run_messages<'a>(
    store: &'a [u8],
    sheet: &'a [u8],
    text: &mut [u8],
    list: &mut [u8],
    work: &mut [u8],
    st: &mut Progress,
) -> usize
    requires { Begins store.now sheet.now list.old work.old st.old }
    ensures { SheetRan store.now sheet.now text.old list.old work.old text.new list.new work.new st.new result }
{
    let Some((count, from)) = read_u16(sheet, 5) else {
        return 0;
    };
    let mut at = from;
    let mut begun = 0;
    for _ in 0..count {
        let Some(q) = read_request(sheet, at) else {
            return begun;
        };
        let n = run_message(store, sheet, text, list, work, st, q);
        if st.is_refused() {
            return begun;
        }
        begun += n;
        at = q.end;
    }
    begun
}

// Formats the messages of a sheet image. Refusals: 4, 18 and 7, which change nothing; then, message by message, 11, 12, 13, 19, 15, 7, 16, 17, which clear the three
// buffers. The workspace figure is the largest of the messages' highest uses, whatever buffers are lent.
pub fn format_sheet<'a>(
    store: &'a [u8],
    sheet: &'a [u8],
    text: &mut [u8],
    list: &mut [u8],
    work: &mut [u8],
) -> Result<Figures, Failure>
    ensures work_after { gave result text.exit.now list.new work.new ≡ format_sheet store.now sheet.now (record { text = text.entry.now; list = list.old; work = work.old }) }
    ensures figure_is { FigureIs (answer_of result) (sheet_highest_use store.now sheet.now) }
    ensures named { ByName result }
{
    check_store(store).ok_or(Refusal::MalformedStore)?;
    check_sheet(sheet).ok_or(Refusal::MalformedSheet)?;
    if list.len() < 5 {
        return Err(Failure::Refused(Refusal::ShortList));
    }
    let mut st = Progress::new(work.len());
    let begun = run_messages(store, sheet, text, list, work, &mut st);
    finish(&st, begun, text, list, work)
}
