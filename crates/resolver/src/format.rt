// Formatting: a message's value or attribute, from a stored bundle.
ghost use Rattle.std.specs.Prelude.{◌≡◌, ◌%◌};
ghost use Rattle.resolution.specs.Format.{format, is_id_or_none};
ghost use Rattle.resolver.specs.Formats.{answer_of, gave, IsNamed, ByName};
ghost use Rattle.theorems.specs.HighestUse.{highest_use};
ghost use Rattle.theorems.specs.Figures.{FigureIs};
ghost use Rattle.state.specs.Progress.{scope_of};
ghost use Rattle.resolver.specs.Relations.Runs.{message_in, PatternFound, RunOn, closed};
ghost use Rattle.records.specs.Optional.{lent as lent_bytes};
ghost use Rattle.resolver.specs.Relations.Meets.{env, lent};

use crate::lent::resolve;
use arguments::check_arguments;
use buffers::fill_zero;
use entries::Holder;
use entries::entry::find_holder;
use entries::message::find_part;
use images::check_store;
use refusals::Refusal;
use rules::is_id;
use state::{Progress, Scope};
use texts::put_header;
use values::Resolved;

// What a formatting carries.
#[derive(Clone, Copy, PartialEq, Eq)]
pub struct Figures {
    pub text: usize,
    pub errors: usize,
    pub begun: usize,
    pub unfound: u64,
    pub work: usize,
}

// Why a formatting is refused: before its run, where nothing changes, or in it, where the three buffers are cleared. Where `finish` is lent a state that was
// refused with a number whose lowest byte is no refusal's, that byte; a formatting refuses by name.
#[derive(Clone, Copy, PartialEq, Eq)]
pub enum Failure {
    Refused(Refusal),
    Cleared(Refusal),
    Other(u8),
}

impl Failure {
    ghost use Rattle.std.specs.Prelude.{◌≡◌, ◌%◌, Err};
    ghost use Rattle.resolution.specs.Format.{refused_running};
    ghost use Rattle.resolver.specs.Formats.{answer_of, failure_number, IsNamed};

    // In a run that was refused with a number, of which the answer has the lowest byte.
    #[tactic(auto, using(refusals::proofs::Numbers::numbered_some), unfolding(crate::specs::Formats::answer_of, crate::specs::Formats::IsNamed))]
    fn cleared(refused: usize) -> Failure
        ensures value { answer_of (Err result) ≡ refused_running (refused % 256) }
        ensures named { IsNamed (Err result) }
    {
        let number = (refused % 256) as u8;
        match Refusal::numbered(number) {
            Some(why) => Failure::Cleared(why),
            None => Failure::Other(number),
        }
    }

    // The number of its refusal.
    #[tactic(auto, unfolding(crate::specs::Formats::failure_number))]
    pub fn number(self) -> u8
        ensures { result ≡ failure_number self }
    {
        match self {
            Failure::Refused(why) | Failure::Cleared(why) => why.number(),
            Failure::Other(number) => number,
        }
    }
}

impl From<Refusal> for Failure {
    ghost use Rattle.resolver.specs.declared.format.Failure.TheVariants as failure;

    ghost from_gives = { λ why e. e ≡ failure.Refused why };

    fn from(why: Refusal) -> Failure {
        Failure::Refused(why)
    }
}

// An absent attribute is an Id enough.
fn is_id_or_none(attribute: Option<&[u8]>) -> bool
    ensures { result ≡ is_id_or_none (lent_bytes attribute.entry) }
{
    match attribute {
        Some(id) => is_id(id),
        None => true,
    }
}

// The pattern of a message's value or attribute. Refusals: 11, 12.
pub fn find_message(store: &[u8], id: &[u8], attribute: Option<&[u8]>) -> Result<usize, Refusal>
    ensures { result ≡ message_in store.now id.now (lent_bytes attribute.entry) }
{
    match find_holder(store, id) {
        Some(Holder::Message(entry)) => {
            find_part(store, entry, attribute).ok_or(Refusal::NoPattern)
        }
        Some(Holder::Term(_)) => Err(Refusal::NoMessage),
        Some(Holder::Function) => Err(Refusal::NoMessage),
        None => Err(Refusal::NoMessage),
    }
}

// The pattern that is asked for. Refusals: 4, 8, 11, 12.
fn find_pattern(store: &[u8], id: &[u8], attribute: Option<&[u8]>) -> Result<usize, Refusal>
    ensures { PatternFound store.now id.now (lent_bytes attribute.entry) result }
{
    check_store(store).ok_or(Refusal::MalformedStore)?;
    if !is_id(id) {
        return Err(Refusal::NoId);
    }
    if !is_id_or_none(attribute) {
        return Err(Refusal::NoId);
    }
    find_message(store, id, attribute)
}

// The run of the pattern at q, from where text, list and counts stand: nothing is begun, nothing is travelled, and there are no term's arguments.
pub fn run_on<'a>(
    store: &'a [u8],
    args: &'a [u8],
    places: &'a [usize; 256],
    text: &mut [u8],
    list: &mut [u8],
    work: &mut [u8],
    st: &mut Progress,
    q: usize,
) -> Scope
    ensures { RunOn (env store.now (lent args.now places.now)) q text.old list.old work.old st.old text.new list.new work.new st.new × (result ≡ scope_of st.new) }
{
    let mut trail = [0usize; 102];
    let mut value = Resolved::new();
    st.enter(&mut trail, q);
    resolve(
        store, args, places, text, list, work, &mut trail, st, &mut value, q,
    )
}

// What the buffers hold in the end: the workspace is zero; text and list too, where the run was refused, and else the list has its header. So many placeables
// were begun.
pub fn finish(
    st: &Progress,
    begun: usize,
    text: &mut [u8],
    list: &mut [u8],
    work: &mut [u8],
) -> Result<Figures, Failure>
    ensures work_after { gave result text.exit.now list.new work.new ≡ closed st.now begun (record { text = text.entry.now; list = list.old; work = work.old }) }
    ensures named { IsNamed result }
{
    fill_zero(work);
    if st.is_refused() {
        fill_zero(text);
        fill_zero(list);
        return Err(Failure::cleared(st.refused));
    }
    put_header(list, st.list_at);
    Ok(Figures {
        text: st.text_at,
        errors: st.errors,
        begun,
        unfound: st.unfound as u64,
        work: st.high,
    })
}

// Formats the message `id`, or its attribute where one is named, with an arguments image. The workspace figure is the highest use, whatever buffers are lent.
pub fn format<'a>(
    store: &'a [u8],
    id: &[u8],
    attribute: Option<&[u8]>,
    args: &'a [u8],
    text: &mut [u8],
    list: &mut [u8],
    work: &mut [u8],
) -> Result<Figures, Failure>
    ensures work_after { gave result text.exit.now list.new work.new ≡ format store.now id.now (lent_bytes attribute.entry) args.now (record { text = text.entry.now; list = list.old; work = work.old }) }
    ensures figure_is { FigureIs (answer_of result) (highest_use store.now id.now (lent_bytes attribute.entry) args.now) }
    ensures named { ByName result }
{
    let q = find_pattern(store, id, attribute)?;
    let mut places = [0usize; 256];
    check_arguments(args, &mut places)?;
    if list.len() < 5 {
        return Err(Failure::Refused(Refusal::ShortList));
    }
    let mut st = Progress::new(work.len());
    let scope = run_on(store, args, &places, text, list, work, &mut st, q);
    finish(&st, scope.begun, text, list, work)
}
