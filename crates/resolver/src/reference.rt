// What a message or a term reference leads to, decided on numbers: a pattern, or the error that stands for it.
ghost use Rattle.std.specs.Prelude.{◌≡◌, ◌+◌};
ghost use Rattle.resolver.specs.Relations.Leaves.{ReferenceIs};
ghost use Rattle.resolver.specs.Relations.Targets.{TargetAt, holder_of, lacking_of, count_if};
ghost use Rattle.resolver.specs.Relations.Parts.{TermFlag};

use crate::scope::reference::{attribute_of, read_reference};
use entries::Holder;
use entries::entry::find_holder;
use entries::message::find_part;
use records::read_byte;
use state::{Progress, Referring};

// A pattern; a message without a value, by its Id; nothing, and whether the lookup counts as lost; or no reference stands there.
#[derive(Clone, Copy)]
pub(crate) enum Target {
    At(usize),
    NoValue(usize, usize),
    Missing(bool),
    Bad,
}

// The Id has no entry of the kind that is asked for; and whether it has none of any kind, so that its lookup counts as lost.
#[derive(Clone, Copy)]
pub(crate) struct NoEntry {
    pub lost: bool,
}

// The reference whose tag is at `at`.
pub(crate) fn tagged_reference(store: &[u8], at: usize) -> Option<Referring>
    ensures { ReferenceIs store.now (at + 1) result }
{
    if store.len() <= at {
        return None;
    }
    read_reference(store, at + 1)
}

// The entry of a holder that is of the kind asked for, a term or a message.
#[tactic(auto, unfolding(crate::specs::Relations::Targets::holder_of))]
fn holder_of(term: bool, held: Option<Holder>) -> Result<usize, NoEntry>
    ensures { result ≡ holder_of term held }
{
    match held {
        Some(Holder::Message(entry)) => {
            if term {
                return Err(NoEntry { lost: false });
            }
            Ok(entry)
        }
        Some(Holder::Term(entry)) => {
            if term {
                return Ok(entry);
            }
            Err(NoEntry { lost: false })
        }
        Some(Holder::Function) => Err(NoEntry { lost: false }),
        None => Err(NoEntry { lost: true }),
    }
}

// What stands for a part that the entry lacks: of a message its value, else nothing.
fn lacking(term: bool, r: Referring) -> Target
    ensures { result ≡ lacking_of term r }
{
    if term {
        return Target::Missing(false);
    }
    match r.attribute {
        Some(_) => Target::Missing(false),
        None => Target::NoValue(r.from, r.to),
    }
}

// The target of the reference whose tag is at `at`: of a term reference, or of a message reference.
pub(crate) fn target_of(store: &[u8], at: usize, term: bool) -> Target
    ensures { TargetAt term store.now at result }
{
    let Some(r) = tagged_reference(store, at) else {
        return Target::Bad;
    };
    let from = r.from;
    let to = r.to;
    match holder_of(term, find_holder(store, &store[from..to])) {
        Ok(entry) => match find_part(store, entry, attribute_of(store, r)) {
            Some(q) => Target::At(q),
            None => lacking(term, r),
        },
        Err(NoEntry { lost }) => Target::Missing(lost),
    }
}

// A lookup unfound more, if it was lost.
pub(crate) fn count_if(st: &mut Progress, lost: bool)
    ensures { st.new ≡ count_if lost st.old }
{
    if lost {
        st.count_unfound();
    }
}

// The Flag of a term reference's arguments, its tag at `at`, and the position past it.
pub(crate) fn term_flag(store: &[u8], at: usize) -> Option<(usize, usize)>
    ensures { TermFlag store.now at result }
{
    let r = tagged_reference(store, at)?;
    read_byte(store, r.end)
}
