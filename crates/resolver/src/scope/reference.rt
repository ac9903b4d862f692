// References: the Id and the attribute, and what stands in the place of one that is missing.
ghost use Rattle.std.specs.Prelude.{◌≡◌, List, [], ◌∷◌, ◌++◌, true, false, ℕ, ◌+◌, ◌-◌, ◌≤◌, ◌<◌, length};
ghost use Rattle.std.proofs.Math.Option.{Option, some, none};
ghost use Rattle.texts.specs.Relations.Report.{referred_of};
ghost use Rattle.records.specs.Optional.{lent};
ghost use Rattle.resolver.specs.Relations.Leaves.{ReferenceIs, RefErrorAt, attribute_in};

use crate::scope::put::put_error;
use arguments::text_of;
use reader::read_marked;
use records::read_byte;
use state::{Progress, Referring};
use texts::Referred;
use writes::list::list_reference;

// The Id and the attribute of a message or a term reference.
pub(crate) fn read_reference(store: &[u8], at: usize) -> Option<Referring>
    ensures { ReferenceIs store.now at result }
{
    let row = read_marked(store, at);
    let (from, to) = row.first?;
    let (flag, past) = row.second?;
    if flag == 0 {
        return Some(Referring {
            from,
            to,
            attribute: None,
            end: past,
        });
    }
    let (start, end) = row.third?;
    Some(Referring {
        from,
        to,
        attribute: Some((start, end)),
        end,
    })
}

// The bytes of a reference's attribute, if it has one.
pub(crate) fn attribute_of<'a>(store: &'a [u8], r: Referring) -> Option<&'a [u8]>
    ensures { lent result ≡ attribute_in store.now r.attribute }
{
    let (start, end) = r.attribute?;
    Some(text_of(store, start, end))
}

// `write_ref_error` of a message or a term reference, its tag at `at`.
pub(crate) fn ref_error(
    store: &[u8],
    text: &mut [u8],
    list: &mut [u8],
    work: &mut [u8],
    st: &mut Progress,
    kind: Referred,
    at: usize,
)
    ensures { RefErrorAt store.now at (referred_of kind) text.old list.old work.old st.old text.new list.new work.new st.new }
{
    let Some((_, p)) = read_byte(store, at) else {
        return;
    };
    let Some(r) = read_reference(store, p) else {
        return;
    };
    let from = r.from;
    let to = r.to;
    list_reference(list, st, kind, &store[from..to], attribute_of(store, r));
    put_error(store, text, work, st, at);
}
