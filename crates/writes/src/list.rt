// Errors listed: a record at the list's end, or refused.
ghost use Rattle.std.specs.Prelude.{◌≡◌, true};
ghost use Rattle.records.specs.Errors.{no_value, reference, too_many_placeables};
ghost use Rattle.records.specs.Optional.{lent};
ghost use Rattle.texts.specs.Relations.Report.{plain_of, referred_of};
ghost use Rattle.state.specs.Setters.{begun_s};
ghost use Rattle.writes.specs.Written.{list_after, listed, listed_missing};

use buffers::NoRoom;
use refusals::Refusal;
use state::{Progress, one_more};
use texts::{Plain, Referred, put_no_value, put_plain, put_reference};

// One record more on the list, or refused.
fn list_after(st: &mut Progress, wrote: Result<usize, NoRoom>)
    ensures { st.new ≡ list_after wrote st.old }
{
    let errors = one_more(st.errors);
    match wrote {
        Ok(e) => st.set_list(e, errors),
        Err(NoRoom) => st.refuse(Refusal::ShortList),
    }
}

pub fn list_plain(list: &mut [u8], st: &mut Progress, error: Plain)
    ensures { (list.new, st.new) ≡ listed (plain_of error) list.old st.old }
{
    if st.is_refused() {
        return;
    }
    let w = put_plain(list, st.list_at, error);
    list_after(st, w);
}

pub fn list_no_value(list: &mut [u8], st: &mut Progress, id: &[u8])
    ensures { (list.new, st.new) ≡ listed (no_value id.now) list.old st.old }
{
    if st.is_refused() {
        return;
    }
    let w = put_no_value(list, st.list_at, id);
    list_after(st, w);
}

pub fn list_reference(
    list: &mut [u8],
    st: &mut Progress,
    kind: Referred,
    id: &[u8],
    attribute: Option<&[u8]>,
)
    ensures { (list.new, st.new) ≡ listed (reference (referred_of kind) id.now (lent attribute.entry)) list.old st.old }
{
    if st.is_refused() {
        return;
    }
    let w = put_reference(list, st.list_at, kind, id, attribute);
    list_after(st, w);
}

// A missing variable is listed outside of terms.
pub fn list_variable(list: &mut [u8], st: &mut Progress, name: &[u8])
    ensures { (list.new, st.new) ≡ listed_missing name.now list.old st.old }
{
    if st.local {
        return;
    }
    list_reference(list, st, Referred::Variable, name, None);
}

// The 101st placeable is begun and not expanded.
pub fn list_too_many(list: &mut [u8], st: &mut Progress)
    ensures { (list.new, st.new) ≡ listed too_many_placeables list.old (begun_s 101 true st.old) }
{
    st.begin_last();
    list_plain(list, st, Plain::TooManyPlaceables);
}
