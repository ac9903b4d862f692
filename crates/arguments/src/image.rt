// Arguments images: checking them.
ghost use Rattle.std.specs.Prelude.{◌≡◌, true, ◌&&◌, length, is_ok};
ghost use Rattle.records.specs.Relations.Answer.{next_of};
ghost use Rattle.records.specs.Images.{argument_value_at, argument_at};
ghost use Rattle.order.specs.Accepted.{judge};
ghost use Rattle.arguments.specs.Relations.Checked.{refusal_of, answer_of, outcome_of, stands_after, run_from};
ghost use Rattle.arguments.specs.Relations.Places.{Noted, Notes};

use crate::number::{check_argument_number, has_least_scale};
use order::is_before;
use records::Rule;
use refusals::Refusal;

// Arguments that were checked: where they end, where the last of them stands, and whether they are in order.
#[derive(Clone, Copy)]
pub(crate) struct Checked {
    pub at: usize,
    pub last: usize,
    pub fine: bool,
}

// An argument's value: 1 Str; 2 number; 3 none.
fn check_argument_value(s: &[u8], at: usize) -> Option<usize>
    ensures { result ≡ next_of (argument_value_at s.now at) }
{
    let (tag, p) = records::read_byte(s, at)?;
    if tag == 1 {
        records::check_ruled(s, p, Rule::Utf8)
    } else if tag == 2 {
        check_argument_number(s, p)
    } else if tag == 3 {
        Some(p)
    } else {
        None
    }
}

// An argument: Id and value.
fn check_argument(s: &[u8], at: usize) -> Option<usize>
    ensures { result ≡ next_of (argument_at s.now at) }
{
    let e = records::check_id(s, at)?;
    check_argument_value(s, e)
}

// Does the argument at `at` stand in order: its scale is the least, and its name comes after that of the argument at `last`, if one stands there?
fn in_order(s: &[u8], last: usize, at: usize) -> bool
    ensures { result ≡ stands_after s.now last at }
{
    let Some((p, e)) = records::read_str(s, at) else {
        return false;
    };
    if !has_least_scale(s, e) {
        return false;
    }
    let Some((a, b)) = records::read_str(s, last) else {
        return true;
    };
    is_before(&s[a..b], &s[p..e])
}

// Both, the second only where the first is so.
fn still(s: &[u8], fine: bool, last: usize, at: usize) -> bool
    ensures { result ≡ fine && stands_after s.now last at }
{
    fine && in_order(s, last, at)
}

// `count` arguments behind those that were checked before.
fn check_run(s: &[u8], before: Checked, count: usize) -> Option<Checked>
    ensures { result ≡ run_from count s.now before.at before.last before.fine }
{
    let mut run = before;
    for _ in 0..count {
        let at = check_argument(s, run.at)?;
        let fine = still(s, run.fine, run.last, run.at);
        run = Checked {
            at,
            last: run.at,
            fine,
        };
    }
    Some(run)
}

// All arguments, in runs: the first of each is noted.
fn check_all_arguments(
    s: &[u8],
    from: usize,
    count: usize,
    places: &mut [usize; 256],
) -> Option<Checked>
    ensures { (result ≡ run_from count s.now from (length s.now) true) × Notes s.now from count places.new result }
{
    let step = count / 256 + 16;
    let mut run = Checked {
        at: from,
        last: s.len(),
        fine: true,
    };
    for place in 0..count.div_ceil(step) {
        places[place] = run.at;
        run = check_run(s, run, step.min(count - place * step))?;
    }
    Some(run)
}

// The arguments of an image that is all of its slice.
fn check_image(s: &[u8], places: &mut [usize; 256]) -> Option<Checked>
    ensures { (answer_of (outcome_of result) ≡ refusal_of (judge s.now)) × (is_ok (outcome_of result) ≡ true → Noted s.now places.new) }
{
    let head = records::read_head(s, 0)?;
    let run = check_all_arguments(s, head.from, head.count, places)?;
    let e = records::ends_at(0, head.size, run.at)?;
    if e == s.len() { Some(run) } else { None }
}

// An arguments image that is all of its slice: is it accepted, or refused as malformed, or as unordered? Where it is accepted, the places of every
// (count / 256 + 16)th argument are noted, for find_argument.
pub fn check_arguments(s: &[u8], places: &mut [usize; 256]) -> Result<(), Refusal>
    ensures { (answer_of result ≡ refusal_of (judge s.now)) × (is_ok result ≡ true → Noted s.now places.new) }
{
    let run = check_image(s, places).ok_or(Refusal::MalformedArguments)?;
    if run.fine {
        Ok(())
    } else {
        Err(Refusal::UnorderedArguments)
    }
}
