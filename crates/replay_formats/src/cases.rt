// A case, formatted in buffers of several lengths, each time compared with what the oracle answered.
use crate::fields::{Case, Lengths};
use refusals::Refusal;
use resolver::format::{Failure, Figures};
use vectors::{all_are, begins, filled};

// How long the buffers are: as the case lends them, ample, just fitting, or one of them a byte short; and as the case lends them but for the workspace, which
// has the figure or a byte less.
#[derive(Clone, Copy, PartialEq, Eq)]
pub(crate) enum Way {
    AsLent,
    Ample,
    Fitting,
    ShortText,
    ShortList,
    ShortWork,
    Figure,
    UnderFigure,
}

impl Way {
    // Nothing, where the buffer that would be short is not used. What finishes has a list.
    pub(crate) fn lengths(self, case: Case) -> Option<Lengths> {
        let figures = case.figures();
        let fitting = Lengths {
            text: figures.text,
            list: case.list().len(),
            work: figures.work,
        };
        Some(match self {
            Way::AsLent => case.lent,
            Way::Ample => Lengths {
                text: 65537,
                list: 8192,
                work: 8192,
            },
            Way::Fitting => fitting,
            Way::ShortText => Lengths {
                text: fitting.text.checked_sub(1)?,
                ..fitting
            },
            Way::ShortList => Lengths {
                list: fitting.list.wrapping_sub(1),
                ..fitting
            },
            Way::ShortWork => Lengths {
                work: fitting.work.checked_sub(1)?,
                ..fitting
            },
            Way::Figure => Lengths {
                work: fitting.work,
                ..case.lent
            },
            Way::UnderFigure => Lengths {
                work: fitting.work.checked_sub(1)?,
                ..case.lent
            },
        })
    }

    // The number of the answer that is wanted, 0 of a formatting that finishes.
    fn wanted(self, case: Case) -> u8 {
        match self {
            Way::AsLent => case.answer(),
            Way::ShortText => Refusal::ShortText.number(),
            Way::ShortList => Refusal::ShortList.number(),
            Way::ShortWork | Way::UnderFigure => Refusal::ShortWorkspace.number(),
            Way::Ample | Way::Fitting | Way::Figure => 0,
        }
    }
}

// What a refusal leaves in every byte: AA, as it was, before the run, and 0 in it. Of 7 the one before is a list too short for its header. Of a sheet those
// about a message are met in the run.
fn leaves(case: Case, answer: u8, list: usize) -> u8 {
    let in_run = match answer {
        4 | 18 => false,
        7 => 5 <= list,
        8 | 11 | 12 | 13 | 19 => case.is_sheet(),
        _ => true,
    };
    if in_run { 0 } else { 0xAA }
}

// Is it the answer that is wanted, with the figures that are told?
fn is_wanted(answer: Result<Figures, Failure>, wanted: u8, left: u8, figures: Figures) -> bool {
    match answer {
        Ok(f) => wanted == 0 && f == figures,
        Err(Failure::Refused(refusal)) => left == 0xAA && refusal.number() == wanted,
        Err(Failure::Cleared(refusal)) => left == 0 && refusal.number() == wanted,
        Err(Failure::Other(_)) => false,
    }
}

// Does a case agree, in buffers of these lengths, of which none is longer than there is room? In every byte that was lent: finished, text and list stand at the front, later bytes are as before, and the
// workspace is zero.
pub(crate) fn agrees(case: Case, way: Way, n: Lengths) -> bool {
    let mut texts: [u8; 65537] = filled(0xAA);
    let mut lists: [u8; 8192] = filled(0xAA);
    let mut works: [u8; 8192] = filled(0xAA);
    let Some(text) = texts.get_mut(..n.text) else {
        return false;
    };
    let Some(list) = lists.get_mut(..n.list) else {
        return false;
    };
    let Some(work) = works.get_mut(..n.work) else {
        return false;
    };
    let answer = case.format(text, list, work);
    let wanted = way.wanted(case);
    let left = leaves(case, wanted, n.list);
    if !is_wanted(answer, wanted, left, case.figures()) {
        return false;
    }
    if wanted == 0 {
        return begins(text, case.text()) && begins(list, case.list()) && all_are(work, 0);
    }
    all_are(text, left) && all_are(list, left) && all_are(work, left)
}
