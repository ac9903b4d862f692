// The counts of formattings, by the way that they were tried, and what is printed of them.
use crate::cases::{Way, agrees};
use crate::fields::Case;
use std::io;
use vectors::counts::Counts;

const WAYS: [Way; 8] = [
    Way::AsLent,
    Way::Ample,
    Way::Fitting,
    Way::ShortText,
    Way::ShortList,
    Way::ShortWork,
    Way::Figure,
    Way::UnderFigure,
];

// Formattings by their way; cases, those that are refused and those that are unknown; comparisons that differ, and the first case that does.
#[derive(Clone, Copy)]
pub(crate) struct Report {
    tried: Counts<8>,
    cases: u64,
    refused: u64,
    unknown: u64,
    differ: u64,
    first: Option<u64>,
}

impl Report {
    pub(crate) fn new() -> Self {
        Report {
            tried: Counts::new(),
            cases: 0,
            refused: 0,
            unknown: 0,
            differ: 0,
            first: None,
        }
    }

    fn try_case(&mut self, case: Case, way: Way) {
        let Some(lengths) = way.lengths(case) else {
            return;
        };
        if !agrees(case, way, lengths) {
            self.differ = self.differ.wrapping_add(1);
            self.first = self.first.or(Some(self.cases));
        }
        self.tried.add(way as usize, 1);
    }

    // A formatting that finishes is tried in buffers of other lengths too.
    pub(crate) fn compare(&mut self, case: Case) {
        if case.answer() != 0 {
            self.refused = self.refused.wrapping_add(1);
            return self.try_case(case, Way::AsLent);
        }
        for way in WAYS {
            self.try_case(case, way);
        }
    }

    pub(crate) fn replay(&mut self, case: &[u8]) {
        self.cases = self.cases.wrapping_add(1);
        match Case::read(case) {
            Some(case) => self.compare(case),
            None => self.unknown = self.unknown.wrapping_add(1),
        }
    }

    // How many formattings were tried as their cases lend, and how many comparisons differ.
    pub(crate) fn as_lent(&self) -> u64 {
        self.tried.at(Way::AsLent as usize)
    }

    pub(crate) fn differ(&self) -> u64 {
        self.differ
    }

    // The last line stands only where a case differs.
    pub(crate) fn show(&self, rt: &impl Print, formattings: &str) -> io::Result<()> {
        for (way, words) in [
            (Way::AsLent, formattings),
            (Way::Ample, "with ample buffers"),
            (Way::Fitting, "with buffers that just fit"),
            (Way::ShortText, "with a text one byte short"),
            (Way::ShortList, "with a list one byte short"),
            (Way::ShortWork, "with a workspace one byte short"),
            (
                Way::Figure,
                "with text and list as lent, a workspace of the figure",
            ),
            (Way::UnderFigure, "and with one byte less of it"),
        ] {
            let tried = self.tried.at(way as usize);
            println!(rt; "{tried} {words}")?;
        }
        let (refused, unknown, differ) = (self.refused, self.unknown, self.differ);
        println!(rt; "{refused} refused\n{unknown} unknown\n{differ} differ")?;
        if let Some(first) = self.first {
            println!(rt; "{first} is the first case that differs")?;
        }
        Ok(())
    }
}
