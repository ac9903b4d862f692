// The fields of a case. Of one message: u8 operation 40 or 41, Blob store, Str id, Flag, Str attribute, Blob arguments; in 41 three u32 lengths; the
// answer, and behind a 0 Blob text, Blob list, u16 errors, u8 begun, u32 unfound, u32 use of the workspace. Of a sheet: u8 operation 50, Blob store, Blob
// sheet, three u32 lengths; the answer, and behind a 0 the same with u32 errors and u32 begun.
use resolver::format::{Failure, Figures, format};
use sheet_format::format_sheet;
use vectors::{blob, byte, flag, past, past_blob, past_string, string, tail, u16_at, u32_at};

// What is formatted, and how long the buffers are that are lent: 4,096 bytes each for a message, or as the case says.
#[derive(Clone, Copy, PartialEq, Eq)]
enum Operation {
    Message,
    MessageAsLent,
    Sheet,
}

// How long the three buffers are.
#[derive(Clone, Copy)]
pub(crate) struct Lengths {
    pub(crate) text: usize,
    pub(crate) list: usize,
    pub(crate) work: usize,
}

// A case: its fields, what it lends, and what is told of it, which starts with the answer.
#[derive(Clone, Copy)]
pub(crate) struct Case<'a> {
    operation: Operation,
    fields: &'a [u8],
    pub(crate) lent: Lengths,
    pub(crate) told: &'a [u8],
}

// Of two Blobs behind one byte the second, and the place past it.
fn second(s: &[u8]) -> &[u8] {
    blob(s, past_blob(s, 1))
}

fn past_second(s: &[u8]) -> usize {
    past_blob(s, past_blob(s, 1))
}

// The number so many bytes behind a place.
fn number(s: &[u8], at: usize, n: usize) -> usize {
    u32_at(s, past(s, at, n)) as usize
}

// Where a message's attribute stands, behind the store, the id and the flag that it has one.
fn attribute_at(s: &[u8]) -> usize {
    past(s, past_string(s, past_blob(s, 1)), 1)
}

impl Operation {
    // By its number, where it is known.
    fn of(case: &[u8]) -> Option<Operation> {
        match byte(case, 0) {
            40 => Some(Operation::Message),
            41 => Some(Operation::MessageAsLent),
            50 => Some(Operation::Sheet),
            _ => None,
        }
    }

    // Past the arguments, or the sheet.
    fn lengths_at(self, s: &[u8]) -> usize {
        match self {
            Operation::Sheet => past_second(s),
            _ => past_blob(s, past_string(s, attribute_at(s))),
        }
    }
}

impl<'a> Case<'a> {
    // Nothing, where the operation is unknown.
    pub(crate) fn read(s: &'a [u8]) -> Option<Case<'a>> {
        let operation = Operation::of(s)?;
        let at = operation.lengths_at(s);
        let (lent, answer) = match operation {
            Operation::Message => (
                Lengths {
                    text: 4096,
                    list: 4096,
                    work: 4096,
                },
                at,
            ),
            _ => (
                Lengths {
                    text: number(s, at, 0),
                    list: number(s, at, 4),
                    work: number(s, at, 8),
                },
                past(s, at, 12),
            ),
        };
        Some(Case {
            operation,
            fields: s,
            lent,
            told: tail(s, answer),
        })
    }

    pub(crate) fn is_sheet(&self) -> bool {
        self.operation == Operation::Sheet
    }

    // The number that is told: 0 of a formatting that finishes, or that of its refusal.
    pub(crate) fn answer(&self) -> u8 {
        byte(self.told, 0)
    }

    pub(crate) fn text(&self) -> &'a [u8] {
        blob(self.told, 1)
    }

    pub(crate) fn list(&self) -> &'a [u8] {
        second(self.told)
    }

    // The figures that are told of a formatting that finishes.
    pub(crate) fn figures(&self) -> Figures {
        let told = self.told;
        let text = self.text().len();
        let at = past_second(told);
        if self.is_sheet() {
            return Figures {
                text,
                errors: number(told, at, 0),
                begun: number(told, at, 4),
                unfound: number(told, at, 8) as u64,
                work: number(told, at, 12),
            };
        }
        Figures {
            text,
            errors: u16_at(told, at) as usize,
            begun: usize::from(byte(told, past(told, at, 2))),
            unfound: number(told, at, 3) as u64,
            work: number(told, at, 7),
        }
    }

    // The product, on what the case holds.
    pub(crate) fn format(
        &self,
        text: &mut [u8],
        list: &mut [u8],
        work: &mut [u8],
    ) -> Result<Figures, Failure> {
        let s = self.fields;
        let store = blob(s, 1);
        if self.is_sheet() {
            return format_sheet(store, second(s), text, list, work);
        }
        let id = past_blob(s, 1);
        let at = attribute_at(s);
        let attribute = flag(s, past_string(s, id)).then_some(string(s, at));
        let arguments = blob(s, past_string(s, at));
        format(store, string(s, id), attribute, arguments, text, list, work)
    }
}
