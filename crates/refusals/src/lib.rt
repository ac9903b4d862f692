// The refusals of the operations: each by its name, and by the number that C and Rust know it by.
#![tactic(auto)]

ghost use Rattle.std.specs.Prelude.{◌≡◌};
ghost use Rattle.refusals.specs.Numbers.{number_of, numbered};

// Why an operation was refused. There is no refusal 14.
#[derive(Clone, Copy, PartialEq, Eq)]
pub enum Refusal {
    // the slice has under 9 bytes
    ShortSlice = 1,
    // the locale is above 3
    NoLocale = 2,
    // the isolating byte is above 1
    NoFlag = 3,
    MalformedStore = 4,
    MalformedResource = 5,
    // the store has no room for the item
    FullStore = 6,
    // the buffer of the error list is too short
    ShortList = 7,
    NoId = 8,
    // the code of the function is not 1
    NoCode = 9,
    // the id of the function has an entry
    HeldId = 10,
    NoMessage = 11,
    // the message has no such value or attribute
    NoPattern = 12,
    MalformedArguments = 13,
    // the text passes its buffer
    ShortText = 15,
    ShortWorkspace = 16,
    // a minimumFractionDigits is above 19
    ManyDigits = 17,
    MalformedSheet = 18,
    UnorderedArguments = 19,
}

impl Refusal {
    // The number of a refusal.
    #[tactic(auto, unfolding(crate::specs::Numbers::number_of))]
    pub fn number(self) -> u8
        ensures { result ≡ number_of self }
    {
        self as u8
    }

    // The refusal of a number, if there is one.
    #[tactic(auto, unfolding(crate::specs::Numbers::numbered, crate::specs::Numbers::refusals, crate::specs::Numbers::number_of))]
    pub fn numbered(n: u8) -> Option<Refusal>
        ensures { result ≡ numbered n }
    {
        match n {
            1 => Some(Refusal::ShortSlice),
            2 => Some(Refusal::NoLocale),
            3 => Some(Refusal::NoFlag),
            4 => Some(Refusal::MalformedStore),
            5 => Some(Refusal::MalformedResource),
            6 => Some(Refusal::FullStore),
            7 => Some(Refusal::ShortList),
            8 => Some(Refusal::NoId),
            9 => Some(Refusal::NoCode),
            10 => Some(Refusal::HeldId),
            11 => Some(Refusal::NoMessage),
            12 => Some(Refusal::NoPattern),
            13 => Some(Refusal::MalformedArguments),
            15 => Some(Refusal::ShortText),
            16 => Some(Refusal::ShortWorkspace),
            17 => Some(Refusal::ManyDigits),
            18 => Some(Refusal::MalformedSheet),
            19 => Some(Refusal::UnorderedArguments),
            _ => None,
        }
    }
}
