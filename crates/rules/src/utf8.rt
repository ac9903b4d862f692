// Well-formed UTF-8, and the bytes of a text element.
ghost use Rattle.std.specs.Prelude.{◌≡◌};
ghost use Rattle.rules.specs.Rules.{utf8_first, utf8_low, utf8_high, utf8_rest, utf8_step, is_utf8, is_text};

// The states are the numbers of `utf8_step` in specs/, as table 3-7 of the Unicode standard has its rows: names for them would say no more.
#[tactic(auto, using(std::proofs::lemmas::Bool::Decides::nat_tests), unfolding(crate::specs::Rules::utf8_first))]
fn utf8_first(b: u8) -> u8
    ensures { result ≡ utf8_first b }
{
    // ASCII is told first: as a row of the match it would be told last, behind a jump by a table.
    if b <= 0x7F {
        return 0;
    }
    match b {
        0xC2..=0xDF => 1,
        0xE0 => 4,
        0xED => 5,
        0xE1..=0xEF => 2,
        0xF0 => 6,
        0xF1..=0xF3 => 3,
        0xF4 => 7,
        _ => 8,
    }
}

#[tactic(auto, using(std::proofs::lemmas::Bool::Decides::nat_tests), unfolding(crate::specs::Rules::utf8_low))]
fn utf8_low(q: u8) -> u8
    ensures { result ≡ utf8_low q }
{
    match q {
        4 => 0xA0,
        6 => 0x90,
        _ => 0x80,
    }
}

#[tactic(auto, using(std::proofs::lemmas::Bool::Decides::nat_tests), unfolding(crate::specs::Rules::utf8_high))]
fn utf8_high(q: u8) -> u8
    ensures { result ≡ utf8_high q }
{
    match q {
        5 => 0x9F,
        7 => 0x8F,
        _ => 0xBF,
    }
}

#[tactic(auto, using(std::proofs::lemmas::Bool::Decides::nat_tests), unfolding(crate::specs::Rules::utf8_rest))]
fn utf8_rest(q: u8) -> u8
    ensures { result ≡ utf8_rest q }
{
    match q {
        1 => 0,
        0 | 2 | 4 | 5 => 1,
        3 | 6 | 7 => 2,
        _ => 8,
    }
}

#[tactic(auto, using(std::proofs::lemmas::Bool::Decides::nat_tests), unfolding(crate::specs::Rules::utf8_step))]
fn utf8_step(q: u8, b: u8) -> u8
    ensures { result ≡ utf8_step q b }
{
    if q == 0 {
        utf8_first(b)
    } else if utf8_low(q) <= b && b <= utf8_high(q) {
        utf8_rest(q)
    } else {
        8
    }
}

// Are these bytes well-formed UTF-8?
pub fn is_utf8(s: &[u8]) -> bool
    ensures { result ≡ is_utf8 s.now }
{
    let mut q = 0;
    for b in s {
        q = utf8_step(q, *b);
    }
    q == 0
}

// Are these the bytes of a text element?
#[tactic(auto, using(std::proofs::lemmas::Bool::Decides::nat_tests), unfolding(crate::specs::Rules::is_text))]
pub fn is_text(s: &[u8]) -> bool
    ensures { result ≡ is_text s.now }
{
    !s.is_empty() && is_utf8(s)
}
