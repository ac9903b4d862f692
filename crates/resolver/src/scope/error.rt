// `write_error` by positions: what stands in the place of an expression that has an error.
ghost use Rattle.std.specs.Prelude.{◌≡◌};
ghost use Rattle.resolver.specs.Relations.Leaves.{PiecesAt, nameless, reference_pieces};

use crate::scope::reference::read_reference;
use records::{read_byte, read_str};
use state::Referring;

// A part of the words, one of the store, one of the words, one of the store. The words are `{???{-{$.()`.
#[derive(Clone, Copy)]
pub(crate) struct Pieces {
    pub head: usize,
    pub head_end: usize,
    pub from: usize,
    pub to: usize,
    pub joint: usize,
    pub joint_end: usize,
    pub start: usize,
    pub end: usize,
}

// Of an expression that has no name: `{???`
fn no_name() -> Pieces
    ensures { result ≡ nameless }
{
    Pieces {
        head: 0,
        head_end: 4,
        from: 0,
        to: 0,
        joint: 0,
        joint_end: 0,
        start: 0,
        end: 0,
    }
}

// Of a message or a term: its Id, and a dot and its attribute if it has one.
fn reference_pieces(head: usize, stop: usize, r: Option<Referring>) -> Pieces
    ensures { result ≡ reference_pieces head stop r }
{
    let Some(x) = r else {
        return no_name();
    };
    match x.attribute {
        Some((start, end)) => Pieces {
            head,
            head_end: stop,
            from: x.from,
            to: x.to,
            joint: 8,
            joint_end: 9,
            start,
            end,
        },
        None => Pieces {
            head,
            head_end: stop,
            from: x.from,
            to: x.to,
            joint: 0,
            joint_end: 0,
            start: 0,
            end: 0,
        },
    }
}

// Of the inline expression at `at`.
pub(crate) fn error_pieces(store: &[u8], at: usize) -> Pieces
    ensures { PiecesAt store.now at result }
{
    let Some((tag, p)) = read_byte(store, at) else {
        return no_name();
    };
    if tag == 4 {
        return reference_pieces(0, 1, read_reference(store, p));
    }
    if tag == 5 {
        return reference_pieces(4, 6, read_reference(store, p));
    }
    let Some((a, e)) = read_str(store, p) else {
        return no_name();
    };
    if tag == 3 {
        return Pieces {
            head: 0,
            head_end: 1,
            from: a,
            to: e,
            joint: 9,
            joint_end: 11,
            start: 0,
            end: 0,
        };
    }
    if tag == 6 {
        return Pieces {
            head: 6,
            head_end: 8,
            from: a,
            to: e,
            joint: 0,
            joint_end: 0,
            start: 0,
            end: 0,
        };
    }
    no_name()
}
