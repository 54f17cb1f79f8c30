// One type of a strict descriptor, at a place of a text (document 01, "Descriptors", strict).
// Every function takes any text and any place.
#![tactic(auto)]

ghost use Rattle.std.specs.Prelude.{◌≡◌, drop};
ghost use Rattle.jtype.specs.OneType.{semicolon_from, unnamed_type, class_type, element, type_at};

use bytesearch::{after_run, find_byte};
use jletter::is_base;
use refusal::Refusal;

// A type that was read: its base letter, its dimensions, and where its class name stands in the text (0 and 0 without one).
#[derive(Clone, Copy)]
pub struct TypeRecord {
    pub letter: u64,
    pub dimensions: u64,
    pub start: u64,
    pub size: u64,
}

impl TypeRecord {
    pub const CLASS: u64 = 76;

    pub const VOID: u64 = 86;
}

// What reading a type at a place finds: the type and the place after it, or none at a `)`, which ends the parameters.
pub type Next = Result<Option<(TypeRecord, usize)>, Refusal>;

// A type without a name, the place after it being next.
#[tactic(auto, unfolding(crate::specs::OneType::unnamed_type))]
fn unnamed(letter: u8, depth: usize, next: usize) -> Next
    ensures { result ≡ unnamed_type letter depth next }
{
    let t = TypeRecord {
        letter: letter as u64,
        dimensions: depth as u64,
        start: 0,
        size: 0,
    };
    Ok(Some((t, next)))
}

// A class type behind depth brackets, whose name starts at from.
#[tactic(auto, unfolding(crate::specs::OneType::class_type))]
fn class_type(text: &[u8], depth: usize, from: usize) -> Next
    ensures { result ≡ class_type depth from (semicolon_from text.now from) }
{
    let Some(end) = find_byte(text, b';', from) else {
        return Err(Refusal::MissingSemicolon);
    };
    if end == from {
        return Err(Refusal::EmptyClassName);
    }
    let t = TypeRecord {
        letter: TypeRecord::CLASS,
        dimensions: depth as u64,
        start: from as u64,
        size: (end - from) as u64,
    };
    Ok(Some((t, end + 1)))
}

// What stands at a place behind depth brackets.
#[tactic(auto, using(crate::proofs::Laws::element_at_end, crate::proofs::Laws::element_next))]
fn element_at(text: &[u8], depth: usize, at: usize) -> Next
    ensures { result ≡ element depth (drop at text.now) at }
{
    if text.len() <= at {
        return Err(Refusal::UnexpectedEnd);
    }
    let letter = text[at];
    if letter == b'L' {
        return class_type(text, depth, at + 1);
    }
    if letter == b')' {
        if depth == 0 {
            return Ok(None);
        }
        return Err(Refusal::CloseAfterBracket);
    }
    if letter == b'V' {
        if 0 < depth {
            return Err(Refusal::ArrayOfVoid);
        }
        return unnamed(letter, depth, at + 1);
    }
    if is_base(letter) {
        return unnamed(letter, depth, at + 1);
    }
    Err(Refusal::Unrecognised)
}

// The type at a place.
pub fn get_next(text: &[u8], at: usize) -> Next
    ensures { result ≡ type_at text.now at }
{
    let place = after_run(text, b'[', at);
    let depth = place - at;
    if 255 < depth {
        return Err(Refusal::TooManyDimensions);
    }
    element_at(text, depth, place)
}
