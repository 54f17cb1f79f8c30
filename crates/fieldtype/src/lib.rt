// One type of a descriptor, read leniently (document 01, "Descriptors").
#![tactic(auto)]

ghost use Rattle.std.specs.Prelude.{◌≡◌};
ghost use Rattle.fieldtype.specs.Types.{is_wide, field_type_at, type_slots};

use bytesearch::{after_run, find_byte};

// One type: its letter, its dimensions, where its class name lies (an empty place where it has none), and the index after it.
#[derive(Clone, Copy)]
pub struct FieldType {
    pub letter: u8,
    pub dims: usize,
    pub from: usize,
    pub to: usize,
    pub next: usize,
}

// The type at an index: any number of dimensions, and a name up to the first semicolon, which may be empty.
#[tactic(auto, using(bytesearch::proofs::Search::place_inside, crate::proofs::OneType::read))]
pub fn parse_field_type(text: &[u8], at: usize) -> Option<FieldType>
    ensures { result ≡ field_type_at text.now at }
{
    let base = after_run(text, b'[', at);
    let letter = *text.get(base)?;
    let dims = base - at;
    let from = base + 1;
    if letter == b'L' {
        let to = find_byte(text, b';', from)?;
        return Some(FieldType {
            letter,
            dims,
            from,
            to,
            next: to + 1,
        });
    }
    find_byte(b"BCDFIJSZ", letter, 0)?;
    Some(FieldType {
        letter,
        dims,
        from,
        to: from,
        next: from,
    })
}

// Whether a letter is that of a type of two slots.
pub fn is_wide(letter: u8) -> bool
    ensures { result ≡ is_wide letter }
{
    letter == b'J' || letter == b'D'
}

// The slots of a type.
#[tactic(auto, unfolding(crate::specs::Types::type_slots))]
pub fn type_slots(t: FieldType) -> usize
    ensures { result ≡ type_slots t }
{
    if t.dims == 0 && is_wide(t.letter) {
        2
    } else {
        1
    }
}
