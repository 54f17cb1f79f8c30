// Descriptors, read leniently (document 01, "Descriptors"; document 02, request 2).
#![tactic(auto)]

ghost use Rattle.std.specs.Prelude.{◌≡◌, Some};
ghost use Rattle.descriptor.specs.Readers.{parameters, parameter_at, slots_behind, return_slots, field_slots};

use fieldtype::{is_wide, parse_field_type, type_slots};

// The parameters of a call: their slots, and where their list ends.
#[derive(Clone, Copy)]
pub struct Params {
    pub slots: usize,
    pub end: usize,
}

// The parameters of a call: all of them readable, until the closing parenthesis or the end.
#[tactic(auto, using(crate::proofs::Turns::called), unfolding(crate::specs::Readers::parameters, fieldtype::specs::Types::types_of))]
pub fn parse_method_params(descriptor: &[u8]) -> Option<Params>
    ensures { result ≡ parameters descriptor.now }
{
    if *descriptor.first()? != b'(' {
        return None;
    }
    let mut at: usize = 1;
    let mut slots: usize = 0;
    // A place stays: a turn goes on behind a type, not at the next index.
    while at < descriptor.len() && descriptor[at] != b')' {
        let t = parse_field_type(descriptor, at)?;
        slots += type_slots(t);
        at = t.next;
    }
    Some(Params { slots, end: at })
}

// The number of the parameter of a signature that starts at a slot.
#[tactic(auto, using(crate::proofs::Turns::sought), unfolding(crate::specs::Readers::parameter_at, fieldtype::specs::Types::types_of))]
pub fn parameter_at(descriptor: &[u8], instance: bool, slot: usize) -> Option<usize>
    ensures { result ≡ parameter_at descriptor.now instance slot }
{
    let mut at: usize = 1;
    let mut first = usize::from(instance);
    let mut k: usize = 1;
    // A place stays: a turn goes on behind a type, not at the next index.
    while at < descriptor.len() && descriptor[at] != b')' {
        let t = parse_field_type(descriptor, at)?;
        if first == slot {
            return Some(k);
        }
        first += type_slots(t);
        k += 1;
        at = t.next;
    }
    None
}

// The slots of what a method returns whose parameters end at an index. That may be any number, so one is added with a check.
#[tactic(auto, unfolding(crate::specs::Readers::slots_behind))]
pub fn slots_behind(descriptor: &[u8], end: usize) -> Option<usize>
    ensures { result ≡ slots_behind descriptor.now (Some end) }
{
    let letter = *descriptor.get(end.checked_add(1)?)?;
    match letter {
        b'V' => Some(0),
        b'J' | b'D' => Some(2),
        _ => Some(1),
    }
}

// The slots of what a method returns.
#[tactic(auto, using(crate::proofs::Return::behind_end, crate::proofs::Return::behind_none))]
pub fn return_type_slots(descriptor: &[u8]) -> Option<usize>
    ensures { result ≡ return_slots descriptor.now }
{
    let params = parse_method_params(descriptor)?;
    slots_behind(descriptor, params.end)
}

// The slots of a field.
#[tactic(auto, unfolding(crate::specs::Readers::field_slots))]
pub fn slots_of_field_type(descriptor: &[u8]) -> usize
    ensures { result ≡ field_slots descriptor.now }
{
    let Some(letter) = descriptor.first() else {
        return 1;
    };
    if is_wide(*letter) { 2 } else { 1 }
}
