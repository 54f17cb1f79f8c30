// Rows on names: what the lenient readers and the writers of names make of descriptors, texts at the edge of the room, and the
// names of locals.
use crate::{Told, told, told_with};
use notation::first_bytes;
use text::put_decimal_at;

// A descriptor whose parameters, the text, take so many slots.
fn readable(descriptor: &[u8], text: usize, slots: usize) -> Told {
    let field = descriptor::slots_of_field_type(descriptor);
    match descriptor::return_type_slots(descriptor) {
        Some(n) => told_with(text, 0, slots, n, field),
        None => told_with(text, 1, slots, field, 0),
    }
}

// A descriptor whose parameters can't be read.
fn unreadable(descriptor: &[u8]) -> Told {
    let field = descriptor::slots_of_field_type(descriptor);
    match descriptor::return_type_slots(descriptor) {
        Some(n) => told(2, n, field, 0),
        None => told(3, field, 0, 0),
    }
}

// descriptor | text => its parameters and their slots, the return's slots, and the slots as a field
fn descriptor(out: &mut [u8], descriptor: &[u8]) -> Told {
    match descriptor::parse_method_params(descriptor) {
        Some(params) => {
            let text = names::put_params_at(out, 0, descriptor);
            readable(descriptor, text, params.slots)
        }
        None => unreadable(descriptor),
    }
}

// class | name | place | room | length of the output => the place after the name, and the output
fn class(out: &mut [u8], name: &[u8], at: usize, room: usize, size: usize) -> Told {
    let next = classname::put_class_at(first_bytes(out, room), at, name);
    told_with(size, 0, next, 0, 0)
}

// decimal | number | place | length of the output => the place after the digits, and the output
fn decimal(out: &mut [u8], n: usize, at: usize, size: usize) -> Told {
    let next = put_decimal_at(first_bytes(out, size), at, n);
    told_with(size, 0, next, 0, 0)
}

// static | what | signature | count of records | records | local | index of the load => the local's name, in quotes
// instance | the same
fn local(
    out: &mut [u8],
    instance: bool,
    signature: &[u8],
    count: usize,
    records: &[u8],
    slot: usize,
    load: usize,
) -> Told {
    let end = locals::describe_local(out, 0, records, count, signature, instance, slot, load);
    told_with(end, 0, 0, 0, 0)
}

// What the library answers to a row about names.
pub fn tell(out: &mut [u8], kind: usize, x: &[u8], y: &[u8], a: usize, b: usize, c: usize) -> Told {
    match kind {
        7 => descriptor(out, x),
        8 => class(out, x, a, b, c),
        9 => decimal(out, a, b, c),
        10 => local(out, false, x, a, y, b, c),
        _ => local(out, true, x, a, y, b, c),
    }
}
