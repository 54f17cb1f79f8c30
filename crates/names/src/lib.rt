// Class names, type names and parameter lists, as the messages print them (document 01, "Action and cause").
#![tactic(auto)]

ghost use Rattle.std.specs.Prelude.{◌≡◌, [], ◌++◌, ◌%◌, ◌≤◌, ◌<◌, eqb, length, take, get_or};
ghost use Rattle.basics.specs.Choice.{pick};
ghost use Rattle.text.specs.Writing.{Written};
ghost use Rattle.names.specs.Commas.{comma_before};
ghost use Rattle.names.specs.Names.{base_names, base_name, bracket_pairs, element_name, type_name, parameter_names};

use bytesearch::find_byte;
use classname::put_class_name;
use fieldtype::FieldType;
use text::{put, put_at};

// A base type's name: its length, its bytes and zeros.
#[derive(Clone, Copy)]
pub struct BaseName {
    pub len: usize,
    pub bytes: [u8; 7],
}

// In the order of the letters B C D F I J S Z. A place stays: document 01 asks for one constant table of names and lengths ("Expected form
// in each place"), so this is no `match`.
const BASE_NAMES: [BaseName; 8] = [
    BaseName {
        len: 4,
        bytes: *b"byte\0\0\0",
    },
    BaseName {
        len: 4,
        bytes: *b"char\0\0\0",
    },
    BaseName {
        len: 6,
        bytes: *b"double\0",
    },
    BaseName {
        len: 5,
        bytes: *b"float\0\0",
    },
    BaseName {
        len: 3,
        bytes: *b"int\0\0\0\0",
    },
    BaseName {
        len: 4,
        bytes: *b"long\0\0\0",
    },
    BaseName {
        len: 5,
        bytes: *b"short\0\0",
    },
    BaseName {
        len: 7,
        bytes: *b"boolean",
    },
];

fn base_row(k: usize) -> BaseName
    requires { k < 8 }
    ensures { (take result.len result.bytes ≡ get_or base_names k []) × (result.len ≤ 7) × (length result.bytes ≡ 7) }
{
    BASE_NAMES[k]
}

// Writes the name of a base type over the start of the output. Answers its length.
fn put_base_name(out: &mut [u8], letter: u8) -> usize
    ensures { Written 0 (base_name letter) out.old result out.new }
{
    let Some(k) = find_byte(b"BCDFIJSZ", letter, 0) else {
        return 0;
    };
    let row = base_row(k);
    let bytes = row.bytes;
    let len = row.len;
    put(out, &bytes[..len])
}

// Writes a pair of brackets for each dimension over the start of the output. Answers their length.
fn put_brackets(out: &mut [u8], dims: usize) -> usize
    ensures { Written 0 (bracket_pairs dims) out.old result out.new }
{
    let all = dims.saturating_add(dims);
    let room = all.min(out.len());
    for i in 0..room {
        out[i] = bracket(i);
    }
    all
}

fn bracket(i: usize) -> u8
    ensures { result ≡ pick (eqb (i % 2) 0) 91 93 }
{
    if i % 2 == 0 { b'[' } else { b']' }
}

// Writes a class or a base type over the start of the output. A class name is handed on as a part of the descriptor.
#[tactic(auto, unfolding(crate::specs::Names::element_name))]
fn put_element(out: &mut [u8], descriptor: &[u8], t: FieldType) -> usize
    requires { (t.from ≤ t.to) × (t.to ≤ length descriptor.now) }
    ensures { Written 0 (element_name descriptor.now t) out.old result out.new }
{
    if t.letter == b'L' {
        return put_class_name(out, &descriptor[t.from..t.to]);
    }
    put_base_name(out, t.letter)
}

fn put_element_at(out: &mut [u8], at: usize, descriptor: &[u8], t: FieldType) -> usize
    requires { (t.from ≤ t.to) × (t.to ≤ length descriptor.now) }
    ensures { Written at (element_name descriptor.now t) out.old result out.new }
{
    let from = at.min(out.len());
    let n = put_element(&mut out[from..], descriptor, t);
    at.saturating_add(n)
}

fn put_brackets_at(out: &mut [u8], at: usize, dims: usize) -> usize
    ensures { Written at (bracket_pairs dims) out.old result out.new }
{
    let from = at.min(out.len());
    let n = put_brackets(&mut out[from..], dims);
    at.saturating_add(n)
}

// Writes a type from a place on. Answers the place after it.
fn put_type_at(out: &mut [u8], at: usize, descriptor: &[u8], t: FieldType) -> usize
    requires { (t.from ≤ t.to) × (t.to ≤ length descriptor.now) }
    ensures { Written at (type_name descriptor.now t) out.old result out.new }
{
    let next = put_element_at(out, at, descriptor, t);
    put_brackets_at(out, next, t.dims)
}

// Writes the comma between two parameters; the first of them stands at index 1 of its descriptor.
fn put_comma_at(out: &mut [u8], at: usize, index: usize) -> usize
    ensures { Written at (comma_before index) out.old result out.new }
{
    if index == 1 {
        return at;
    }
    put_at(out, at, b", ")
}

// Writes one parameter from a place on, behind its comma.
fn put_param_at(out: &mut [u8], at: usize, descriptor: &[u8], index: usize, t: FieldType) -> usize
    requires { (t.from ≤ t.to) × (t.to ≤ length descriptor.now) }
    ensures { Written at (comma_before index ++ type_name descriptor.now t) out.old result out.new }
{
    let next = put_comma_at(out, at, index);
    put_type_at(out, next, descriptor, t)
}

// Writes the names of a descriptor's parameters from a place on. Answers the place after them.
#[tactic(auto, using(crate::proofs::Left::listed))]
pub fn put_params_at(out: &mut [u8], at: usize, descriptor: &[u8]) -> usize
    ensures { Written at (parameter_names descriptor.now) out.old result out.new }
{
    let mut index: usize = 1;
    let mut next = at;
    // A place stays: a turn goes on behind a type, not at the next index.
    while index < descriptor.len() && descriptor[index] != b')' {
        let Some(t) = fieldtype::parse_field_type(descriptor, index) else {
            return next;
        };
        next = put_param_at(out, next, descriptor, index, t);
        index = t.next;
    }
    next
}
