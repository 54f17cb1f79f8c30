// The name of a local (document 01, "Action and cause"), over the record run and the signature of a case's parts.
#![tactic(auto)]

ghost use Rattle.std.specs.Prelude.{◌≡◌};
ghost use Rattle.text.specs.Decimal.{decimal};
ghost use Rattle.text.specs.Writing.{Written};
ghost use Rattle.locals.specs.Name.{is_instance, signature_parameter, numbered_name, unnamed, local_name};

use search::find_record;
use text::{put_at, put_decimal_at};

// Whether a method has a receiver: flag 8 is clear.
#[tactic(auto, unfolding(crate::specs::Name::is_instance))]
pub fn is_instance(flags: usize) -> bool
    ensures { result ≡ is_instance flags }
{
    flags / 8 % 2 == 0
}

// The number of the parameter that starts at a slot, by what follows the first colon of the signature.
#[tactic(auto, using(bytesearch::proofs::Search::place_inside), unfolding(crate::specs::Name::signature_parameter))]
fn signature_parameter(signature: &[u8], instance: bool, slot: usize) -> Option<usize>
    ensures { result ≡ signature_parameter signature.now instance slot }
{
    let colon = bytesearch::find_byte(signature, b':', 0)?;
    descriptor::parameter_at(&signature[colon + 1..], instance, slot)
}

// Writes a made-up name: a word, a number and a closing bracket.
fn put_numbered_at(out: &mut [u8], at: usize, word: &[u8], n: usize) -> usize
    ensures { Written at (numbered_name word.now n) out.old result out.new }
{
    let number = put_at(out, at, word);
    let close = put_decimal_at(out, number, n);
    put_at(out, close, b">")
}

// Writes `this`, or the name that a parameter's or a local's number makes up, from a place on.
fn put_unnamed_at(out: &mut [u8], at: usize, signature: &[u8], instance: bool, slot: usize) -> usize
    ensures { Written at (unnamed signature.now instance slot) out.old result out.new }
{
    if instance && slot == 0 {
        return put_at(out, at, b"this");
    }
    match signature_parameter(signature, instance, slot) {
        Some(k) => put_numbered_at(out, at, b"<parameter", k),
        None => put_numbered_at(out, at, b"<local", slot),
    }
}

// Writes the name of a local, whose load stands at an index of the code, from a place on. Answers the place after it.
#[tactic(auto, unfolding(crate::specs::Name::local_name))]
pub fn describe_local(
    out: &mut [u8],
    at: usize,
    records: &[u8],
    count: usize,
    signature: &[u8],
    instance: bool,
    slot: usize,
    load: usize,
) -> usize
    ensures { Written at (local_name records.now count signature.now instance slot load) out.old result out.new }
{
    let Some((from, to)) = find_record(records, count, slot, load) else {
        return put_unnamed_at(out, at, signature, instance, slot);
    };
    put_at(out, at, &records[from..to])
}
