// What a walk asks of a member, of a member run or of a class file: the slots of a field, and those of a call.
#![tactic(auto)]

ghost use Rattle.std.specs.Prelude.{◌≡◌};
ghost use Rattle.members.specs.Members.{lookup_by, pool_lookup, lookup_from, slots_known, signature_of, call_known, Few};

use descriptor::slots_of_field_type;
use entries::{find_member, find_name};
use index::find_indexed;
use items::descriptor_of;

// Where members are looked up.
#[derive(Clone, Copy)]
pub enum Source {
    // In a member run of so many members, by a table of the run (crate index).
    Run,
    // In a class file, by a table of the places where the entries of its pool stand (crate entries). The count is not used.
    Pool,
}

// What is known of a call: the slots of its arguments and of its return.
#[derive(Clone, Copy)]
pub struct Call {
    pub args: usize,
    pub gives: usize,
}

// The slots of a call, by the descriptor of its method.
#[tactic(auto, using(crate::proofs::Knowing::called))]
fn signature_slots(signature: &[u8]) -> Option<Call>
    ensures reads { result ≡ signature_of signature.now }
    ensures few { Few result }
{
    let params = descriptor::parse_method_params(signature)?;
    let gives = descriptor::slots_behind(signature, params.end)?;
    Some(Call {
        args: params.slots,
        gives,
    })
}

// The slots of a field of a run. The part that holds a member's texts has their lengths, so an empty one is no member.
#[tactic(auto, using(crate::proofs::Knowing::in_run))]
fn run_field(members: &[u8], count: usize, table: &[usize], index: usize) -> Option<usize>
    ensures { result ≡ slots_known (lookup_by members.now count table.now 0 index) }
{
    let texts = find_indexed(members, count, table, index, 0);
    if texts.len() == 0 {
        return None;
    }
    Some(slots_of_field_type(descriptor_of(texts)))
}

// The slots of a call of a method of a run.
#[tactic(auto, using(crate::proofs::Knowing::in_run))]
fn run_call(members: &[u8], count: usize, table: &[usize], index: usize) -> Option<Call>
    ensures reads { result ≡ call_known (lookup_by members.now count table.now 1 index) }
    ensures few { Few result }
{
    let texts = find_indexed(members, count, table, index, 1);
    if texts.len() == 0 {
        return None;
    }
    signature_slots(descriptor_of(texts))
}

// The slots of a field of a pool. A descriptor may have no bytes there, so the member is judged before its text is read.
#[tactic(auto, using(crate::proofs::Knowing::in_pool))]
fn pool_field(file: &[u8], table: &[usize], index: usize) -> Option<usize>
    ensures { result ≡ slots_known (pool_lookup file.now table.now 0 index) }
{
    let member = find_member(file, table, index)?;
    if member.kind == 0 {
        return Some(slots_of_field_type(find_name(file, table, member.descriptor)));
    }
    None
}

// The slots of a call of a method of a pool, an interface's among them.
#[tactic(auto, using(crate::proofs::Knowing::in_pool))]
fn pool_call(file: &[u8], table: &[usize], index: usize) -> Option<Call>
    ensures reads { result ≡ call_known (pool_lookup file.now table.now 1 index) }
    ensures few { Few result }
{
    let member = find_member(file, table, index)?;
    if member.kind == 1 {
        return signature_slots(find_name(file, table, member.descriptor));
    }
    None
}

// The slots of the field with a pool index, none where there is no such field.
pub fn field_slots(
    source: Source,
    bytes: &[u8],
    count: usize,
    table: &[usize],
    index: usize,
) -> Option<usize>
    ensures { result ≡ slots_known (lookup_from source bytes.now count table.now 0 index) }
{
    match source {
        Source::Run => run_field(bytes, count, table, index),
        Source::Pool => pool_field(bytes, table, index),
    }
}

// The slots of a call of the method with a pool index, none where there is no such method or its descriptor can't be read.
pub fn call_slots(
    source: Source,
    bytes: &[u8],
    count: usize,
    table: &[usize],
    index: usize,
) -> Option<Call>
    ensures reads { result ≡ call_known (lookup_from source bytes.now count table.now 1 index) }
    ensures few { Few result }
{
    match source {
        Source::Run => run_call(bytes, count, table, index),
        Source::Pool => pool_call(bytes, table, index),
    }
}
