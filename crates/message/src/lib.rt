// The message's text (document 01, "Action and cause"), written from a place of the output on. Each function answers the place
// after its text, also where the output ends before it.
#![tactic(auto)]

ghost use Rattle.message.specs.Message.{cause_text, message_text};
ghost use Rattle.text.specs.Writing.{Written};

use action::put_action_at;
use cell::Load;
use fault::Action;
use text::put_at;
use words::Wording;

// Writes the cause, where a load is known.
fn put_cause_at(
    out: &mut [u8],
    at: usize,
    cause: Option<Load>,
    records: &[u8],
    count: usize,
    signature: &[u8],
    instance: bool,
) -> usize
    ensures { Written at (cause_text cause records.now count signature.now instance) out.old result out.new }
{
    let Some(Load { load, local }) = cause else {
        return at;
    };
    let start = put_at(out, at, b" because \"");
    let end = locals::describe_local(out, start, records, count, signature, instance, local, load);
    put_at(out, end, b"\" is null")
}

// Writes the message in a wording from a place on. Answers the place after it.
pub fn put_message_at(
    out: &mut [u8],
    at: usize,
    wording: Wording,
    members: &[u8],
    member_count: usize,
    action: Action,
    cause: Option<Load>,
    records: &[u8],
    record_count: usize,
    signature: &[u8],
    instance: bool,
) -> usize
    ensures { Written at (message_text wording members.now member_count action cause records.now record_count signature.now instance) out.old result out.new }
{
    let next = put_action_at(out, at, wording, members, member_count, action);
    put_cause_at(out, next, cause, records, record_count, signature, instance)
}
