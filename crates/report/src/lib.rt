// The report of a case (document 01, "Numbers returned"): the case is read, then reported on by its parts, in the manner asked for.
#![tactic(auto)]

ghost use Rattle.std.specs.Prelude.{◌≡◌, length, replicate};
ghost use Rattle.answer.specs.Answer.{Delivered};
ghost use Rattle.report.specs.Report.{model_by, document_manner, default_manner, full_manner, parts_by, said_in, report_in, reported_by, report_worded, reported_worded};

use answer::{Report, write_message};
use casefile::CaseError;
use cell::clear;
use effects::Model;
use fault::Fault;
use items::part_at;
use locals::is_instance;
use trace::{Traced, trace_cause};
use words::Wording;

// How a report is asked for.
#[derive(Clone, Copy)]
pub struct Manner {
    // What its walk models.
    pub model: Model,
    // How its message is worded.
    pub wording: Wording,
}

// 0 asks for document 01's model, any other number for the full one. A place stays: the number is C's, which crate effects, where the model
// lies, knows nothing of; so this is no `From`.
pub fn model_by(full: usize) -> Model
    ensures { result ≡ model_by full }
{
    match full {
        0 => Model::Document,
        _ => Model::Full,
    }
}

// Document 01's own manner: its model and its text.
pub fn document_manner() -> Manner
    ensures { result ≡ document_manner }
{
    Manner {
        model: Model::Document,
        wording: Wording::Byte,
    }
}

// The manner of a call that names nothing.
pub fn default_manner() -> Manner
    ensures { result ≡ default_manner }
{
    Manner {
        model: Model::Document,
        wording: Wording::ByteBoolean,
    }
}

// The manner of a call that names the full model alone.
pub fn full_manner() -> Manner
    ensures { result ≡ full_manner }
{
    Manner {
        model: Model::Full,
        wording: Wording::ByteBoolean,
    }
}

// Reports in a manner on the parts of a case: flags and fault, code, signature, and so many members and records.
pub fn report_parts_in(
    manner: Manner,
    flags: usize,
    at: usize,
    code: &[u8],
    signature: &[u8],
    members: &[u8],
    member_count: usize,
    records: &[u8],
    record_count: usize,
    stack: &mut [u64],
    out: &mut [u8],
) -> Report
    ensures delivers { Delivered
        (said_in manner (parts_by flags at code.now signature.now members.now member_count
        records.now record_count) (length stack.old))
        out.old result out.new }
    ensures clears { stack.new ≡ replicate (length stack.old) 0 }
{
    let Some(Fault { action, depth }) = fault::decode_fault(code, members, member_count, at) else {
        clear(stack);
        return Report::NoMessage;
    };
    let model = manner.model;
    match trace_cause(model, code, members, member_count, at, depth, stack) {
        Err(index) => Report::NoRoom { at: index },
        Ok(Traced { scan, block, cause }) => {
            let instance = is_instance(flags);
            let wording = manner.wording;
            write_message(
                out,
                wording,
                members,
                member_count,
                action,
                cause,
                records,
                record_count,
                signature,
                instance,
                scan,
                block,
            )
        }
    }
}

// The same for a caller who names nothing.
pub fn report_parts(
    flags: usize,
    at: usize,
    code: &[u8],
    signature: &[u8],
    members: &[u8],
    member_count: usize,
    records: &[u8],
    record_count: usize,
    stack: &mut [u64],
    out: &mut [u8],
) -> Report
    ensures delivers { Delivered
        (said_in default_manner (parts_by flags at code.now signature.now members.now member_count
        records.now record_count) (length stack.old))
        out.old result out.new }
    ensures clears { stack.new ≡ replicate (length stack.old) 0 }
{
    report_parts_in(
        default_manner(),
        flags,
        at,
        code,
        signature,
        members,
        member_count,
        records,
        record_count,
        stack,
        out,
    )
}

// Reports on a case in a manner. The lent stack is zero afterwards, whatever is answered.
#[tactic(auto, unfolding(crate::specs::Report::report_in, crate::specs::Report::reported_by, casefile::specs::Parts::parts_of))]
pub fn build_message_in(manner: Manner, case: &[u8], stack: &mut [u64], out: &mut [u8]) -> Report
    ensures answers { result ≡ report_in manner case.now (length stack.old) (length out.old) }
    ensures leaves { out.new ≡ reported_by manner case.now (length stack.old) out.old }
    ensures clears { stack.new ≡ replicate (length stack.old) 0 }
{
    match casefile::read_case(case) {
        Err(CaseError::TooLong) => {
            clear(stack);
            Report::TooLong
        }
        Err(CaseError::Wrong(at)) => {
            clear(stack);
            Report::Broken { at }
        }
        Ok(places) => {
            let code = part_at(case, places.code, places.code_length);
            let signature = part_at(case, places.signature, places.signature_length);
            let members = part_at(case, places.members, places.members_length);
            let records = part_at(case, places.records, places.records_length);
            report_parts_in(
                manner,
                places.flags,
                places.fault,
                code,
                signature,
                members,
                places.member_count,
                records,
                places.record_count,
                stack,
                out,
            )
        }
    }
}

// The same for a caller who names nothing.
pub fn build_message(case: &[u8], stack: &mut [u64], out: &mut [u8]) -> Report
    ensures answers { result ≡ report_in default_manner case.now (length stack.old) (length out.old) }
    ensures leaves { out.new ≡ reported_by default_manner case.now (length stack.old) out.old }
    ensures clears { stack.new ≡ replicate (length stack.old) 0 }
{
    build_message_in(default_manner(), case, stack, out)
}

// The same with the wording by its number; one that names none is refused before anything else is looked at.
pub fn build_message_worded(
    model: Model,
    wording: usize,
    case: &[u8],
    stack: &mut [u64],
    out: &mut [u8],
) -> Report
    ensures answers { result ≡ report_worded model wording case.now (length stack.old) (length out.old) }
    ensures leaves { out.new ≡ reported_worded model wording case.now (length stack.old) out.old }
    ensures clears { stack.new ≡ replicate (length stack.old) 0 }
{
    let Some(wording) = words::wording_by(wording) else {
        clear(stack);
        return Report::NoWording;
    };
    build_message_in(Manner { model, wording }, case, stack, out)
}
