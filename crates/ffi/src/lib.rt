// The C interface of the library: numbers and slices in, structs of numbers out. Every function takes any input.
#![tactic(auto)]

ghost use Rattle.std.specs.Prelude.{◌≡◌, [], length, replicate, Some};
ghost use Rattle.bytecode.specs.Length.{length_of};
ghost use Rattle.casefile.specs.Whole.{case_of};
ghost use Rattle.jdescriptor.specs.Answer.{answer as answer_to, written};
ghost use Rattle.judging.specs.Reading.{type_reading, method_reading};
ghost use Rattle.locals.specs.Name.{local_name};
ghost use Rattle.names.specs.Names.{parameter_names};
ghost use Rattle.descriptor.specs.Readers.{parameters, return_slots, field_slots};
ghost use Rattle.leader.specs.Scan.{block_leader};
ghost use Rattle.answer.specs.Answer.{answer_by, output_by};
ghost use Rattle.effects.specs.declared.Model.TheVariants.{Full};
ghost use Rattle.report.specs.Report.{model_by, default_manner, full_manner, report_in, reported_by, report_worded, reported_worded};
ghost use Rattle.structs.specs.Structs.{report_numbers, length_numbers, leader_numbers, slot_numbers, name_numbers, strict_numbers};
ghost use Rattle.ffi.specs.Numbers.{case_walk, case_cells, case_walk_in, case_cells_in, spoken, case_name, case_named, parameter_numbers, parameters_in};

use casefile::CaseError;
use cell::clear;
use effects::Model;
use items::part_at;
use structs::{
    KorsepalLeader, KorsepalLength, KorsepalName, KorsepalParameters, KorsepalReport,
    KorsepalSlots, KorsepalTypes, KorsepalWalk, leader_numbers, length_numbers, low_bits,
    report_numbers, slot_numbers, strict_numbers, walk_numbers,
};

// Reports on a case, over a lent stack and a lent output. A call that names no wording gets 2.
#[unsafe(no_mangle)]
pub extern "C" fn korsepal_report(
    case: &[u8],
    stack: &mut [u64],
    output: &mut [u8],
) -> KorsepalReport
    ensures answers { result ≡ report_numbers (report_in default_manner case.now (length stack.old) (length output.old)) }
    ensures leaves { output.new ≡ reported_by default_manner case.now (length stack.old) output.old }
    ensures clears { stack.new ≡ replicate (length stack.old) 0 }
{
    let answer = report::build_message(case, stack, output);
    report_numbers(answer)
}

// The same in the full model.
#[unsafe(no_mangle)]
pub extern "C" fn korsepal_report_full(
    case: &[u8],
    stack: &mut [u64],
    output: &mut [u8],
) -> KorsepalReport
    ensures answers { result ≡ report_numbers (report_in full_manner case.now (length stack.old) (length output.old)) }
    ensures leaves { output.new ≡ reported_by full_manner case.now (length stack.old) output.old }
    ensures clears { stack.new ≡ replicate (length stack.old) 0 }
{
    let answer = report::build_message_in(report::full_manner(), case, stack, output);
    report_numbers(answer)
}

// The same in a model, 0 for document 01's and any other number for the full one, and in a wording, by its number.
#[unsafe(no_mangle)]
pub extern "C" fn korsepal_report_in(
    full: u32,
    wording: u32,
    case: &[u8],
    stack: &mut [u64],
    output: &mut [u8],
) -> KorsepalReport
    ensures answers { result ≡ report_numbers (report_worded (model_by full) wording case.now (length stack.old) (length output.old)) }
    ensures leaves { output.new ≡ reported_worded (model_by full) wording case.now (length stack.old) output.old }
    ensures clears { stack.new ≡ replicate (length stack.old) 0 }
{
    let model = report::model_by(full as usize);
    let answer = report::build_message_worded(model, wording as usize, case, stack, output);
    report_numbers(answer)
}

// The length of the instruction at an index.
#[unsafe(no_mangle)]
pub extern "C" fn korsepal_instruction_length(code: &[u8], pc: u64) -> KorsepalLength
    ensures { result ≡ length_numbers (length_of code.now pc) }
{
    let length = bytecode::instruction_length(code, pc as usize);
    length_numbers(length)
}

// The leader of the block that a fault lies in.
#[unsafe(no_mangle)]
pub extern "C" fn korsepal_block_leader(code: &[u8], fault: u64) -> KorsepalLeader
    ensures { result ≡ leader_numbers (block_leader length_of [] code.now fault) }
{
    let scan = leader::block_leader(code, fault as usize);
    leader_numbers(scan)
}

// The slots of what a method returns.
#[unsafe(no_mangle)]
pub extern "C" fn korsepal_return_slots(descriptor: &[u8]) -> KorsepalSlots
    ensures { result ≡ slot_numbers (return_slots descriptor.now) }
{
    let slots = descriptor::return_type_slots(descriptor);
    slot_numbers(slots)
}

// The slots of a field.
#[unsafe(no_mangle)]
pub extern "C" fn korsepal_field_slots(descriptor: &[u8]) -> KorsepalSlots
    ensures { result ≡ slot_numbers (Some (field_slots descriptor.now)) }
{
    KorsepalSlots {
        status: 0,
        slots: low_bits(descriptor::slots_of_field_type(descriptor)),
    }
}

// Walks in a model from a leader to a fault over a lent stack, in the code of a case and with its members.
#[tactic(auto, unfolding(casefile::specs::Whole::numbered, casefile::specs::Parts::parts_of))]
fn walk_case(model: Model, case: &[u8], leader: u64, fault: u64, stack: &mut [u64]) -> KorsepalWalk
    ensures answers { result ≡ case_walk_in model case.now leader fault (length stack.old) (case_of case.now) }
    ensures leaves { stack.new ≡ case_cells_in model case.now leader fault (length stack.old) (case_of case.now) }
{
    match casefile::read_case(case) {
        Err(CaseError::TooLong) => {
            clear(stack);
            KorsepalWalk {
                outcome: 5,
                height: 0,
                count: 0,
                index: 0,
            }
        }
        Err(CaseError::Wrong(at)) => {
            clear(stack);
            KorsepalWalk {
                outcome: 2,
                height: 0,
                count: 0,
                index: at as u64,
            }
        }
        Ok(places) => {
            let code = part_at(case, places.code, places.code_length);
            let members = part_at(case, places.members, places.members_length);
            let walk = block::simulate_block_in(
                model,
                code,
                members,
                places.member_count,
                leader as usize,
                fault as usize,
                stack,
            );
            walk_numbers(walk)
        }
    }
}

// Walks from a leader to a fault over a lent stack, in the code of a case and with its members.
#[unsafe(no_mangle)]
pub extern "C" fn korsepal_walk(
    case: &[u8],
    leader: u64,
    fault: u64,
    stack: &mut [u64],
) -> KorsepalWalk
    ensures answers { result ≡ case_walk case.now leader fault (length stack.old) (case_of case.now) }
    ensures leaves { stack.new ≡ case_cells case.now leader fault (length stack.old) (case_of case.now) }
{
    walk_case(Model::Document, case, leader, fault, stack)
}

// The same in the full model.
#[unsafe(no_mangle)]
pub extern "C" fn korsepal_walk_full(
    case: &[u8],
    leader: u64,
    fault: u64,
    stack: &mut [u64],
) -> KorsepalWalk
    ensures answers { result ≡ case_walk_in Full case.now leader fault (length stack.old) (case_of case.now) }
    ensures leaves { stack.new ≡ case_cells_in Full case.now leader fault (length stack.old) (case_of case.now) }
{
    walk_case(Model::Full, case, leader, fault, stack)
}

// The types of a descriptor that is one type, as numbers.
#[unsafe(no_mangle)]
pub extern "C" fn korsepal_parse_type(descriptor: &[u8], numbers: &mut [u64]) -> KorsepalTypes
    ensures answers { result ≡ strict_numbers (answer_to (type_reading descriptor.now) (length numbers.old)) }
    ensures leaves { numbers.new ≡ written (type_reading descriptor.now) numbers.old }
{
    let answer = jdescriptor::parse_type(descriptor, numbers);
    strict_numbers(answer)
}

// The types of a method's descriptor, the return last.
#[unsafe(no_mangle)]
pub extern "C" fn korsepal_parse_method(descriptor: &[u8], numbers: &mut [u64]) -> KorsepalTypes
    ensures answers { result ≡ strict_numbers (answer_to (method_reading descriptor.now) (length numbers.old)) }
    ensures leaves { numbers.new ≡ written (method_reading descriptor.now) numbers.old }
{
    let answer = jdescriptor::parse_method(descriptor, numbers);
    strict_numbers(answer)
}

// Writes the parameters of a method as the messages print them.
#[unsafe(no_mangle)]
pub extern "C" fn korsepal_parameters(descriptor: &[u8], output: &mut [u8]) -> KorsepalParameters
    ensures answers { result ≡ parameter_numbers descriptor.now (length output.old) (parameters descriptor.now) }
    ensures leaves { output.new ≡ parameters_in descriptor.now output.old (parameters descriptor.now) }
{
    let Some(params) = descriptor::parse_method_params(descriptor) else {
        return KorsepalParameters {
            status: 1,
            slots: 0,
            length: 0,
        };
    };
    let mut none = [0u8; 0];
    let needed = names::put_params_at(&mut none, 0, descriptor);
    if output.len() < needed {
        return KorsepalParameters {
            status: 4,
            slots: 0,
            length: needed as u64,
        };
    }
    names::put_params_at(output, 0, descriptor);
    KorsepalParameters {
        status: 0,
        slots: params.slots as u64,
        length: needed as u64,
    }
}

// Writes a name where the output has room for all of it.
fn write_name(
    out: &mut [u8],
    records: &[u8],
    count: usize,
    signature: &[u8],
    instance: bool,
    local: usize,
    load: usize,
) -> KorsepalName
    ensures answers { result ≡ name_numbers (answer_by (spoken (local_name records.now count signature.now instance local load)) (length out.old)) }
    ensures leaves { out.new ≡ output_by (spoken (local_name records.now count signature.now instance local load)) out.old }
{
    let mut none = [0u8; 0];
    let needed = locals::describe_local(
        &mut none, 0, records, count, signature, instance, local, load,
    );
    if out.len() < needed {
        return KorsepalName {
            answer: 4,
            value: needed as u64,
        };
    }
    locals::describe_local(out, 0, records, count, signature, instance, local, load);
    KorsepalName {
        answer: 0,
        value: needed as u64,
    }
}

// Writes the name of a local, whose load stands at an index of the code, by the records and the signature of a case.
#[unsafe(no_mangle)]
#[tactic(auto, unfolding(answer::specs::Answer::numbered, casefile::specs::Parts::parts_of))]
pub extern "C" fn korsepal_local_name(
    case: &[u8],
    local: u64,
    load: u64,
    output: &mut [u8],
) -> KorsepalName
    ensures answers { result ≡ name_numbers (case_name case.now local load (length output.old) (case_of case.now)) }
    ensures leaves { output.new ≡ case_named case.now local load output.old (case_of case.now) }
{
    match casefile::read_case(case) {
        Err(CaseError::TooLong) => KorsepalName {
            answer: 5,
            value: 0,
        },
        Err(CaseError::Wrong(at)) => KorsepalName {
            answer: 2,
            value: at as u64,
        },
        Ok(places) => {
            let records = part_at(case, places.records, places.records_length);
            let signature = part_at(case, places.signature, places.signature_length);
            let instance = locals::is_instance(places.flags);
            write_name(
                output,
                records,
                places.record_count,
                signature,
                instance,
                local as usize,
                load as usize,
            )
        }
    }
}
