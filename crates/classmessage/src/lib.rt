// The message of a fault in a method of a class file (document 02, request 3): the texts that it takes from the file are turned and laid out
// as a case has them, in an array of the writer's own, and the message of the case is written from there.
#![tactic(auto)]

ghost use Rattle.std.specs.Prelude.{◌≡◌, ◌≤◌, length};
ghost use Rattle.cases.specs.LaidOut.{records_bytes};
ghost use Rattle.text.specs.Writing.{Written};
ghost use Rattle.answer.specs.Answer.{Delivered};
ghost use Rattle.classmessage.specs.Message.{longest_record, found_count, record_by, texts_bytes, LaidIn, said_from};

use answer::{Report, write_message};
use cell::Load;
use citedfault::run_count;
use citing::put_cited_at;
use classtexts::{put_record_at, put_signature_at};
use entries::find_name;
use fault::Action;
use items::part_at;
use localtables::LocalFound;
use words::Wording;

// Nearly all texts of a message have room in so many bytes.
const USUAL: usize = 4096;

// All texts have: each has at most 65,535 bytes.
const LONGEST: usize = 393266;

// What a message takes from the file: the pool number of the member that the faulting instruction cites; the record that names the local
// of its cause, and the slot of that local; the pool numbers of the method's name and of its descriptor.
#[derive(Clone, Copy)]
pub struct Texts {
    pub cited: usize,
    pub found: Option<LocalFound>,
    pub slot: usize,
    pub name: usize,
    pub descriptor: usize,
}

// What failed, and by which cause, in a method with a receiver or without, with the counts of the scan and of the block.
#[derive(Clone, Copy)]
pub struct Failure {
    pub action: Action,
    pub cause: Option<Load>,
    pub instance: bool,
    pub scan: usize,
    pub block: usize,
}

// Where texts end that are laid out one behind the other: the member run, the record run, the signature.
#[derive(Clone, Copy)]
pub struct Laid {
    pub members: usize,
    pub records: usize,
    pub signature: usize,
}

// How many records were found.
fn found_count(found: Option<LocalFound>) -> usize
    ensures { result ≡ found_count found }
{
    match found {
        Some(_) => 1,
        None => 0,
    }
}

// Writes the record that was found from a place on, as the local's of a slot; nothing where none was. Answers the place after it.
fn put_found_at(
    out: &mut [u8],
    at: usize,
    file: &[u8],
    table: &[usize],
    found: Option<LocalFound>,
    slot: usize,
) -> usize
    ensures writes { Written at (records_bytes (record_by file.now table.now slot found)) out.old result out.new }
    ensures few { length (records_bytes (record_by file.now table.now slot found)) ≤ longest_record }
{
    match found {
        Some(record) => {
            let text = find_name(file, table, record.name);
            put_record_at(out, at, record.start, record.size, slot, text)
        }
        None => at,
    }
}

// Lays the texts out, as far as the room reaches.
fn lay_texts(room: &mut [u8], file: &[u8], table: &[usize], texts: Texts) -> Laid
    ensures { LaidIn file.now table.now texts room.old result room.new }
{
    let members = put_cited_at(room, 0, file, table, texts.cited);
    let found = texts.found;
    let records = put_found_at(room, members, file, table, found, texts.slot);
    let name = find_name(file, table, texts.name);
    let descriptor = find_name(file, table, texts.descriptor);
    let signature = put_signature_at(room, records, name, descriptor);
    Laid {
        members,
        records,
        signature,
    }
}

// Writes the message from texts that are laid out in a lent room.
fn write_in(
    room: &mut [u8],
    out: &mut [u8],
    wording: Wording,
    file: &[u8],
    table: &[usize],
    texts: Texts,
    failure: Failure,
) -> Report
    requires { length (texts_bytes file.now table.now texts) ≤ length room.old }
    ensures { Delivered (said_from file.now table.now wording texts failure) out.old result out.new }
{
    let laid = lay_texts(room, file, table, texts);
    let members = part_at(room, 0, laid.members);
    let records = part_at(room, laid.members, laid.records - laid.members);
    let signature = part_at(room, laid.records, laid.signature - laid.records);
    let found = texts.found;
    let action = failure.action;
    let cause = failure.cause;
    write_message(
        out,
        wording,
        members,
        run_count(laid.members),
        action,
        cause,
        records,
        found_count(found),
        signature,
        failure.instance,
        failure.scan,
        failure.block,
    )
}

// In a room of so many bytes, which the texts fit.
fn write_within<const N: usize>(
    out: &mut [u8],
    wording: Wording,
    file: &[u8],
    table: &[usize],
    texts: Texts,
    failure: Failure,
) -> Report
    requires fits { length (texts_bytes file.now table.now texts) ≤ N }
    requires n_in_bounds { N ≤ LONGEST }
    ensures { Delivered (said_from file.now table.now wording texts failure) out.old result out.new }
{
    let mut room = [0u8; N];
    write_in(&mut room, out, wording, file, table, texts, failure)
}

// Writes the message where the output has room for all of it. Its texts are measured first, by laying them out in no room.
pub fn write_from(
    out: &mut [u8],
    wording: Wording,
    file: &[u8],
    table: &[usize],
    texts: Texts,
    failure: Failure,
) -> Report
    ensures { Delivered (said_from file.now table.now wording texts failure) out.old result out.new }
{
    let mut nothing = [0u8; 0];
    let laid = lay_texts(&mut nothing, file, table, texts);
    if laid.signature <= USUAL {
        return write_within::<USUAL>(out, wording, file, table, texts, failure);
    }
    write_within::<LONGEST>(out, wording, file, table, texts, failure)
}
