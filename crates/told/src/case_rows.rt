// Rows on the reader of cases.
use crate::{Told, told, told_with};
use casefile::CaseError;
use text::put_at;

// case | what | bytes => document 01's number for the answer with what it carries, or 0 and where the parts lie
fn case(bytes: &[u8]) -> Told {
    match casefile::read_case(bytes) {
        Ok(p) => [
            0,
            p.flags,
            p.fault,
            p.code,
            p.code_length,
            p.signature,
            p.signature_length,
            p.members,
            p.members_length,
            p.member_count,
            p.records,
            p.records_length,
            p.record_count,
            0,
        ],
        Err(CaseError::Wrong(offset)) => told(1, offset, 0, 0),
        Err(CaseError::TooLong) => told(2, 0, 0, 0),
    }
}

// number | what | bytes | limit => the number that the bytes start with, and the place after it
fn number(bytes: &[u8], limit: usize) -> Told {
    match number::read_number(bytes, 0, limit) {
        Some((v, next)) => told(0, v, next, 0),
        None => told(1, 0, 0, 0),
    }
}

// member | what | member run | count | pool index | kind => the length of the part that is handed back, those of its three texts,
// and the texts
fn member(out: &mut [u8], members: &[u8], count: usize, index: usize, kind: usize) -> Told {
    let part = lookup::find_member(members, count, index, kind);
    let class = put_at(out, 0, items::class_of(part));
    let name = put_at(out, class, items::name_of(part));
    let end = put_at(out, name, items::descriptor_of(part));
    told_with(end, 0, part.len(), class, name)
}

// record | what | record run | place => the record there
fn record(records: &[u8], at: usize) -> Told {
    match tables::read_record(records, at) {
        Ok(r) => [
            0,
            r.start,
            r.length,
            r.slot,
            r.name,
            r.name_length,
            r.next,
            0,
            0,
            0,
            0,
            0,
            0,
            0,
        ],
        Err(offset) => told(1, offset, 0, 0),
    }
}

// What the library answers to a row about the bytes of a case.
pub fn tell(out: &mut [u8], kind: usize, x: &[u8], a: usize, b: usize, c: usize) -> Told {
    match kind {
        3 => case(x),
        4 => number(x, a),
        5 => member(out, x, a, b, c),
        _ => record(x, a),
    }
}
