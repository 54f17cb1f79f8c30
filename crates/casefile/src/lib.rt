// Reading a case (document 01, "The case"): one pass from the first byte to the last, no copy, no byte looked at twice.
// Any bytes are taken. What cannot be read is answered, never assumed away.
#![tactic(auto)]

ghost use Rattle.std.specs.Prelude.{◌≡◌};
ghost use Rattle.casefile.specs.Whole.{tables_at, case_of};

use items::read_text;
use number::case_number;

// The greatest length of a case.
const LONGEST: usize = 1048576;

// Where the member run and the record run lie in a case, their counts, and the place after the last record.
#[derive(Clone, Copy)]
pub struct TablePlaces {
    pub members: usize,
    pub members_length: usize,
    pub member_count: usize,
    pub records: usize,
    pub records_length: usize,
    pub record_count: usize,
    pub end: usize,
}

// Where the parts of a case lie.
#[derive(Clone, Copy)]
pub struct Places {
    pub flags: usize,
    pub fault: usize,
    pub code: usize,
    pub code_length: usize,
    pub signature: usize,
    pub signature_length: usize,
    pub members: usize,
    pub members_length: usize,
    pub member_count: usize,
    pub records: usize,
    pub records_length: usize,
    pub record_count: usize,
}

// Why a case is not read.
#[derive(Clone, Copy)]
pub enum CaseError {
    // The place of the first wrong item.
    Wrong(usize),
    // The case is longer than 1,048,576 bytes.
    TooLong,
}

// Member count, members, record count, local records, or the place of the first wrong item. What follows them is the caller's to
// judge.
#[tactic(auto, unfolding(crate::specs::Whole::tables_at))]
fn read_tables(bytes: &[u8], at: usize) -> Result<TablePlaces, usize>
    ensures { result ≡ tables_at bytes.now at }
{
    let (member_count, members) = case_number(bytes, at).ok_or(at)?;
    let members_end = tables::read_members(bytes, members, member_count)?;
    let (record_count, records) = case_number(bytes, members_end).ok_or(members_end)?;
    let records_end = tables::read_records(bytes, records, record_count)?;
    Ok(TablePlaces {
        members,
        members_length: members_end - members,
        member_count,
        records,
        records_length: records_end - records,
        record_count,
        end: records_end,
    })
}

// Where the parts of a case lie, or the place of its first wrong item, or that it is too long.
#[tactic(auto, unfolding(crate::specs::Whole::case_of, crate::specs::Whole::places_in))]
pub fn read_case(bytes: &[u8]) -> Result<Places, CaseError>
    ensures { result ≡ case_of bytes.now }
{
    if LONGEST < bytes.len() {
        return Err(CaseError::TooLong);
    }
    let (flags, fault_at) = case_number(bytes, 0).ok_or(CaseError::Wrong(0))?;
    let (fault, code_at) = case_number(bytes, fault_at).ok_or(CaseError::Wrong(fault_at))?;
    let (code, code_length) = read_text(bytes, code_at).ok_or(CaseError::Wrong(code_at))?;
    let signature_at = code + code_length;
    let (signature, signature_length) = read_text(bytes, signature_at).ok_or(CaseError::Wrong(
        signature_at,
    ))?;
    let tables = read_tables(bytes, signature + signature_length).map_err(CaseError::Wrong)?;
    if tables.end < bytes.len() {
        return Err(CaseError::Wrong(tables.end));
    }
    Ok(Places {
        flags,
        fault,
        code,
        code_length,
        signature,
        signature_length,
        members: tables.members,
        members_length: tables.members_length,
        member_count: tables.member_count,
        records: tables.records,
        records_length: tables.records_length,
        record_count: tables.record_count,
    })
}
