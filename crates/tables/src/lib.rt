// The tables of a case (document 01, "The case"): its members and its local records, and the lookup of a member. One pass over
// each, no copy, no byte looked at twice. Every function takes any bytes and any place. What cannot be read is answered.
// A run of items answers the place after its last item, or the place of the first wrong one.
#![tactic(auto)]

ghost use Rattle.std.specs.Prelude.{◌≡◌, length};
ghost use Rattle.tables.specs.Layout.{run_by, run_within, three_texts, members_then, records_then, ended};
ghost use Rattle.tables.specs.Member.{member_at, member_within};
ghost use Rattle.tables.specs.LocalRecord.{record_at, record_within};

use items::read_text;
use number::case_number;

// A member: its pool index and kind, where its three texts lie, and where the next member begins.
#[derive(Clone, Copy)]
pub struct MemberPlace {
    pub index: usize,
    pub kind: usize,
    pub texts: usize,
    pub next: usize,
}

// A local record: its numbers, where its name lies, and where the next record begins.
#[derive(Clone, Copy)]
pub struct RecordPlace {
    pub start: usize,
    pub length: usize,
    pub slot: usize,
    pub name: usize,
    pub name_length: usize,
    pub next: usize,
}

// Three texts, one behind the other.
#[tactic(auto, unfolding(crate::specs::Layout::run_by))]
fn read_texts(bytes: &[u8], at: usize) -> Result<usize, usize>
    ensures { (result ≡ run_by (three_texts ended) bytes.now at) × run_within (length bytes.now) at result }
{
    let (class, class_length) = read_text(bytes, at).ok_or(at)?;
    let name_at = class + class_length;
    let (name, name_length) = read_text(bytes, name_at).ok_or(name_at)?;
    let descriptor_at = name + name_length;
    let (descriptor, descriptor_length) = read_text(bytes, descriptor_at).ok_or(descriptor_at)?;
    Ok(descriptor + descriptor_length)
}

// The member at a place, whose pool index has to be above the last one.
#[tactic(auto, unfolding(crate::specs::Member::member_at))]
pub fn read_member(bytes: &[u8], at: usize, last: usize) -> Result<MemberPlace, usize>
    ensures { (result ≡ member_at bytes.now last at) × member_within (length bytes.now) at result }
{
    let (index, kind_at) = case_number(bytes, at).ok_or(at)?;
    if index <= last {
        return Err(at);
    }
    let (kind, texts) = case_number(bytes, kind_at).ok_or(kind_at)?;
    if 1 < kind {
        return Err(kind_at);
    }
    let next = read_texts(bytes, texts)?;
    Ok(MemberPlace {
        index,
        kind,
        texts,
        next,
    })
}

// So many members from a place on, whose pool indexes are above 0 and strictly rise.
#[tactic(auto, unfolding(crate::specs::Layout::run_by, crate::specs::Layout::members_then))]
pub fn read_members(bytes: &[u8], from: usize, count: usize) -> Result<usize, usize>
    ensures { (result ≡ run_by (members_then count 0 ended) bytes.now from)
        × run_within (length bytes.now) from result }
{
    let mut at = from;
    let mut last = 0;
    for _ in 0..count {
        let member = read_member(bytes, at, last)?;
        at = member.next;
        last = member.index;
    }
    Ok(at)
}

// The local record at a place. A search over a run of records goes from each to the next.
#[tactic(auto, unfolding(crate::specs::LocalRecord::record_at))]
pub fn read_record(records: &[u8], at: usize) -> Result<RecordPlace, usize>
    ensures { (result ≡ record_at records.now at) × record_within (length records.now) at result }
{
    let (start, length_at) = case_number(records, at).ok_or(at)?;
    let (length, slot_at) = case_number(records, length_at).ok_or(length_at)?;
    let (slot, name_at) = case_number(records, slot_at).ok_or(slot_at)?;
    let (name, name_length) = read_text(records, name_at).ok_or(name_at)?;
    Ok(RecordPlace {
        start,
        length,
        slot,
        name,
        name_length,
        next: name + name_length,
    })
}

// So many local records from a place on.
#[tactic(auto, unfolding(crate::specs::Layout::run_by, crate::specs::Layout::records_then))]
pub fn read_records(bytes: &[u8], from: usize, count: usize) -> Result<usize, usize>
    ensures { (result ≡ run_by (records_then count ended) bytes.now from)
        × run_within (length bytes.now) from result }
{
    let mut at = from;
    for _ in 0..count {
        let place = read_record(bytes, at)?;
        at = place.next;
    }
    Ok(at)
}
