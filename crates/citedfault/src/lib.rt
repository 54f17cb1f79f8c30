// The fault of an instruction of a class file (document 02, request 3), decoded by the one member that it cites, laid out alone in an array of
// the reader's own.
#![tactic(auto)]

ghost use Rattle.std.specs.Prelude.{◌≡◌, ◌+◌, ◌≤◌, ◌<◌, ltb, length};
ghost use Rattle.basics.specs.Bytes.{u16_at};
ghost use Rattle.basics.specs.Choice.{pick};
ghost use Rattle.cases.specs.LaidOut.{members_bytes};
ghost use Rattle.classparts.specs.Parts.{member_by};
ghost use Rattle.entries.specs.Entries.{entry_by};
ghost use Rattle.citedfault.specs.Cited.{decoded_by, decoded_in};

use citing::put_cited_at;
use fault::{Fault, decode_fault};
use items::part_at;
use reads::read_u16;

// Nearly every member has room in so many bytes.
const USUAL: usize = 4096;

// Every member has: its texts have at most 65,535 bytes each.
const LONGEST: usize = 196627;

// The pool number that the instruction at an index cites, if it cites one: the two bytes behind its opcode.
pub fn cited_index(code: &[u8], fault: usize) -> usize
    ensures { (result ≡ u16_at code.now (fault + 1)) × (result < 65536) }
{
    if fault < code.len() {
        return read_u16(code, fault + 1);
    }
    0
}

// How many members are in a run of so many bytes that has one at most.
pub fn run_count(size: usize) -> usize
    ensures { result ≡ pick (ltb 0 size) 1 0 }
{
    if 0 < size {
        return 1;
    }
    0
}

// Decodes the fault by the member with a number, which is laid out in a lent room.
fn decode_in(
    room: &mut [u8],
    file: &[u8],
    table: &[usize],
    index: usize,
    code: &[u8],
    fault: usize,
) -> Option<Fault>
    requires { length (members_bytes (member_by file.now (entry_by file.now table.now) index)) ≤ length room.old }
    ensures { result ≡ decoded_by (member_by file.now (entry_by file.now table.now) index) code.now fault }
{
    let size = put_cited_at(room, 0, file, table, index);
    let members = part_at(room, 0, size);
    decode_fault(code, members, run_count(size), fault)
}

// In a room of so many bytes, which the member fits.
fn decode_within<const N: usize>(
    file: &[u8],
    table: &[usize],
    index: usize,
    code: &[u8],
    fault: usize,
) -> Option<Fault>
    requires fits { length (members_bytes (member_by file.now (entry_by file.now table.now) index)) ≤ N }
    requires n_in_bounds { N ≤ LONGEST }
    ensures { result ≡ decoded_by (member_by file.now (entry_by file.now table.now) index) code.now fault }
{
    let mut room = [0u8; N];
    decode_in(&mut room, file, table, index, code, fault)
}

// Decodes the fault of an instruction. The member is measured first, by writing it to no output.
pub fn decode_cited(file: &[u8], table: &[usize], code: &[u8], fault: usize) -> Option<Fault>
    ensures { result ≡ decoded_in file.now table.now code.now fault }
{
    let index = cited_index(code, fault);
    let mut nothing = [0u8; 0];
    if put_cited_at(&mut nothing, 0, file, table, index) <= USUAL {
        return decode_within::<USUAL>(file, table, index, code, fault);
    }
    decode_within::<LONGEST>(file, table, index, code, fault)
}
