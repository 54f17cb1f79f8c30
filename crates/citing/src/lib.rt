// The member that a pool number of a class file leads to, laid out as a case's member run has it, alone (document 02, request 3). It
// answers the place after the run, also where the output ends before it, so the run is measured by writing it to no output.
#![tactic(auto)]

ghost use Rattle.std.specs.Prelude.{◌≤◌, length};
ghost use Rattle.cases.specs.LaidOut.{members_bytes};
ghost use Rattle.classparts.specs.Parts.{member_by};
ghost use Rattle.entries.specs.Entries.{entry_by};
ghost use Rattle.text.specs.Writing.{Written};
ghost use Rattle.citing.specs.Longest.{longest_run};

use classtexts::put_member_at;
use entries::{find_member, find_name};

// Writes the run from a place on. Where the number does not resolve to a member the run has none, and nothing is written.
pub fn put_cited_at(out: &mut [u8], at: usize, file: &[u8], table: &[usize], index: usize) -> usize
    ensures writes { Written at (members_bytes (member_by file.now (entry_by file.now table.now) index))
        out.old result out.new }
    ensures few { length (members_bytes (member_by file.now (entry_by file.now table.now) index)) ≤ longest_run }
{
    let Some(member) = find_member(file, table, index) else {
        return at;
    };
    let class_text = find_name(file, table, member.class);
    let name_text = find_name(file, table, member.name);
    let descriptor_text = find_name(file, table, member.descriptor);
    let kind = member.kind;
    put_member_at(out, at, index, kind, class_text, name_text, descriptor_text)
}
