// Replays rows of data: what the library answers to a row is written as text and compared with the answer that the row holds. A
// row that can't be read disagrees. Each disagreement is printed, and for each file how many of its rows agree. The file wrong has
// rows that must disagree, of each kind one at least, so a program that compares nothing would print something else.
#![tactic(auto)]

mod code_rows;
mod report_rows;

ghost use Rattle.std.specs.Prelude.{◌≤◌, IfOk};

use check::same;
use items::part_at;
use notation::{after, is_answered, is_row, kind_of, part_to, read_file, read_row, say_agreed};
use std::io;
use std::rt::Files;
use told::Told;

// The kinds of rows. The comments at the functions say what the fields are.
fn kinds() -> [u8; 908] {
    *b"type xa |0 # |$;# |$\n\
      method xa |0 # |$;# |$\n\
      digest xab |#\n\
      case -x |0, flags #, fault #, code #+#, signature #+#, members #+# of #, records #+# of #;2 at #;5\n\
      number -xa |#, then #;no number\n\
      member -xabc |#, class to #, name to # [$]\n\
      record -xa |# # #, name #+#, next #;wrong at #\n\
      descriptor x |($), slots #, return #, field #;($), slots #, no return, field #;unreadable, return #, field #;unreadable, no return, field #\n\
      class xabc |next #, $\n\
      decimal abc |next #, $\n\
      static -xaybc |\"$\"\n\
      instance -xaybc |\"$\"\n\
      length -xa |#;none;none, reserved\n\
      leader -xa |leader #, scan #;no length at #, scan #\n\
      members -dy |# members\n\
      walk -xabc |height #, count # |$;fails, count # |$;no room at # |$\n\
      walk-full -xabc |height #, count # |$;fails, count # |$;no room at # |$\n\
      report xab |$\n\
      report-full xab |$\n\
      report-in xabcd |$\n\
      report-unnamed xab |$\n\
      example fg |as stored;$\n\
      example-full fg |as stored;$\n\
      example-in fgcd |as stored;$\n"
}

// What the library answers to the fields of a row of a kind. A text that goes with it is in the output, which has dots at first.
fn tell(
    out: &mut [u8],
    kind: usize,
    x: &[u8],
    y: &[u8],
    a: usize,
    b: usize,
    c: usize,
    d: usize,
) -> Told {
    if kind < 12 {
        return told::tell(out, kind, x, y, a, b, c);
    }
    if kind < 17 {
        return code_rows::tell(out, kind, x, y, a, b, c, d);
    }
    report_rows::tell(out, kind, x, y, a, b, c, d)
}

// Whether the library answers what a row says, given the row that holds its members and a buffer as long as a case may be.
fn agrees(
    rt: &(impl Files + Print),
    list: &[u8],
    row: &[u8],
    members: &[u8],
    x: &mut [u8],
) -> io::Result<bool> {
    let mut y = [0u8; 512];
    let mut v = [0usize; 7];
    let mut text = [b'.'; 2048];
    let kind = read_row(rt, list, row, members, &mut v, x, &mut y)?;
    let told = tell(
        &mut text,
        kind,
        part_at(x, 0, v[0]),
        part_at(&y, 0, v[1]),
        v[2],
        v[3],
        v[4],
        v[5],
    );
    is_answered(rt, list, row, &told, &text)
}

// 1 for a line that is a row and agrees, else 0.
fn agreed(
    rt: &(impl Files + Print),
    line: &[u8],
    members: &[u8],
    buffer: &mut [u8],
) -> io::Result<usize>
    ensures { IfOk result (λ n. n ≤ 1) }
{
    if is_row(line) {
        if agrees(rt, &kinds(), line, members, buffer)? {
            return Ok(1);
        }
    }
    Ok(0)
}

// The place of a line that holds the members of the walks behind it, or the one before.
fn later(line: &[u8], at: usize, before: usize) -> usize {
    if same(kind_of(line), b"members") {
        return at;
    }
    before
}

// Answers how many rows of a file agree. There are no more lines than bytes, and behind the last there is no row.
fn replay(rt: &(impl Files + Print), file: &[u8], buffer: &mut [u8]) -> io::Result<usize> {
    let mut at: usize = 0;
    let mut members = file.len();
    let mut agreeing: usize = 0;
    for _ in 0..file.len() {
        let line = part_to(file, at, b'\n');
        members = later(line, at, members);
        agreeing += agreed(rt, line, part_to(file, members, b'\n'), buffer)?;
        at = after(at, line);
    }
    Ok(agreeing)
}

// As many bytes as a case may have, and one more.
fn case_room() -> [u8; 1048577] {
    [0u8; 1048577]
}

fn file_room() -> [u8; 2097152] {
    [0u8; 2097152]
}

// Replays a file of data.
fn show(rt: &(impl Files + Print), name: &[u8]) -> io::Result<()> {
    let mut file = file_room();
    let mut case = case_room();
    let size = read_file(rt, &mut file, name)?;
    let agreeing = replay(rt, part_at(&file, 0, size), &mut case)?;
    say_agreed(rt, name, agreeing)
}

fn show_named(rt: &(impl Files + Print), name: &[u8]) -> io::Result<()> {
    if 0 < name.len() {
        show(rt, name)?;
    }
    Ok(())
}

// Shows each file of a list, a line each. There are no more lines than bytes, and behind the last there is no name.
fn show_all(rt: &(impl Files + Print), names: &[u8]) -> io::Result<()> {
    let mut at: usize = 0;
    for _ in 0..names.len() {
        let name = part_to(names, at, b'\n');
        show_named(rt, name)?;
        at = after(at, name);
    }
    Ok(())
}

fn main(rt: HostRuntime) -> io::Result<()> {
    show_all(
        &rt,
        b"lengths\nleaders\nwalks\nfull\nnames\nlocals\nstrict\nshort\ncases\nlines\nrequests\nsample\nwrong\n",
    )
}
