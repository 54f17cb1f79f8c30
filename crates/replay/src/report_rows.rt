// Rows on whole cases: the lines that the program prints. Each names its wording; a call that names nothing has rows of its own.
use answer::Report;
use check::same;
use effects::Model;
use items::part_at;
use notation::{first_bytes, first_numbers};
use text::put_at;
use told::{Told, nothing, told, told_with};

// The line of an answer, whose message stands at the start of the second output, without its newline.
fn put_line(out: &mut [u8], answer: Report, message: &[u8]) -> usize {
    let end = line::put_head_at(out, 0, answer);
    let Report::Message {
        length,
        kind: _,
        scan: _,
        block: _,
    } = answer
    else {
        return end;
    };
    put_at(out, end, part_at(message, 0, length))
}

// The line with so many cells and bytes lent, at most those that the program lends.
fn put_report(
    out: &mut [u8],
    model: Model,
    wording: usize,
    case: &[u8],
    cells: usize,
    bytes: usize,
) -> usize {
    let mut stack = [0u64; 4096];
    let mut message = [0u8; 16384];
    let answer = report::build_message_worded(
        model,
        wording,
        case,
        first_numbers(&mut stack, cells),
        first_bytes(&mut message, bytes),
    );
    put_line(out, answer, &message)
}

// report | case | count of cells lent | count of bytes lent => the line in document 01's model and wording 1
// report-full | the same in the full model
// report-in | the same, and 1 for the full model or 0 | the wording's number => the line
fn report(
    out: &mut [u8],
    model: Model,
    wording: usize,
    case: &[u8],
    cells: usize,
    bytes: usize,
) -> Told {
    told_with(
        put_report(out, model, wording, case, cells, bytes),
        0,
        0,
        0,
        0,
    )
}

// report-unnamed | case | count of cells lent | count of bytes lent => the line of a call that names nothing
fn report_unnamed(out: &mut [u8], case: &[u8], cells: usize, bytes: usize) -> Told {
    let mut stack = [0u64; 4096];
    let mut message = [0u8; 16384];
    let answer = report::build_message(
        case,
        first_numbers(&mut stack, cells),
        first_bytes(&mut message, bytes),
    );
    told_with(put_line(out, answer, &message), 0, 0, 0, 0)
}

// example | file of a case | file of its line => that the line in document 01's model and wording 1 is the stored one, or the line
// example-full | the same in the full model
// example-in | the same, and 1 for the full model or 0 | the wording's number
fn example(out: &mut [u8], model: Model, wording: usize, case: &[u8], stored: &[u8]) -> Told {
    let end = put_report(out, model, wording, case, 4096, 16384);
    let line = put_at(out, end, b"\n");
    if 0 < stored.len() {
        if same(part_at(out, 0, line), stored) {
            return told(0, 0, 0, 0);
        }
    }
    told_with(end, 1, 0, 0, 0)
}

// What the library answers to a row about a case. A kind that is none of these has no answer.
pub fn tell(
    out: &mut [u8],
    kind: usize,
    x: &[u8],
    y: &[u8],
    a: usize,
    b: usize,
    c: usize,
    d: usize,
) -> Told {
    match kind {
        17 => report(out, Model::Document, 1, x, a, b),
        18 => report(out, Model::Full, 1, x, a, b),
        19 => report(out, report::model_by(c), d, x, a, b),
        20 => report_unnamed(out, x, a, b),
        21 => example(out, Model::Document, 1, x, y),
        22 => example(out, Model::Full, 1, x, y),
        23 => example(out, report::model_by(c), d, x, y),
        _ => nothing(),
    }
}
