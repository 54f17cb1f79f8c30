// Rows on code: lengths, leaders and walks.
use bytecode::Unmeasured;
use cell::Load;
use effects::Model;
use leader::Scanned;
use notation::first_numbers;
use text::{put_at, put_decimal_at};
use told::{Told, nothing, told, told_with};
use walk::Walk;

// length | what | code | index => the length, or none, and whether the byte is reserved
fn length(code: &[u8], pc: usize) -> Told {
    match bytecode::instruction_length(code, pc) {
        Ok(n) => told(0, n, 0, 0),
        Err(Unmeasured::NoLength) => told(1, 0, 0, 0),
        Err(Unmeasured::Reserved) => told(2, 0, 0, 0),
    }
}

// leader | what | code | fault => the leader, or where there is no length, and the scan count
fn leader(code: &[u8], fault: usize) -> Told {
    match leader::block_leader(code, fault) {
        Ok(Scanned { at, count }) => told(0, at, count, 0),
        Err(Scanned { at, count }) => told(1, at, count, 0),
    }
}

// A cell: 0, or its local and the index of its load.
fn put_cell(out: &mut [u8], at: usize, cell: u64) -> usize {
    let Some(Load { load, local }) = cell::unpack(cell) else {
        return put_at(out, at, b" 0");
    };
    let a = put_at(out, at, b" a");
    let number = put_decimal_at(out, a, local);
    let sign = put_at(out, number, b"@");
    put_decimal_at(out, sign, load)
}

fn put_cells(out: &mut [u8], cells: &[u64]) -> usize {
    let mut end = 0;
    for cell in cells {
        end = put_cell(out, end, *cell);
    }
    end
}

fn walked(answer: Walk, text: usize) -> Told {
    match answer {
        Walk::Done { height, count } => told_with(text, 0, height, count, 0),
        Walk::Failed { count } => told_with(text, 1, count, 0, 0),
        Walk::NoRoom { at } => told_with(text, 2, at, 0, 0),
    }
}

// Walks in a model over a lent stack, whose cells are the text.
fn walk_in(
    out: &mut [u8],
    model: Model,
    code: &[u8],
    members: &[u8],
    count: usize,
    leader: usize,
    fault: usize,
    stack: &mut [u64],
) -> Told {
    let answer = block::simulate_block_in(model, code, members, count, leader, fault, stack);
    walked(answer, put_cells(out, stack))
}

// walk | what | code | leader | fault | count of cells lent => the answer | the cells
// walk-full | the same in the full model
fn walk(
    out: &mut [u8],
    model: Model,
    code: &[u8],
    members: &[u8],
    count: usize,
    leader: usize,
    fault: usize,
    cells: usize,
) -> Told {
    if 128 < cells {
        return nothing();
    }
    let mut stack = [0u64; 128];
    walk_in(
        out,
        model,
        code,
        members,
        count,
        leader,
        fault,
        first_numbers(&mut stack, cells),
    )
}

// What the library answers to a row about code; a row of members answers their count.
pub fn tell(
    out: &mut [u8],
    kind: usize,
    x: &[u8],
    y: &[u8],
    a: usize,
    b: usize,
    c: usize,
    d: usize,
) -> Told {
    match kind {
        12 => length(x, a),
        13 => leader(x, a),
        14 => told(0, d, 0, 0),
        15 => walk(out, Model::Document, x, y, d, a, b, c),
        _ => walk(out, Model::Full, x, y, d, a, b, c),
    }
}
