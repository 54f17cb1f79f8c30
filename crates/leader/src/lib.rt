// Where the block of a fault begins (document 01, "Leaders"): one pass over the code, and a running maximum.
#![tactic(auto)]

ghost use Rattle.std.specs.Prelude.{◌≡◌, [], ◌∷◌, ◌+◌, ◌-◌, ◌*◌, ◌^◌, max, ◌≤◌, ◌<◌, length};
ghost use Rattle.bytecode.specs.Length.{operands_at, bytes_of, length_of};
ghost use Rattle.greatest.specs.Greatest.{greatest};
ghost use Rattle.leader.specs.Targets.{entry_targets, switch_targets, leaders_at};
ghost use Rattle.leader.specs.Scan.{block_leader};

use branch::{Branch, branch_of};
use greatest::{aim, raise};

// What a scan comes to: the index of a leader, or of an instruction that has no length, and how many instructions are counted.
#[derive(Clone, Copy)]
pub struct Scanned {
    pub at: usize,
    pub count: usize,
}

// The same with the targets of a switch's entries: count offsets from an index on, step bytes from each to the next.
fn entry_targets(
    code: &[u8],
    pc: usize,
    from: usize,
    step: usize,
    count: usize,
    fault: usize,
    best: usize,
) -> usize
    requires { (pc < length code.now) × (from + count * step ≤ length code.now + 12) × (step ≤ 8) }
    ensures { result ≡ max best (greatest fault (entry_targets code.now pc step count from)) }
{
    let mut at = from;
    let mut top = best;
    for _ in 0..count {
        top = aim(0x8000_0000, pc + reads::read_i32(code, at), fault, top);
        at += step;
    }
    top
}

// The same with all targets of a switch: its default, and count entries.
fn switch_targets(
    code: &[u8],
    pc: usize,
    step: usize,
    count: usize,
    fault: usize,
    best: usize,
) -> usize
    requires { (pc < length code.now) × (operands_at pc + count * step ≤ length code.now) × (step ≤ 8) }
    ensures { result ≡ max best (greatest fault (switch_targets code.now pc step count)) }
{
    let at = pc + 1 + bytecode::pad(pc + 1);
    let top = aim(0x8000_0000, pc + reads::read_i32(code, at), fault, best);
    entry_targets(code, pc, at + 12, step, count, fault, top)
}

// The same with the leaders that the instruction at pc gives, which ends at next.
fn leaders_at(code: &[u8], pc: usize, next: usize, fault: usize, best: usize) -> usize
    requires { (pc < length code.now) × (next ≡ pc + bytes_of code.now pc) × (next ≤ length code.now) }
    ensures { result ≡ max best (greatest fault (leaders_at code.now pc next)) }
{
    let kind = branch_of(code[pc]);
    match kind {
        Branch::Near => {
            let lifted = pc + reads::read_i16(code, pc + 1);
            raise(fault, aim(0x8000, lifted, fault, best), next)
        }
        Branch::Far => {
            let lifted = pc + reads::read_i32(code, pc + 1);
            raise(fault, aim(0x8000_0000, lifted, fault, best), next)
        }
        // The opcode, default, low and high are 13 bytes; the division drops the padding.
        Branch::Table => {
            let count = (next - pc - 13) / 4;
            raise(fault, switch_targets(code, pc, 4, count, fault, best), next)
        }
        // The opcode, default and the count of pairs are 9.
        Branch::Lookup => {
            let count = (next - pc - 9) / 8;
            raise(fault, switch_targets(code, pc, 8, count, fault, best), next)
        }
        Branch::Ends => raise(fault, best, next),
        Branch::Plain => best,
    }
}

// The greatest leader at or below the fault, with one leader more than the code gives, and how many instructions the code has. The whole
// code is measured, past the fault too. An Err is the first instruction that has no length, and how many stand before it.
pub fn scan_with(code: &[u8], extra: usize, fault: usize) -> Result<Scanned, Scanned>
    ensures { result ≡ block_leader length_of (extra ∷ []) code.now fault }
{
    let lengths = fixed::fixed_lengths();
    let mut pc: usize = 0;
    let mut best: usize = raise(fault, 0, extra);
    let mut count: usize = 0;
    // The places are those that the lengths give, so the loop is no `for`.
    while pc < code.len() {
        let Ok(bytes) = bytecode::length_by(&lengths, code, pc) else {
            return Err(Scanned { at: pc, count });
        };
        best = leaders_at(code, pc, pc + bytes, fault, best);
        count += 1;
        pc += bytes;
    }
    Ok(Scanned { at: best, count })
}

// The same with the code's own leaders alone: 0 is one of every code, and adds nothing.
pub fn block_leader(code: &[u8], fault: usize) -> Result<Scanned, Scanned>
    ensures { result ≡ block_leader length_of [] code.now fault }
{
    scan_with(code, 0, fault)
}
