// The cause of a fault, traced over the block that it lies in (document 01, "Action and cause").
#![tactic(auto)]

ghost use Rattle.std.specs.Prelude.{◌-◌, ◌≤◌, ◌≡◌, ltb, length, get_or, replicate};
ghost use Rattle.basics.specs.Choice.{pick};
ghost use Rattle.cell.specs.Cell.{unpacked};
ghost use Rattle.walk.specs.Room.{block_walk_in};
ghost use Rattle.trace.specs.Trace.{trace_of, traced};

use cell::{Load, clear};
use effects::Model;
use leader::Scanned;
use walk::Walk;

// What a trace finds: the scan count, the block count, and what the slot at the depth holds.
#[derive(Clone, Copy)]
pub struct Traced {
    pub scan: usize,
    pub block: usize,
    pub cause: Option<Load>,
}

// The slot so far from the top.
fn slot_from(stack: &[u64], height: usize, depth: usize) -> Option<Load>
    requires { height ≤ length stack.now }
    ensures { result ≡ pick (ltb depth height) (unpacked (get_or stack.now (height - 1 - depth) 0)) None }
{
    if depth < height {
        return cell::unpack(stack[height - 1 - depth]);
    }
    None
}

// Walks a block in a model and looks at the slot at the depth. The stack is zero afterwards. An Err is the index at which it lacks room.
fn trace_block(
    model: Model,
    code: &[u8],
    members: &[u8],
    count: usize,
    leader: usize,
    fault: usize,
    depth: usize,
    scan: usize,
    stack: &mut [u64],
) -> Result<Traced, usize>
    ensures answers { result ≡ trace_of scan depth (block_walk_in model code.now members.now count leader fault (length stack.old)) }
    ensures leaves { stack.new ≡ replicate (length stack.old) 0 }
{
    match block::simulate_block_in(model, code, members, count, leader, fault, stack) {
        Walk::NoRoom { at } => Err(at),
        Walk::Failed { count: block } => Ok(Traced {
            scan,
            block,
            cause: None,
        }),
        Walk::Done {
            height,
            count: block,
        } => {
            let cause = slot_from(stack, height, depth);
            clear(&mut stack[..height]);
            Ok(Traced { scan, block, cause })
        }
    }
}

// Traces the cause of a fault, in a model, whose reference lies at a depth. An Err is the index at which the lent stack lacks room.
pub fn trace_cause(
    model: Model,
    code: &[u8],
    members: &[u8],
    count: usize,
    fault: usize,
    depth: usize,
    stack: &mut [u64],
) -> Result<Traced, usize>
    ensures answers { result ≡ traced model code.now members.now count fault depth (length stack.old) }
    ensures leaves { stack.new ≡ replicate (length stack.old) 0 }
{
    match leader::block_leader(code, fault) {
        Ok(Scanned { at, count: scan }) => trace_block(
            model, code, members, count, at, fault, depth, scan, stack,
        ),
        Err(Scanned { at: _, count: scan }) => {
            clear(stack);
            Ok(Traced {
                scan,
                block: 0,
                cause: None,
            })
        }
    }
}
