// The walk of a block over a lent stack of cells, in either model (document 01, "The walk"; document 02, requests 1
// and 7).
#![tactic(auto)]

ghost use Rattle.std.specs.Prelude.{◌≡◌, ◌+◌, ◌<◌, leb, length, take, replicate};
ghost use Rattle.basics.specs.Choice.{pick};
ghost use Rattle.fixed.specs.Fixed.{key_length, FixedLengths};
ghost use Rattle.key.specs.Key.{key_from};
ghost use Rattle.index.specs.Index.{Indexed};
ghost use Rattle.effects.specs.Lookup.{lookup_in};
ghost use Rattle.effects.specs.Rows.{rows_of};
ghost use Rattle.row.specs.Code.{copy_places, swap_places};
ghost use Rattle.walk.specs.Room.{Walks, WalksIn};
ghost use Rattle.walk.specs.Walk.{cells, blanks, load as load_push, carried, does, applied, step as step_at};
ghost use Rattle.instruction.specs.Code.{effect_from};
ghost use Rattle.block.specs.Inner.{Clean, Laid, Stepped, going};
ghost use Rattle.block.specs.declared.Halt.TheVariants.{Passes};

use cell::clear;
use effects::Model;
use instruction::Effect;
use key::Key;
use walk::Walk;

// So many members that a walk makes a table of them.
const MANY: usize = 128;
// The cells of the table: 1,024 buckets hold every pool index that an instruction can cite.
const CELLS: usize = 3072;

// Why a walk does not go on at the next instruction.
#[derive(Clone, Copy)]
pub enum Halt {
    // The instruction fails.
    Stops,
    // The lent stack has too few cells for the slots.
    Lacks,
    // The instruction is completed, and passes the fault.
    Passes,
}

// Where a walk stands: at an instruction, with so many slots.
#[derive(Clone, Copy)]
pub struct Place {
    pub pc: usize,
    pub height: usize,
}

// Takes slots and pushes opaque ones, which are zero. Each function of an effect answers the height after it.
fn push_opaque(stack: &mut [u64], height: usize, takes: usize, gives: usize) -> Result<usize, Halt>
    requires { Clean stack.old height }
    ensures { Laid stack.old result stack.new
        (applied cells 0 (does takes (blanks gives)) (take height stack.old)) }
{
    if height < takes {
        return Err(Halt::Stops);
    }
    let start = height - takes;
    if stack.len() - start < gives {
        return Err(Halt::Lacks);
    }
    clear(&mut stack[start..height]);
    Ok(start + gives)
}

// Pushes the load of a local.
fn push_load(stack: &mut [u64], height: usize, pc: usize, local: usize) -> Result<usize, Halt>
    requires { Clean stack.old height }
    ensures { Laid stack.old result stack.new
        (applied cells pc (does 0 (load_push local)) (take height stack.old)) }
{
    let Some(cell) = cell::pack(pc, local) else {
        return Err(Halt::Stops);
    };
    if stack.len() <= height {
        return Err(Halt::Lacks);
    }
    stack[height] = cell;
    Ok(height + 1)
}

// Copies the topmost slots below so many under them.
fn push_copies(stack: &mut [u64], height: usize, count: usize, under: usize) -> Result<usize, Halt>
    requires { Clean stack.old height }
    ensures { Laid stack.old result stack.new
        (applied cells 0 (does (count + under) (carried (copy_places count under))) (take height stack.old)) }
{
    if height < count || height - count < under {
        return Err(Halt::Stops);
    }
    if stack.len() - height < count {
        return Err(Halt::Lacks);
    }
    copies::copy_below(stack, height, count, under);
    Ok(height + count)
}

fn swap_top(stack: &mut [u64], height: usize) -> Result<usize, Halt>
    requires { Clean stack.old height }
    ensures { Laid stack.old result stack.new
        (applied cells 0 (does 2 (carried swap_places)) (take height stack.old)) }
{
    if height < 2 {
        return Err(Halt::Stops);
    }
    stack.swap(height - 1, height - 2);
    Ok(height)
}

// Applies an effect to the slots of a height.
fn apply(stack: &mut [u64], height: usize, pc: usize, effect: Effect) -> Result<usize, Halt>
    requires { Clean stack.old height }
    ensures { Laid stack.old result stack.new
        (applied cells pc (effect_from (Some effect)) (take height stack.old)) }
{
    match effect {
        Effect::Opaque { takes, gives } => push_opaque(stack, height, takes, gives),
        Effect::Load { local } => push_load(stack, height, pc, local),
        Effect::Copies { count, under } => push_copies(stack, height, count, under),
        Effect::Swap => swap_top(stack, height),
    }
}

// The bytes of an instruction, by a table of the lengths that an opcode fixes.
fn size_by(lengths: &[u8; 256], key: Key) -> usize
    requires { FixedLengths lengths.now }
    ensures { result ≡ key_length (key_from key) }
{
    match key {
        Key::Plain(op) => fixed::fixed_by(lengths, op) as usize,
        Key::Wide(op) => fixed::wide_by(op) as usize,
    }
}

// How an instruction ends that leaves a height: it goes on behind its bytes, or passes the fault.
fn land(pc: usize, fault: usize, size: usize, height: usize) -> Result<Place, Halt>
    requires { pc < fault }
    ensures { result ≡ pick (leb (pc + size) fault) (going (pc + size) height) (Err Passes) }
{
    if fault - pc < size {
        return Err(Halt::Passes);
    }
    Ok(Place {
        pc: pc + size,
        height,
    })
}

// One instruction.
fn step_at(
    model: Model,
    lengths: &[u8; 256],
    code: &[u8],
    members: &[u8],
    count: usize,
    table: &[usize],
    pc: usize,
    fault: usize,
    stack: &mut [u64],
    height: usize,
) -> Result<Place, Halt>
    requires fixed_lengths { FixedLengths lengths.now }
    requires indexed { Indexed members.now count table.now }
    requires clean { Clean stack.old height }
    requires pc_lt_fault { pc < fault }
    ensures { Stepped stack.old result stack.new
        (step_at cells (rows_of model) (lookup_in members.now count) code.now fault pc
        (take height stack.old)) }
{
    if code.len() <= pc {
        return Err(Halt::Stops);
    }
    let key = key::key_at(code, pc);
    let Some(effect) = instruction::effect_of(model, key, code, members, count, table, pc) else {
        return Err(Halt::Stops);
    };
    let size = size_by(lengths, key);
    let next = apply(stack, height, pc, effect)?;
    land(pc, fault, size, next)
}

// Ends a walk that fails: its slots are cleared, and the cells above them are zero.
fn give_up(stack: &mut [u64], height: usize, answer: Walk) -> Walk
    requires { Clean stack.old height }
    ensures answers { result ≡ answer }
    ensures leaves { stack.new ≡ replicate (length stack.old) 0 }
{
    clear(&mut stack[..height]);
    answer
}

// Walks from the leader to the fault, over the lent stack, by a table of the members.
fn walk_block(
    model: Model,
    code: &[u8],
    members: &[u8],
    count: usize,
    table: &[usize],
    leader: usize,
    fault: usize,
    stack: &mut [u64],
) -> Walk
    requires { Indexed members.now count table.now }
    ensures { WalksIn model code.now members.now count leader fault
        stack.old result stack.new }
{
    clear(stack);
    let lengths = fixed::fixed_lengths();
    let mut pc = leader;
    let mut height: usize = 0;
    let mut completed: usize = 0;
    // The places are those that the instructions go on at, so the loop is no `for`.
    while pc < fault {
        match step_at(
            model, &lengths, code, members, count, table, pc, fault, stack, height,
        ) {
            Err(Halt::Stops) => return give_up(stack, height, Walk::Failed { count: completed }),
            Err(Halt::Lacks) => return give_up(stack, height, Walk::NoRoom { at: pc }),
            Err(Halt::Passes) => {
                clear(stack);
                return Walk::Failed {
                    count: completed + 1,
                };
            }
            Ok(next) => {
                pc = next.pc;
                height = next.height;
                completed += 1;
            }
        }
    }
    if pc == fault {
        return Walk::Done {
            height,
            count: completed,
        };
    }
    give_up(stack, height, Walk::Failed { count: completed })
}

// The same, by a table that is made for this walk.
fn walk_indexed(
    model: Model,
    code: &[u8],
    members: &[u8],
    count: usize,
    leader: usize,
    fault: usize,
    stack: &mut [u64],
) -> Walk
    ensures { WalksIn model code.now members.now count leader fault
        stack.old result stack.new }
{
    let mut table = [0usize; CELLS];
    index::index_members(members, count, &mut table);
    walk_block(model, code, members, count, &table, leader, fault, stack)
}

// Walks from the leader to the fault in a model, over the lent stack. Among few members a lookup needs no table.
pub fn simulate_block_in(
    model: Model,
    code: &[u8],
    members: &[u8],
    count: usize,
    leader: usize,
    fault: usize,
    stack: &mut [u64],
) -> Walk
    ensures { WalksIn model code.now members.now count leader fault
        stack.old result stack.new }
{
    if count < MANY {
        let none = [0usize; 1];
        return walk_block(model, code, members, count, &none, leader, fault, stack);
    }
    walk_indexed(model, code, members, count, leader, fault, stack)
}

// The same in document 01's model.
pub fn simulate_block(
    code: &[u8],
    members: &[u8],
    count: usize,
    leader: usize,
    fault: usize,
    stack: &mut [u64],
) -> Walk
    ensures { Walks code.now members.now count leader fault
        stack.old result stack.new }
{
    simulate_block_in(Model::Document, code, members, count, leader, fault, stack)
}
