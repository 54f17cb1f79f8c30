// How many bytes the instruction at an index of a code takes (document 01, "Measuring an instruction"; document 02, request 6).
// Every public function takes any code and any index.
#![tactic(auto)]

ghost use Rattle.std.specs.Prelude.{◌≡◌, ◌+◌, ◌-◌, ◌*◌, ◌^◌, ◌<◌, length};
ghost use Rattle.basics.specs.Bytes.{byte_at};
ghost use Rattle.bytecode.specs.Length.{aligned, operands_at, table_bytes, lookup_bytes, wide_bytes};
ghost use Rattle.bytecode.specs.Length.{bytes_of, within, length_of, length_by};

use fixed::{fixed_by, fixed_length, wide_by};
use opcode::Opcode;
use reads::{byte_at, read_i32};

// Why an instruction has no length.
#[derive(Clone, Copy)]
pub enum Unmeasured {
    // There is no byte at the index, or the instruction would pass the end of the code.
    NoLength,
    // The byte is reserved, 202 to 255: no instruction has it as its opcode.
    Reserved,
}

// The padding bytes before the operands of a switch, from the index after its opcode to a multiple of 4.
pub fn pad(after: usize) -> usize
    ensures { result ≡ aligned after - after }
{
    (4 - after % 4) % 4
}

// Where the operands of a switch start.
fn operands_at(pc: usize) -> usize
    requires { pc < 2 ^ 63 }
    ensures { result ≡ operands_at pc }
{
    pc + 1 + pad(pc + 1)
}

#[tactic(auto, unfolding(crate::specs::Length::wide_bytes))]
fn wide_bytes(code: &[u8], pc: usize) -> usize
    requires { pc < length code.now }
    ensures { result ≡ wide_bytes code.now pc }
{
    wide_by(byte_at(code, pc + 1)) as usize
}

#[tactic(auto, unfolding(crate::specs::Length::table_bytes, crate::specs::Length::table_entries))]
fn table_bytes(code: &[u8], pc: usize) -> usize
    requires { pc < length code.now }
    ensures { result ≡ table_bytes code.now pc }
{
    let at = operands_at(pc);
    let low = read_i32(code, at + 4);
    let high = read_i32(code, at + 8);
    at - pc + 12 + 4 * (high + 1).saturating_sub(low)
}

#[tactic(auto, unfolding(crate::specs::Length::lookup_bytes, crate::specs::Length::lookup_pairs))]
fn lookup_bytes(code: &[u8], pc: usize) -> usize
    requires { pc < length code.now }
    ensures { result ≡ lookup_bytes code.now pc }
{
    let at = operands_at(pc);
    let count = read_i32(code, at + 4);
    at - pc + 8 + 8 * count.saturating_sub(0x8000_0000)
}

// The bytes of the instruction at pc, whose opcode is not reserved, also where they pass the end.
fn bytes_of(code: &[u8], pc: usize) -> usize
    requires { (pc < length code.now) × (byte_at code.now pc < 202) }
    ensures { result ≡ bytes_of code.now pc }
{
    let op = code[pc];
    match op {
        Opcode::WIDE => wide_bytes(code, pc),
        Opcode::TABLESWITCH => table_bytes(code, pc),
        Opcode::LOOKUPSWITCH => lookup_bytes(code, pc),
        _ => fixed_length(op) as usize,
    }
}

// A length of so many bytes from pc on, or none where they pass the end.
#[tactic(auto, unfolding(crate::specs::Length::within))]
fn within(code: &[u8], pc: usize, bytes: usize) -> Result<usize, Unmeasured>
    requires { pc < length code.now }
    ensures { result ≡ within code.now pc bytes }
{
    if bytes <= code.len() - pc {
        Ok(bytes)
    } else {
        Err(Unmeasured::NoLength)
    }
}

// The length of the instruction at pc: its bytes, the opcode among them. Its answer would be handed back through memory, so it is part of
// its callers.
#[inline(always)]
pub fn instruction_length(code: &[u8], pc: usize) -> Result<usize, Unmeasured>
    ensures { result ≡ length_of code.now pc }
{
    if code.len() <= pc {
        return Err(Unmeasured::NoLength);
    }
    if Opcode::BREAKPOINT <= code[pc] {
        return Err(Unmeasured::Reserved);
    }
    let bytes = bytes_of(code, pc);
    within(code, pc, bytes)
}

// The same by a lent table, where it fixes the length.
pub fn length_by(lengths: &[u8; 256], code: &[u8], pc: usize) -> Result<usize, Unmeasured>
    ensures { result ≡ length_by lengths.now code.now pc }
{
    if pc < code.len() {
        let fixed = fixed_by(lengths, code[pc]) as usize;
        if 0 < fixed {
            return within(code, pc, fixed);
        }
    }
    instruction_length(code, pc)
}
