// How an opcode bears on blocks (document 01, "Leaders").
#![tactic(auto)]

ghost use Rattle.std.specs.Prelude.{◌≡◌};
ghost use Rattle.branch.specs.Branch.{branch_of};

use opcode::Opcode;

// How an instruction bears on blocks.
#[derive(Clone, Copy)]
pub enum Branch {
    // A branch with an offset of 16 bits.
    Near,
    // A branch with an offset of 32 bits.
    Far,
    Table,
    Lookup,
    // A return, a throw, a ret: nothing but the next index.
    Ends,
    Plain,
}

// How an opcode bears on blocks. `wide` is plain, also before ret.
pub fn branch_of(op: u8) -> Branch
    ensures { result ≡ branch_of op }
{
    match op {
        Opcode::IFEQ..=Opcode::JSR => Branch::Near,
        Opcode::IFNULL..=Opcode::IFNONNULL => Branch::Near,
        Opcode::GOTO_W..=Opcode::JSR_W => Branch::Far,
        Opcode::TABLESWITCH => Branch::Table,
        Opcode::LOOKUPSWITCH => Branch::Lookup,
        Opcode::IRETURN..=Opcode::RETURN => Branch::Ends,
        Opcode::RET => Branch::Ends,
        Opcode::ATHROW => Branch::Ends,
        _ => Branch::Plain,
    }
}
