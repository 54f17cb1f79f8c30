// The instruction at an index of a code as a key of the tables by opcode (document 02, request 7).
#![tactic(auto)]

ghost use Rattle.std.specs.Prelude.{◌≡◌};
ghost use Rattle.jvms.specs.Stack.{key_at};
ghost use Rattle.key.specs.Key.{key_from};

use opcode::Opcode;

// An opcode, or the one that `wide` widens.
#[derive(Clone, Copy)]
pub enum Key {
    Plain(u8),
    Wide(u8),
}

// The key of the instruction at pc. A byte past the end reads as 0; a `wide` that nothing follows widens nothing.
pub fn key_at(code: &[u8], pc: usize) -> Key
    ensures { key_from result ≡ key_at code.now pc }
{
    if code.len() <= pc {
        return Key::Plain(0);
    }
    let op = code[pc];
    if op == Opcode::WIDE && 1 < code.len() - pc {
        return Key::Wide(code[pc + 1]);
    }
    Key::Plain(op)
}
