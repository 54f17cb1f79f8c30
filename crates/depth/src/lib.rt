// How deep the reference of an array store lies (document 01, "Action and cause").
#![tactic(auto)]

ghost use Rattle.std.specs.Prelude.{◌≡◌};
ghost use Rattle.depth.specs.Store.{store_depth};

use opcode::Opcode;

// How many slots lie above the array that is stored to: the index and the value.
pub fn store_depth(op: u8) -> usize
    ensures { result ≡ store_depth op }
{
    match op {
        Opcode::LASTORE | Opcode::DASTORE => 3,
        _ => 2,
    }
}
