// What the faulting instruction would have done, and how deep the reference lies that it would have dereferenced (document 01,
// "Action and cause").
#![tactic(auto)]

ghost use Rattle.std.specs.Prelude.{◌-◌, ◌≤◌, ◌<◌, ◌≡◌, length};
ghost use Rattle.depth.specs.Store.{store_depth};
ghost use Rattle.fault.specs.Decoding.{decoded, faulted};
ghost use Rattle.fault.specs.Inside.{decoded_as};
ghost use Rattle.fault.specs.declared.Action.TheVariants.{LoadArray, StoreArray};

use check::same;
use depth::store_depth;
use opcode::Opcode;

// The nine action forms. A member is named by its pool index, an element type by its place in the order of the opcodes.
#[derive(Clone, Copy)]
pub enum Action {
    ReadField { index: usize },
    AssignField { index: usize },
    Invoke { index: usize },
    LoadArray { element: usize },
    StoreArray { element: usize },
    ReadLength,
    ThrowException,
    EnterBlock,
    ExitBlock,
}

// The action that failed, and how many slots lie above the reference.
#[derive(Clone, Copy)]
pub struct Fault {
    pub action: Action,
    pub depth: usize,
}

// The fault of reading the field that the instruction cites.
fn read_fault(code: &[u8], members: &[u8], count: usize, fault: usize) -> Option<Fault>
    requires { fault < length code.now }
    ensures { result ≡ decoded_as 180 code.now members.now count fault }
{
    if code.len() - fault < 3 {
        return None;
    }
    let index = reads::read_u16(code, fault + 1);
    if lookup::find_member(members, count, index, 0).len() == 0 {
        return None;
    }
    Some(Fault {
        action: Action::ReadField { index },
        depth: 0,
    })
}

// The fault of assigning it: the value lies above the reference.
fn assign_fault(code: &[u8], members: &[u8], count: usize, fault: usize) -> Option<Fault>
    requires { fault < length code.now }
    ensures { result ≡ decoded_as 181 code.now members.now count fault }
{
    if code.len() - fault < 3 {
        return None;
    }
    let index = reads::read_u16(code, fault + 1);
    let texts = lookup::find_member(members, count, index, 0);
    if texts.len() == 0 {
        return None;
    }
    Some(Fault {
        action: Action::AssignField { index },
        depth: descriptor::slots_of_field_type(items::descriptor_of(texts)),
    })
}

// The fault of invoking the method that it cites: the arguments lie above the receiver. A constructor is never invoked on null.
fn invoke_fault(code: &[u8], members: &[u8], count: usize, fault: usize) -> Option<Fault>
    requires { fault < length code.now }
    ensures { result ≡ decoded_as 182 code.now members.now count fault }
{
    if code.len() - fault < 3 {
        return None;
    }
    let index = reads::read_u16(code, fault + 1);
    let texts = lookup::find_member(members, count, index, 1);
    if texts.len() == 0 {
        return None;
    }
    if same(items::name_of(texts), b"<init>") {
        return None;
    }
    let Some(params) = descriptor::parse_method_params(items::descriptor_of(texts)) else {
        return None;
    };
    Some(Fault {
        action: Action::Invoke { index },
        depth: params.slots,
    })
}

// The fault of a load from an array.
fn load_fault(op: u8) -> Option<Fault>
    requires { (46 ≤ op) × (op ≤ 53) }
    ensures { result ≡ faulted (LoadArray (op - 46)) 1 }
{
    let element = (op - Opcode::IALOAD) as usize;
    Some(Fault {
        action: Action::LoadArray { element },
        depth: 1,
    })
}

// The fault of a store to an array.
fn store_fault(op: u8) -> Option<Fault>
    requires { (79 ≤ op) × (op ≤ 86) }
    ensures { result ≡ faulted (StoreArray (op - 79)) (store_depth op) }
{
    let element = (op - Opcode::IASTORE) as usize;
    Some(Fault {
        action: Action::StoreArray { element },
        depth: store_depth(op),
    })
}

// The action that failed, or nothing where the instruction dereferences nothing or cannot be read.
pub fn decode_fault(code: &[u8], members: &[u8], count: usize, fault: usize) -> Option<Fault>
    ensures { result ≡ decoded code.now members.now count fault }
{
    if code.len() <= fault {
        return None;
    }
    let op = code[fault];
    match op {
        Opcode::GETFIELD => read_fault(code, members, count, fault),
        Opcode::PUTFIELD => assign_fault(code, members, count, fault),
        Opcode::INVOKEVIRTUAL..=Opcode::INVOKESPECIAL => invoke_fault(code, members, count, fault),
        Opcode::INVOKEINTERFACE => invoke_fault(code, members, count, fault),
        Opcode::IALOAD..=Opcode::SALOAD => load_fault(op),
        Opcode::IASTORE..=Opcode::SASTORE => store_fault(op),
        Opcode::ARRAYLENGTH => Some(Fault {
            action: Action::ReadLength,
            depth: 0,
        }),
        Opcode::ATHROW => Some(Fault {
            action: Action::ThrowException,
            depth: 0,
        }),
        Opcode::MONITORENTER => Some(Fault {
            action: Action::EnterBlock,
            depth: 0,
        }),
        Opcode::MONITOREXIT => Some(Fault {
            action: Action::ExitBlock,
            depth: 0,
        }),
        _ => None,
    }
}
