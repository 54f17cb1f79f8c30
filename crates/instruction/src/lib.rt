// What an instruction does to the slots in a model, its operands read (document 01, "The walk"; document 02, requests
// 1 and 7).
#![tactic(auto)]

ghost use Rattle.std.specs.Prelude.{◌≡◌, ◌-◌, ◌≤◌, length};
ghost use Rattle.effects.specs.Rows.{rows_of, aload as aload_row, aload_far as far_row, gets as gets_row, calls as calls_row, puts as puts_row, makes as makes_row};
ghost use Rattle.key.specs.Key.{key_from};
ghost use Rattle.walk.specs.Walk.{effect_by};
ghost use Rattle.walk.specs.Worked.{nothing};
ghost use Rattle.instruction.specs.Code.{effect_from, bare};
ghost use Rattle.instruction.specs.Lookup.{lookup_by, cited_texts, cited_slots};

use effects::Model;
use key::Key;
use row::Row;

// What an instruction does to the slots.
#[derive(Clone, Copy)]
pub enum Effect {
    // Takes slots and pushes opaque ones.
    Opaque { takes: usize, gives: usize },
    // Pushes the load of a local.
    Load { local: usize },
    // The topmost slots once more, below so many under them.
    Copies { count: usize, under: usize },
    Swap,
}

// How many bytes there are from an index on.
fn bytes_from(code: &[u8], pc: usize) -> usize
    ensures { result ≡ length code.now - pc }
{
    code.len().saturating_sub(pc)
}

// The effect of `aload`, which names its local by a byte.
fn load_effect(code: &[u8], pc: usize) -> Option<Effect>
    ensures { effect_from result ≡ bare (effect_by nothing code.now pc aload_row) }
{
    if bytes_from(code, pc) < 2 {
        return None;
    }
    Some(Effect::Load {
        local: code[pc + 1] as usize,
    })
}

// The effect of `wide aload`, which names its local by the two bytes behind the opcode.
fn far_effect(code: &[u8], pc: usize) -> Option<Effect>
    ensures { effect_from result ≡ bare (effect_by nothing code.now pc far_row) }
{
    if bytes_from(code, pc) < 4 {
        return None;
    }
    Some(Effect::Load {
        local: reads::read_u16(code, pc + 2),
    })
}

// The texts of the member that the instruction at pc cites: none where its index is cut or there is no such member.
fn cited_texts<'a>(
    code: &[u8],
    members: &'a [u8],
    count: usize,
    table: &[usize],
    pc: usize,
    kind: usize,
) -> &'a [u8]
    ensures { result.now ≡ cited_texts members.now count table.now code.now pc kind }
{
    if bytes_from(code, pc) < 3 {
        return &members[..0];
    }
    index::find_indexed(members, count, table, reads::read_u16(code, pc + 1), kind)
}

// The slots of the field that the instruction at pc cites.
fn cited_slots(
    code: &[u8],
    members: &[u8],
    count: usize,
    table: &[usize],
    pc: usize,
) -> Option<usize>
    ensures { result ≡ cited_slots (lookup_by members.now count table.now) code.now pc }
{
    let texts = cited_texts(code, members, count, table, pc, 0);
    if texts.len() == 0 {
        return None;
    }
    Some(descriptor::slots_of_field_type(items::descriptor_of(texts)))
}

// The effect of reading the field that the instruction at pc cites.
#[tactic(auto, using(crate::proofs::Effects::get_none, crate::proofs::Effects::got))]
fn get_effect(
    code: &[u8],
    members: &[u8],
    count: usize,
    table: &[usize],
    pc: usize,
    takes: usize,
) -> Option<Effect>
    ensures { effect_from result ≡ bare (effect_by (lookup_by members.now count table.now)
        code.now pc (gets_row takes)) }
{
    let gives = cited_slots(code, members, count, table, pc)?;
    Some(Effect::Opaque { takes, gives })
}

// The effect of writing the field that the instruction at pc cites.
#[tactic(auto, using(crate::proofs::Effects::put_none, crate::proofs::Effects::put, crate::proofs::Slots::few_cited))]
fn put_effect(
    code: &[u8],
    members: &[u8],
    count: usize,
    table: &[usize],
    pc: usize,
    takes: usize,
) -> Option<Effect>
    requires { takes ≤ 1 }
    ensures { effect_from result ≡ bare (effect_by (lookup_by members.now count table.now)
        code.now pc (puts_row takes)) }
{
    let slots = cited_slots(code, members, count, table, pc)?;
    Some(Effect::Opaque {
        takes: takes + slots,
        gives: 0,
    })
}

// The effect of `multianewarray`, which names its dimensions by the third byte behind it.
fn make_effect(code: &[u8], pc: usize) -> Option<Effect>
    ensures { effect_from result ≡ bare (effect_by nothing code.now pc makes_row) }
{
    if bytes_from(code, pc) < 4 {
        return None;
    }
    let dimensions = code[pc + 3] as usize;
    if dimensions == 0 {
        return None;
    }
    Some(Effect::Opaque {
        takes: dimensions,
        gives: 1,
    })
}

// The effect of calling the method that the instruction at pc cites.
fn call_effect(
    code: &[u8],
    members: &[u8],
    count: usize,
    table: &[usize],
    pc: usize,
    takes: usize,
) -> Option<Effect>
    requires { takes ≤ 1 }
    ensures { effect_from result ≡ bare (effect_by (lookup_by members.now count table.now)
        code.now pc (calls_row takes)) }
{
    let texts = cited_texts(code, members, count, table, pc, 1);
    if texts.len() == 0 {
        return None;
    }
    let signature = items::descriptor_of(texts);
    let params = descriptor::parse_method_params(signature)?;
    let gives = descriptor::slots_behind(signature, params.end)?;
    Some(Effect::Opaque {
        takes: takes + params.slots,
        gives,
    })
}

// The effect of the instruction at pc, whose key is given, or None where it fails. Members are looked up by a table of the run.
pub fn effect_of(
    model: Model,
    key: Key,
    code: &[u8],
    members: &[u8],
    count: usize,
    table: &[usize],
    pc: usize,
) -> Option<Effect>
    ensures { effect_from result ≡ bare (effect_by (lookup_by members.now count table.now)
        code.now pc (rows_of model (key_from key))) }
{
    match row::row_in(model, key) {
        Row::Unmodelled => None,
        Row::Opaque { takes, gives } => Some(Effect::Opaque { takes, gives }),
        Row::Aload => load_effect(code, pc),
        Row::AloadFar => far_effect(code, pc),
        Row::AloadOf { local } => Some(Effect::Load { local }),
        Row::Copies {
            count: copies,
            under,
        } => Some(Effect::Copies {
            count: copies,
            under,
        }),
        Row::Swap => Some(Effect::Swap),
        Row::Keeps => Some(Effect::Opaque { takes: 0, gives: 0 }),
        Row::Gets { takes } => get_effect(code, members, count, table, pc, takes),
        Row::Calls { takes } => call_effect(code, members, count, table, pc, takes),
        Row::Puts { takes } => put_effect(code, members, count, table, pc, takes),
        Row::Makes => make_effect(code, pc),
    }
}
