// What an instruction does to the slots by its key, in either model (document 01, "The walk"; document 02, requests 1 and 7).
#![tactic(auto)]

ghost use Rattle.std.specs.Prelude.{◌≡◌, ◌+◌, ◌<◌, ◌≤◌};
ghost use Rattle.effects.specs.Rows.{row_of, added_row, widened_row, rows_of};
ghost use Rattle.key.specs.Key.{key_from};
ghost use Rattle.row.specs.Code.{row_from, Few};

use effects::Model;
use key::Key;
use opcode::Opcode;

// What an instruction does to the slots.
#[derive(Clone, Copy)]
pub enum Row {
    // A walk fails here. It is a row and no None: else each other row of the tables below would be a Some.
    Unmodelled,
    // Takes slots and pushes opaque ones.
    Opaque { takes: usize, gives: usize },
    // Pushes the load of a local: the next byte names it, the two bytes behind a widened opcode do, or the opcode does.
    Aload,
    AloadFar,
    AloadOf { local: usize },
    // dup and its five further forms: the topmost slots once more, below so many under them.
    Copies { count: usize, under: usize },
    Swap,
    // checkcast: the list is kept.
    Keeps,
    // Takes slots and pushes those of the field that it cites.
    Gets { takes: usize },
    // Takes slots and the arguments of the method that it cites, and pushes those of its return.
    Calls { takes: usize },
    // Takes slots and those of the field that it cites.
    Puts { takes: usize },
    // multianewarray: takes as many slots as a byte says, and pushes one.
    Makes,
}

// The rows of constants, loads and stores, 0 to 78.
fn local_row(op: u8) -> Row
    requires { op < 79 }
    ensures { row_from result ≡ row_of op }
{
    match op {
        Opcode::NOP => Row::Opaque { takes: 0, gives: 0 },
        Opcode::ACONST_NULL..=Opcode::ICONST_5 => Row::Opaque { takes: 0, gives: 1 },
        Opcode::LCONST_0..=Opcode::LCONST_1 => Row::Opaque { takes: 0, gives: 2 },
        Opcode::FCONST_0..=Opcode::FCONST_2 => Row::Opaque { takes: 0, gives: 1 },
        Opcode::DCONST_0..=Opcode::DCONST_1 => Row::Opaque { takes: 0, gives: 2 },
        Opcode::BIPUSH..=Opcode::LDC_W => Row::Opaque { takes: 0, gives: 1 },
        Opcode::ILOAD | Opcode::FLOAD => Row::Opaque { takes: 0, gives: 1 },
        Opcode::LDC2_W | Opcode::LLOAD | Opcode::DLOAD => Row::Opaque { takes: 0, gives: 2 },
        Opcode::ALOAD => Row::Aload,
        Opcode::ILOAD_0..=Opcode::ILOAD_3 => Row::Opaque { takes: 0, gives: 1 },
        Opcode::LLOAD_0..=Opcode::LLOAD_3 => Row::Opaque { takes: 0, gives: 2 },
        Opcode::FLOAD_0..=Opcode::FLOAD_3 => Row::Opaque { takes: 0, gives: 1 },
        Opcode::DLOAD_0..=Opcode::DLOAD_3 => Row::Opaque { takes: 0, gives: 2 },
        Opcode::ALOAD_0..=Opcode::ALOAD_3 => Row::AloadOf {
            local: (op - Opcode::ALOAD_0) as usize,
        },
        Opcode::LALOAD | Opcode::DALOAD => Row::Opaque { takes: 2, gives: 2 },
        Opcode::IALOAD..=Opcode::SALOAD => Row::Opaque { takes: 2, gives: 1 },
        Opcode::LSTORE | Opcode::DSTORE => Row::Opaque { takes: 2, gives: 0 },
        Opcode::LSTORE_0..=Opcode::LSTORE_3 => Row::Opaque { takes: 2, gives: 0 },
        Opcode::DSTORE_0..=Opcode::DSTORE_3 => Row::Opaque { takes: 2, gives: 0 },
        _ => Row::Opaque { takes: 1, gives: 0 },
    }
}

// The row of an opcode in document 01's model.
pub fn row_of(op: u8) -> Row
    ensures { row_from result ≡ row_of op }
{
    if op <= Opcode::ASTORE_3 {
        return local_row(op);
    }
    match op {
        Opcode::POP => Row::Opaque { takes: 1, gives: 0 },
        Opcode::POP2 => Row::Opaque { takes: 2, gives: 0 },
        Opcode::DUP => Row::Copies { count: 1, under: 0 },
        Opcode::DUP2 => Row::Copies { count: 2, under: 0 },
        Opcode::SWAP => Row::Swap,
        Opcode::IINC => Row::Opaque { takes: 0, gives: 0 },
        Opcode::GETSTATIC => Row::Gets { takes: 0 },
        Opcode::GETFIELD => Row::Gets { takes: 1 },
        Opcode::INVOKEVIRTUAL | Opcode::INVOKESPECIAL | Opcode::INVOKEINTERFACE => Row::Calls {
            takes: 1,
        },
        Opcode::INVOKESTATIC => Row::Calls { takes: 0 },
        Opcode::NEW => Row::Opaque { takes: 0, gives: 1 },
        Opcode::NEWARRAY..=Opcode::ARRAYLENGTH => Row::Opaque { takes: 1, gives: 1 },
        Opcode::CHECKCAST => Row::Keeps,
        Opcode::INSTANCEOF => Row::Opaque { takes: 1, gives: 1 },
        _ => Row::Unmodelled,
    }
}

// The rows of arithmetic, 96 to 131.
fn arithmetic_row(op: u8) -> Row
    requires le_op { 96 ≤ op }
    requires op_bound { op < 132 }
    ensures { row_from result ≡ added_row op }
{
    match op {
        Opcode::INEG | Opcode::FNEG => Row::Opaque { takes: 1, gives: 1 },
        Opcode::LNEG | Opcode::DNEG => Row::Opaque { takes: 2, gives: 2 },
        Opcode::LSHL | Opcode::LSHR | Opcode::LUSHR => Row::Opaque { takes: 3, gives: 2 },
        Opcode::LADD
        | Opcode::DADD
        | Opcode::LSUB
        | Opcode::DSUB
        | Opcode::LMUL
        | Opcode::DMUL
        | Opcode::LDIV
        | Opcode::DDIV
        | Opcode::LREM
        | Opcode::DREM
        | Opcode::LAND
        | Opcode::LOR
        | Opcode::LXOR => Row::Opaque { takes: 4, gives: 2 },
        _ => Row::Opaque { takes: 2, gives: 1 },
    }
}

// The rows of conversions and comparisons, 133 to 152. iinc, 132, is document 01's.
fn conversion_row(op: u8) -> Row
    requires le_op { 132 ≤ op }
    requires op_bound { op < 153 }
    ensures { row_from result ≡ added_row op }
{
    match op {
        Opcode::IINC => Row::Unmodelled,
        Opcode::I2L | Opcode::I2D | Opcode::F2L | Opcode::F2D => Row::Opaque { takes: 1, gives: 2 },
        Opcode::L2I | Opcode::L2F | Opcode::D2I | Opcode::D2F => Row::Opaque { takes: 2, gives: 1 },
        Opcode::L2D | Opcode::D2L => Row::Opaque { takes: 2, gives: 2 },
        Opcode::LCMP | Opcode::DCMPL | Opcode::DCMPG => Row::Opaque { takes: 4, gives: 1 },
        Opcode::FCMPL | Opcode::FCMPG => Row::Opaque { takes: 2, gives: 1 },
        _ => Row::Opaque { takes: 1, gives: 1 },
    }
}

// The rows of stores to arrays, and of the forms of dup that document 01 leaves out, up to 95.
fn store_row(op: u8) -> Row
    requires { op < 96 }
    ensures { row_from result ≡ added_row op }
{
    match op {
        Opcode::LASTORE | Opcode::DASTORE => Row::Opaque { takes: 4, gives: 0 },
        Opcode::IASTORE..=Opcode::SASTORE => Row::Opaque { takes: 3, gives: 0 },
        Opcode::DUP_X1 => Row::Copies { count: 1, under: 1 },
        Opcode::DUP_X2 => Row::Copies { count: 1, under: 2 },
        Opcode::DUP2_X1 => Row::Copies { count: 2, under: 1 },
        Opcode::DUP2_X2 => Row::Copies { count: 2, under: 2 },
        _ => Row::Unmodelled,
    }
}

// The row that the full model adds for an opcode. The ranges of many opcodes come first.
fn added_row(op: u8) -> Row
    ensures { row_from result ≡ added_row op }
{
    if op < Opcode::IADD {
        return store_row(op);
    }
    if op <= Opcode::LXOR {
        return arithmetic_row(op);
    }
    if op <= Opcode::DCMPG {
        return conversion_row(op);
    }
    match op {
        Opcode::PUTSTATIC => Row::Puts { takes: 0 },
        Opcode::PUTFIELD => Row::Puts { takes: 1 },
        Opcode::MONITORENTER..=Opcode::MONITOREXIT => Row::Opaque { takes: 1, gives: 0 },
        Opcode::MULTIANEWARRAY => Row::Makes,
        _ => Row::Unmodelled,
    }
}

// The row of an opcode in a model. Only one that document 01 does not model is looked for among the added ones.
fn plain_row(model: Model, op: u8) -> Row
    ensures { row_from result ≡ rows_of model op }
{
    let row = row_of(op);
    if let Row::Unmodelled = row {
        if let Model::Full = model {
            return added_row(op);
        }
    }
    row
}

// The row that the full model has for an opcode behind `wide`.
fn widened_row(op: u8) -> Row
    ensures { row_from result ≡ widened_row op }
{
    match op {
        Opcode::ILOAD | Opcode::FLOAD => Row::Opaque { takes: 0, gives: 1 },
        Opcode::LLOAD | Opcode::DLOAD => Row::Opaque { takes: 0, gives: 2 },
        Opcode::ALOAD => Row::AloadFar,
        Opcode::ISTORE | Opcode::FSTORE | Opcode::ASTORE => Row::Opaque { takes: 1, gives: 0 },
        Opcode::LSTORE | Opcode::DSTORE => Row::Opaque { takes: 2, gives: 0 },
        Opcode::IINC => Row::Opaque { takes: 0, gives: 0 },
        _ => Row::Unmodelled,
    }
}

// The row of an opcode behind `wide` in a model.
fn wide_row(model: Model, op: u8) -> Row
    ensures { row_from result ≡ rows_of model (256 + op) }
{
    if let Model::Document = model {
        return Row::Unmodelled;
    }
    widened_row(op)
}

// The row of an instruction in a model.
pub fn row_in(model: Model, key: Key) -> Row
    ensures row { row_from result ≡ rows_of model (key_from key) }
    ensures few { Few result }
{
    match key {
        Key::Plain(op) => plain_row(model, op),
        Key::Wide(op) => wide_row(model, op),
    }
}
