// A cell of the lent stack: an opaque slot, or the load of a local, as a number (document 01, "Numbers returned"; document
// 02, request 7).
#![tactic(auto)]

ghost use Rattle.std.specs.Prelude.{◌≡◌, length, replicate};
ghost use Rattle.cell.specs.Cell.{packed, unpacked};

// A load: the index of its instruction, and the local.
#[derive(Clone, Copy)]
pub struct Load {
    pub load: usize,
    pub local: usize,
}

// The cell of a load, where it has one: the greatest cell is 2^64 - 1.
pub fn pack(load: usize, local: usize) -> Option<u64>
    ensures { result ≡ packed load local }
{
    let cell = load.checked_mul(65536)?.checked_add(local)?.checked_add(1)?;
    Some(cell as u64)
}

// The load that a cell holds, or None of an opaque slot.
pub fn unpack(cell: u64) -> Option<Load>
    ensures { result ≡ unpacked cell }
{
    let rest = cell.checked_sub(1)? as usize;
    Some(Load {
        load: rest / 65536,
        local: rest % 65536,
    })
}

// Zeroes the lent cells.
pub fn clear(stack: &mut [u64])
    ensures { stack.new ≡ replicate (length stack.old) 0 }
{
    stack.fill(0);
}
