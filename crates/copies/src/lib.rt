// Copies the topmost cells of a list below others: what dup and its five further forms do to cells (JVMS 6.5).
#![tactic(auto)]

ghost use Rattle.std.specs.Prelude.{◌≡◌};
ghost use Rattle.copies.specs.Copies.{copied_below};

// Of the first `height` cells, copies the topmost `count` below the `under` cells that lie under them. Where there are too few
// cells, nothing is done.
pub fn copy_below(cells: &mut [u64], height: usize, count: usize, under: usize)
    ensures { cells.new ≡ copied_below cells.old height count under }
{
    if height < count || height - count < under {
        return;
    }
    if cells.len() < height || cells.len() - height < count {
        return;
    }
    let start = height - count - under;
    cells.copy_within(start..height, start + count);
    cells.copy_within(height..height + count, start);
}
