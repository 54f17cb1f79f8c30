// A running maximum over leaders (document 01, "What changes shape").
#![tactic(auto, unfolding(crate::specs::Greatest::up_to, crate::specs::Greatest::greatest, crate::specs::Greatest::target))]

ghost use Rattle.std.specs.Prelude.{◌≡◌, max};
ghost use Rattle.greatest.specs.Greatest.{up_to, greatest, target};

// The greater of best and x, where x is at or below the fault.
pub fn raise(fault: usize, best: usize, x: usize) -> usize
    ensures { result ≡ max best (up_to fault x) }
{
    if x <= fault { best.max(x) } else { best }
}

// The same with a target that is given plus half. One below 0 is no leader.
pub fn aim(half: usize, lifted: usize, fault: usize, best: usize) -> usize
    ensures { result ≡ max best (greatest fault (target half lifted)) }
{
    let Some(target) = lifted.checked_sub(half) else {
        return best;
    };
    raise(fault, best, target)
}
