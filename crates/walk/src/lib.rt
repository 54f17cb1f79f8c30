// The walk of a block: the rule stands in specs/, and here is what a walk answers.
#![tactic(auto)]

// What a walk answers. It is no Result: of its three answers a caller tells each apart, and passes none on as it is.
#[derive(Clone, Copy)]
pub enum Walk {
    // The fault was reached: the height of the list, and how many instructions were completed.
    Done { height: usize, count: usize },
    // It failed after so many.
    Failed { count: usize },
    // The height after the instruction at an index exceeds the lent stack.
    NoRoom { at: usize },
}
