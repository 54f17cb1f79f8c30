// The rows of the walk and the depths of causes, held against JVMS. All of it stands in specs/; here is the choice between the two
// tables of rows.
#![tactic(auto)]

// Which instructions a walk models.
#[derive(Clone, Copy)]
pub enum Model {
    // Those of document 01.
    Document,
    // These and what document 02, request 1, adds: arithmetic, conversions, comparisons, stores to arrays and fields, dup_x1 to dup2_x2,
    // monitors and multianewarray.
    Full,
}
