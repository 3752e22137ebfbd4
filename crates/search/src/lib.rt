// Looking through constraints, in the table's order, for the first that fails.
#![tactic(auto)]

// A constraint that fails, by its number: the first among those of a walk.
#[derive(Clone, Copy)]
pub struct Failed {
    pub constraint: u16,
}
