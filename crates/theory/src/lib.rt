// The mathematics below the code: what a ring, a field and a joining mean, and what follows from their laws.
// Definitions stand in specs/, theorems in proofs/; the crates above cite both.
#![tactic(auto)]

// An element top : bottom of the joining for a mark β: it stands for top + bottom·X with X × X = β, up to a common factor.
#[derive(Clone, Copy, PartialEq, Eq, Debug)]
pub struct Ratio {
    pub top: u64,
    pub bottom: u64,
}
