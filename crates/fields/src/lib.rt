// The fields at hand: residues modulo q, and pairs modulo p.
#![tactic(auto)]

mod lawful;
mod pairs;
mod residues;

pub use lawful::{
    house_residues_lawful, pairs_lawful_when_prime, residues_lawful_exactly_when_prime,
};
pub use pairs::Pairs;
pub use residues::Residues;
pub use residues::operations::day_field;
