// Residues modulo q: the codes are the remainders.
ghost use Rattle.std.specs.Prelude.{◌≤◌};

pub mod operations;

// The ring of residues modulo q, for any q from 2 to 2,147,483,647; lawful exactly when q is a prime.
#[derive(Clone, Copy, PartialEq, Eq, Debug)]
pub struct Residues {
    q: u64,
    ghost low: { 2 ≤ q },
    ghost high: { q ≤ 2147483647 },
}
