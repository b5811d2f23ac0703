// Which of the fields are lawful. Each function here computes nothing: its contract is a theorem.
ghost use Rattle.std.specs.Prelude.{[], ◌∷◌};
ghost use Rattle.fields.specs.Lawfulness.{EachLawful, PairsLawful, ResiduesLawful};

// The residues modulo q are lawful exactly when q is a prime, for every q that `Residues::new` takes.
pub fn residues_lawful_exactly_when_prime()
    ensures { ResiduesLawful 2 2147483647 }
{}

// The pairs modulo p are lawful when p is a prime, for every p that `Pairs::new` takes.
pub fn pairs_lawful_when_prime()
    ensures { PairsLawful 3 2147483647 3 }
{}

// The residues modulo 17, 41, 73, 89, 97, 113 and 257 are lawful.
pub fn house_residues_lawful()
    ensures { EachLawful (17 ∷ 41 ∷ 73 ∷ 89 ∷ 97 ∷ 113 ∷ 257 ∷ []) }
{}
