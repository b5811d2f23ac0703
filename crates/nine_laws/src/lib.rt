// The field with nine elements: what it means, in specs/, and that it keeps the laws and is lawful, in proofs/.
#![tactic(auto)]
