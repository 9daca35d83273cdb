#![tactic(auto)]

// Theorems about the definitions of crate `model`: statements in specs/, proofs in proofs/.
