#![tactic(auto)]

// Definitions and theorems only: specs/ and proofs/.
