// Signing and checking on polynomials, with their theorems: no code. See specs/ and proofs/.
#![tactic(auto)]
