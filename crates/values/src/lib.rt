// Entries that give values: the evaluations of a polynomial, the challenge of a pool, the public key of a secret key.
#![tactic(auto)]

pub mod drawing;
pub mod evaluation;
pub mod keys;
