// The encodings of document 01: numbers as bytes, secret keys, public keys and signatures, each with its size by name.
#![tactic(auto)]

pub mod numbers;
pub mod public_key;
pub mod secret_key;
pub mod signature;
