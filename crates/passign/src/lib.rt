// The PASSign library: evaluation, challenge drawing, signing, checking and the three encodings.
// Every entry takes any input: what is not allowed is refused with document 01's number, and a refused call leaves every buffer as it was.
#![tactic(auto)]

pub use checking::check;
pub use codec::{
    read_public_key, read_secret_key, read_signature, write_public_key, write_secret_key,
    write_signature,
};
pub use refusal::{Refusal, Verdict};
pub use signing::sign;
pub use values::drawing::draw;
pub use values::evaluation::{evaluate, evaluate_all};
pub use values::keys::public_key;
