// A public key: its exponents and its evaluations, tested, decoded and written.
ghost use Rattle.std.specs.Prelude.{◌≡◌, ◌+◌, ◌*◌, ◌≤◌, length, take};
ghost use Rattle.parameters.specs.Limits.{max_t};
ghost use Rattle.parameters.specs.Sound.{Limited};
ghost use Rattle.encoding.specs.Encoding.{exponents_in, evaluations_in, public_key, public_key_size};

use crate::numbers::{read_list, write_list};
use parameters::{MAX_T, Params};

// What a public key holds: t exponents and t evaluations, each list in front of an array, since the libraries have no heap.
#[derive(Drop)]
pub struct PublicKey {
    pub t: usize,
    pub exponents: [u16; MAX_T],
    pub evaluations: [u32; MAX_T],
    ghost room: { t ≤ max_t },
}

impl PublicKey {
    pub fn exponents(&self) -> &[u16]
        ensures { result.now ≡ take self.now.t self.now.exponents }
    {
        &self.exponents[..self.t]
    }

    pub fn evaluations(&self) -> &[u32]
        ensures { result.now ≡ take self.now.t self.now.evaluations }
    {
        &self.evaluations[..self.t]
    }
}

// Decodes what follows the set byte.
pub fn decode_public_key(p: Params, body: &[u8]) -> PublicKey
    requires limited { Limited p }
    requires body_len { length body.now ≡ 2 * p.t + 3 * p.t }
    ensures t { result.t ≡ p.t }
    ensures exponents { take p.t result.exponents ≡ exponents_in p body.now }
    ensures evaluations { take p.t result.evaluations ≡ evaluations_in p body.now }
{
    let t = p.t;
    let at = 2 * t;
    let mut exponents = [0u16; MAX_T];
    read_list(&body[..at], &mut exponents[..t]);
    let mut evaluations = [0u32; MAX_T];
    read_list(&body[at..], &mut evaluations[..t]);
    PublicKey {
        t,
        exponents,
        evaluations,
    }
}

// Writes the set byte, the exponents and the evaluations.
pub fn put_public_key(set: u8, exponents: &[u16], evaluations: &[u32], out: &mut [u8])
    requires { length out.old ≡ 1 + 2 * length exponents.now + 3 * length evaluations.now }
    ensures { out.new ≡ public_key set exponents.now evaluations.now }
{
    out[0] = set;
    let at = 1 + 2 * exponents.len();
    write_list(exponents, &mut out[1..at]);
    write_list(evaluations, &mut out[at..]);
}

pub fn public_key_size(p: Params) -> usize
    requires { Limited p }
    ensures value { result ≡ public_key_size p }
    ensures bound { result ≤ 5761 }
{
    1 + 2 * p.t + 3 * p.t
}
