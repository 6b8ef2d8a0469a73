// The public key of a secret key.
ghost use Rattle.std.specs.Prelude.{◌≡◌, true, [], length};
ghost use Rattle.polynomial.specs.Evaluation.{evaluation_residues};
ghost use Rattle.encoding.specs.Encoding.{are_exponents, key_in};
ghost use Rattle.refusal.specs.Answer.{answer_of, stated, answer_states};
ghost use Rattle.refusal.specs.Meaning.{answer_in};
ghost use Rattle.values.specs.Keys.{public_key_refusal, public_key_written};

use encoding::numbers::are_exponents;
use encoding::public_key::{public_key_size, put_public_key};
use encoding::secret_key::{are_key_bytes, decode_secret_key, secret_key_size};
use parameters::MAX_T;
use refusal::{Refusal, ensure, ring_in};
use split::points::evaluate_residues;
use split_tables::Ring;

// The public evaluations of a key without its set byte at the points, in 0..q-1.
pub fn key_evaluations(ring: &Ring, key: &[u8], exponents: &[u16], out: &mut [u32])
    requires key_len { (length key.now ≡ ring.now.params.n) × (length exponents.now ≡ ring.now.params.t) × (length out.old ≡ ring.now.params.t) × (are_exponents ring.now.params exponents.now ≡ true) }
    ensures { out.new ≡ evaluation_residues ring.now.params (key_in key.now) exponents.now }
{
    let p = ring.params;
    let n = p.n;
    let f = decode_secret_key(p, key);
    evaluate_residues(ring, &f[..n], exponents, out);
}

// Writes the public key of an encoded secret key at the t points. Refuses with 1, 2, 1, 4, 5.
#[tactic(auto, unfolding(crate::specs::Keys::public_key_refusal_in, crate::specs::Keys::public_key_refusal, crate::specs::Keys::public_key_in, crate::specs::Keys::public_key_written, encoding::specs::Encoding::is_key, encoding::specs::Encoding::key_of))]
pub fn public_key(secret_key: &[u8], exponents: &[u16], out: &mut [u8]) -> Result<(), Refusal>
    ensures answer { answer_in result ≡ answer_of (public_key_refusal secret_key.now exponents.now out.old) }
    ensures number { answer_states (answer_in result) ≡ stated (public_key_refusal secret_key.now exponents.now out.old) [] }
    ensures written { out.new ≡ public_key_written secret_key.now exponents.now out.old }
{
    let ring = ring_in(secret_key)?;
    let p = ring.params;
    let t = p.t;
    ensure(
        secret_key.len() == secret_key_size(p)
            && exponents.len() == t
            && out.len() == public_key_size(p),
        Refusal::WrongLength,
    )?;
    ensure(are_exponents(exponents, p.n), Refusal::WrongExponents)?;
    ensure(are_key_bytes(&secret_key[1..]), Refusal::WrongKey)?;
    let mut values = [0u32; MAX_T];
    key_evaluations(&ring, &secret_key[1..], exponents, &mut values[..t]);
    put_public_key(secret_key[0], exponents, &values[..t], out);
    Ok(())
}
