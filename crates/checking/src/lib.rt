// Checking: the commitment is recovered from the signature and the public evaluations, and its challenge compared with the given one; then the entry. Lists
// stand in front of arrays of one size for all sets, since the libraries have no heap.
#![tactic(auto)]

ghost use Rattle.std.specs.Prelude.{◌≡◌, true, ◌+◌, ◌*◌, ◌^◌, ◌<◌, ◌≤◌, T, pos, ◌-ℤ◌, length, take};
ghost use Rattle.algebra.specs.All.{are_below};
ghost use Rattle.algebra.specs.Integer.{residue};
ghost use Rattle.parameters.specs.Limits.{max_n};
ghost use Rattle.polynomial.specs.Evaluation.{evaluation_residues};
ghost use Rattle.polynomial.specs.Polynomial.{ternary};
ghost use Rattle.polynomial.specs.Sparse.{Sparse};
ghost use Rattle.challenge.specs.Draw.{draw_challenge};
ghost use Rattle.challenge.specs.Rules.{rule_number};
ghost use Rattle.encoding.specs.Challenge.{challenge_of};
ghost use Rattle.encoding.specs.Encoding.{are_exponents};
ghost use Rattle.refusal.specs.Answer.{verdict_states};
ghost use Rattle.refusal.specs.Meaning.{verdict_in};
ghost use Rattle.scheme.specs.Scheme.{differences, equal, recovered};
ghost use Rattle.checking.specs.Check.{answer_on, check_answer, check_stated};
ghost use Rattle.checking.specs.Asks.{signature_with, verdict_on, Recoverable};

use challenge::{Rule, challenge_of};
use encoding::numbers::{are_below, are_exponents};
use encoding::public_key::{decode_public_key, public_key_size};
use encoding::signature::{are_entries_of, decode_signature, read_challenge, signature_size};
use parameters::{MAX_MESSAGE, MAX_N, MAX_T};
use polynomial::range::in_range;
use refusal::{Refusal, Verdict, ensure, ring_in};
use split::points::{evaluate_challenge, evaluate_residues};
use split_tables::Ring;

// z - v × c modulo q, for evaluations below q: with q × q added no difference is negative, so that one remainder is enough.
fn difference(z: u32, v: u32, c: u32, q: u32) -> u32
    requires { (z < q) × (v < q) × (c < q) × (q < 2 ^ 20) }
    ensures { result ≡ residue (pos z -ℤ pos (v * c)) q }
{
    let modulus = u64::from(q);
    ((u64::from(z) + modulus * modulus - u64::from(v) * u64::from(c)) % modulus) as u32
}

// The differences at each place, in front.
#[tactic(auto, using(algebra::proofs::All::below_at, crate::proofs::Recovery::differences_whole))]
fn differences_of(q: u32, z: &[u32], public: &[u32], challenge: &[u32]) -> [u32; MAX_T]
    requires { Recoverable q public.now challenge.now z.now }
    ensures { take (length z.now) result ≡ differences q z.now public.now challenge.now }
{
    let mut out = [0u32; MAX_T];
    for i in 0..z.len() {
        out[i] = difference(z[i], public[i], challenge[i], q);
    }
    out
}

// The lists of a public key that passed the tests, in the ring of its set.
#[derive(Clone, Copy)]
struct Public<'a> {
    ring: &'a Ring<'a>,
    exponents: &'a [u16],
    evaluations: &'a [u32],
    ghost exponents_size: { length exponents.now ≡ ring.now.params.t },
    ghost exponents_rise: { are_exponents ring.now.params exponents.now ≡ true },
    ghost evaluations_size: { length evaluations.now ≡ ring.now.params.t },
    ghost evaluations_below: { T (are_below ring.now.params.q evaluations.now) },
}

impl Public<'_> {
    // The commitment that a signature's challenge and point recover, in front.
    fn commitment_of(&self, c: &[i8], z: &[i16]) -> [u32; MAX_T]
        requires challenge { Sparse self.now.ring.now.params c.now }
        requires z_len { length z.now ≡ self.now.ring.now.params.n }
        ensures { take self.now.ring.now.params.t result ≡ recovered self.now.ring.now.params (signature_with c.now z.now) self.now.exponents.now self.now.evaluations.now }
    {
        let ring = self.ring;
        let t = ring.params.t;
        let mut of_challenge = [0u32; MAX_T];
        evaluate_challenge(ring, c, self.exponents, &mut of_challenge[..t]);
        let mut of_z = [0u32; MAX_T];
        evaluate_residues(ring, z, self.exponents, &mut of_z[..t]);
        differences_of(
            ring.params.q,
            &of_z[..t],
            self.evaluations,
            &of_challenge[..t],
        )
    }

    // The paper's rule: z is in range and the challenge of the recovered commitment is c.
    #[tactic(auto, using(crate::proofs::Comparison::slices_equal), unfolding(scheme::specs::Scheme::verdict))]
    fn accepts(&self, c: &[i8], z: &[i16], message: &[u8], rule: Rule) -> bool
        requires challenge { Sparse self.now.ring.now.params c.now }
        requires z_len { length z.now ≡ self.now.ring.now.params.n }
        ensures { result ≡ verdict_on (rule_number rule) self.now.ring.now.params self.now.exponents.now message.now self.now.evaluations.now c.now z.now }
    {
        let p = self.ring.params;
        let n = p.n;
        let t = p.t;
        if !in_range(z, p.k - p.b as u32) {
            return false;
        }
        let commitment = self.commitment_of(c, z);
        match challenge_of(p, &commitment[..t], message, rule.number()) {
            Some(drawn) => &drawn[..n] == c,
            None => false,
        }
    }
}

// The challenge with these entries, in front.
fn challenge_with(entries: &[u16], n: usize) -> [i8; MAX_N]
    requires { n ≤ max_n }
    ensures { take n result ≡ challenge_of n entries.now }
{
    let mut c = [0i8; MAX_N];
    read_challenge(entries, &mut c[..n]);
    c
}

// Checks in a ring on exponents and evaluations, and a signature's bytes without its set byte. Refuses with 18, 4, 7, 12. Exponents and evaluations are two
// lists, and not tested yet, as a session holds them and a public key's bytes give them.
#[tactic(auto, unfolding(crate::specs::Check::check_refusal_of, crate::specs::Check::answer_on, crate::specs::Check::body_read))]
pub fn check_in(
    ring: &Ring,
    exponents: &[u16],
    evaluations: &[u32],
    signature: &[u8],
    message: &[u8],
    rule: u8,
) -> Result<Verdict, Refusal>
    requires exponents_len { (length exponents.now ≡ ring.now.params.t) × (length evaluations.now ≡ ring.now.params.t) × (length signature.now ≡ 2 * ring.now.params.b + 2 * ring.now.params.n) }
    ensures { verdict_in result ≡ answer_on draw_challenge rule ring.now.params exponents.now evaluations.now message.now signature.now }
{
    let p = ring.params;
    let n = p.n;
    let rule = Rule::of(rule).ok_or(Refusal::WrongRule)?;
    ensure(are_exponents(exponents, p.n), Refusal::WrongExponents)?;
    ensure(are_below(evaluations, p.q), Refusal::WrongEvaluation)?;
    let decoded = decode_signature(p, signature);
    let entries = decoded.entries();
    ensure(are_entries_of(entries, n), Refusal::WrongEntries)?;
    let public = Public {
        ring,
        exponents,
        evaluations,
    };
    let c = challenge_with(entries, n);
    if public.accepts(&c[..n], decoded.z(), message, rule) {
        Ok(Verdict::Yes)
    } else {
        Ok(Verdict::No)
    }
}

// Checks a signature of a message against a public key under a rule of hashing. Refuses with 1, 2, 1, 18, 4, 7, 12; a point out of range is a no.
#[tactic(auto, unfolding(crate::specs::Check::check_refusal_in, crate::specs::Check::check_refusal, crate::specs::Check::check_verdict, crate::specs::Check::check_answer, crate::specs::Check::check_stated, crate::specs::Check::answer_on, encoding::specs::Encoding::exponents_of, encoding::specs::Encoding::evaluations_of))]
pub fn check(
    public_key: &[u8],
    message: &[u8],
    signature: &[u8],
    rule: u8,
) -> Result<Verdict, Refusal>
    ensures answer { verdict_in result ≡ check_answer rule public_key.now message.now signature.now }
    ensures number { verdict_states (verdict_in result) ≡ check_stated rule public_key.now message.now signature.now }
{
    ensure(
        message.len() <= MAX_MESSAGE && signature.len() != 0,
        Refusal::WrongLength,
    )?;
    let ring = ring_in(public_key)?;
    let p = ring.params;
    ensure(signature[0] == public_key[0], Refusal::WrongSet)?;
    ensure(
        public_key.len() == public_key_size(p) && signature.len() == signature_size(p),
        Refusal::WrongLength,
    )?;
    let key = decode_public_key(p, &public_key[1..]);
    check_in(
        &ring,
        key.exponents(),
        key.evaluations(),
        &signature[1..],
        message,
        rule,
    )
}
