// Signing: the masks are offered in turn and the first that passes signs; then the entry with its refusals. Lists stand in front of arrays of one size for all
// sets, since the libraries have no heap.
#![tactic(auto)]

ghost use Rattle.std.specs.Prelude.{◌≡◌, true, ◌∷◌, ◌<◌, ◌≤◌, T, IfSome, length, take};
ghost use Rattle.algebra.specs.Integer.{within};
ghost use Rattle.challenge.specs.Draw.{draw_challenge};
ghost use Rattle.challenge.specs.Rules.{rule_number};
ghost use Rattle.parameters.specs.Sound.{Fitting};
ghost use Rattle.signing.specs.Sign.{are_whole, sign_lengths, sign_answer_in, sign_written_in, sign_answer, sign_stated, sign_written};
ghost use Rattle.encoding.specs.Challenge.{entries_of};
ghost use Rattle.polynomial.specs.Sparse.{Sparse};
ghost use Rattle.refusal.specs.Answer.{signing_states};
ghost use Rattle.refusal.specs.Meaning.{signing_in};
ghost use Rattle.scheme.specs.Scheme.{attempt, signature_in_range};
ghost use Rattle.signing.specs.Asks.{TernaryKey, Points};
ghost use Rattle.signing.specs.Found.{parts_in, parts_of, found_in, found_of};
ghost use Rattle.signing.specs.Signer.{offered_count, signed_by};

use challenge::{Rule, challenge_of};
use encoding::numbers::{are_exponents, narrow};
use encoding::secret_key::{are_key_bytes, decode_secret_key, secret_key_size};
use encoding::signature::{Signature, put_signature, signature_size, write_entries};
use parameters::{MAX_B, MAX_MASKS, MAX_MESSAGE, MAX_N, MAX_T, Params};
use polynomial::product::z_of;
use polynomial::range::in_range;
use refusal::{Refusal, ensure, ring_in};
use split::points::evaluate_residues;
use split_tables::Ring;

// An accepted signing: how many masks were passed over, and the signature.
#[derive(Drop)]
struct Signed {
    passed_over: usize,
    signature: Signature,
}

// What signs: a key at the points of a ring, with a message under a rule of hashing.
#[derive(Clone, Copy)]
struct Signer<'a> {
    ring: &'a Ring<'a>,
    f: &'a [i16],
    exponents: &'a [u16],
    message: &'a [u8],
    rule: Rule,
    ghost ternary: { TernaryKey ring.now.params f.now },
    ghost points: { Points ring.now.params exponents.now },
}

impl Signer<'_> {
    // The signature with a challenge and a point z: the challenge as b entries, the N coefficients of z in 16 bits.
    fn signature_of(&self, c: &[i8], z: &[i32]) -> Signature
        requires challenge { Sparse self.now.ring.now.params c.now }
        requires z_len { (length z.now ≡ self.now.ring.now.params.n) × T (within 32767 z.now) }
        ensures sizes { (result.b ≡ self.now.ring.now.params.b) × (result.n ≡ self.now.ring.now.params.n) }
        ensures entries { take self.now.ring.now.params.b result.entries ≡ entries_of c.now }
        ensures z { take self.now.ring.now.params.n result.z ≡ z.now }
    {
        let n = self.ring.params.n;
        let b = self.ring.params.b;
        let mut entries = [0u16; MAX_B];
        write_entries(c, &mut entries[..b]);
        let mut narrowed = [0i16; MAX_N];
        narrow(z, &mut narrowed[..n]);
        Signature {
            b,
            n,
            entries,
            z: narrowed,
        }
    }

    // The signature with the challenge c and the mask y, where its point is in range.
    fn signature_in_range(&self, c: &[i8], y: &[i16]) -> Option<Signature>
        requires challenge { Sparse self.now.ring.now.params c.now }
        requires y_len { length y.now ≡ self.now.ring.now.params.n }
        ensures sizes { IfSome result (λ s. (s.b ≡ self.now.ring.now.params.b) × (s.n ≡ self.now.ring.now.params.n)) }
        ensures parts { parts_in self.now.ring.now.params result ≡ parts_of (signature_in_range self.now.ring.now.params self.now.f.now y.now c.now) }
    {
        let p = self.ring.params;
        let n = p.n;
        let mut z = [0i32; MAX_N];
        z_of(self.f, c, y, &mut z[..n]);
        if in_range(&z[..n], p.k - p.b as u32) {
            Some(self.signature_of(c, &z[..n]))
        } else {
            None
        }
    }

    // The signature that the mask y gives, where it passes.
    #[tactic(auto, unfolding(scheme::specs::Scheme::attempt))]
    fn attempt(&self, y: &[i16]) -> Option<Signature>
        requires y_len { length y.now ≡ self.now.ring.now.params.n }
        ensures sizes { IfSome result (λ s. (s.b ≡ self.now.ring.now.params.b) × (s.n ≡ self.now.ring.now.params.n)) }
        ensures parts { parts_in self.now.ring.now.params result ≡ parts_of
            (attempt (draw_challenge (rule_number self.now.rule)) self.now.ring.now.params self.now.exponents.now self.now.message.now self.now.f.now y.now) }
    {
        let p = self.ring.params;
        let n = p.n;
        let t = p.t;
        let mut commitment = [0u32; MAX_T];
        evaluate_residues(self.ring, y, self.exponents, &mut commitment[..t]);
        let c = challenge_of(p, &commitment[..t], self.message, self.rule.number())?;
        self.signature_in_range(&c[..n], y)
    }

    // Offers the masks in turn, N numbers each: the signing by the first that passes.
    fn first_passing(&self, masks: &[i16]) -> Option<Signed>
        ensures sizes { IfSome result (λ s. (s.signature.b ≡ self.now.ring.now.params.b) × (s.signature.n ≡ self.now.ring.now.params.n)) }
        ensures offered { IfSome result (λ s. s.passed_over < offered_count self.now.ring.now.params masks.now) }
        ensures parts { found_in self.now.ring.now.params result ≡ found_of
            (signed_by (draw_challenge (rule_number self.now.rule)) self.now.ring.now.params self.now.f.now self.now.exponents.now masks.now self.now.message.now) }
    {
        let n = self.ring.params.n;
        for i in 0..masks.len() / n {
            let at = i * n;
            if let Some(signature) = self.attempt(&masks[at..at + n]) {
                return Some(Signed {
                    passed_over: i,
                    signature,
                });
            }
        }
        None
    }
}

// Signs in a ring with a key without its set byte, which decides nothing here: it is what the signature begins with, and a ring does not know it. Refuses with
// 1, 18, 4, 5, 6, 9, and then leaves the buffer as it was.
#[tactic(auto, unfolding(crate::specs::Sign::sign_refusal_in, crate::specs::Sign::sign_answer_in, crate::specs::Sign::sign_written_in, crate::specs::Signer::signature_of, encoding::specs::Encoding::is_key, encoding::specs::Encoding::key_of))]
pub fn sign_in(
    ring: &Ring,
    set: u8,
    key: &[u8],
    exponents: &[u16],
    masks: &[i16],
    message: &[u8],
    out: &mut [u8],
    rule: u8,
) -> Result<u8, Refusal>
    ensures answer { signing_in result ≡ sign_answer_in draw_challenge rule ring.now.params (set ∷ key.now) exponents.now
        masks.now message.now out.old }
    ensures written { out.new ≡ sign_written_in draw_challenge rule ring.now.params (set ∷ key.now) exponents.now
        masks.now message.now out.old }
{
    let p = ring.params;
    let n = p.n;
    ensure(
        1 + key.len() == secret_key_size(p)
            && exponents.len() == p.t
            && masks.len() % n == 0
            && masks.len() <= MAX_MASKS * n
            && out.len() == signature_size(p),
        Refusal::WrongLength,
    )?;
    let rule = Rule::of(rule).ok_or(Refusal::WrongRule)?;
    ensure(are_exponents(exponents, n), Refusal::WrongExponents)?;
    ensure(are_key_bytes(key), Refusal::WrongKey)?;
    ensure(in_range(masks, p.k), Refusal::WrongMask)?;
    let f = decode_secret_key(p, key);
    let signer = Signer {
        ring,
        f: &f[..n],
        exponents,
        message,
        rule,
    };
    let signed = signer.first_passing(masks).ok_or(Refusal::NonePasses)?;
    put_signature(set, signed.signature.entries(), signed.signature.z(), out);
    Ok(signed.passed_over as u8)
}

// Signs a message under a rule of hashing with the first of the masks that passes, N numbers each, one after the other. Refuses with 1, 2, 1, 18, 4, 5, 6, 9,
// and then leaves the buffer as it was.
#[tactic(auto, unfolding(crate::specs::Sign::sign_refusal, crate::specs::Sign::sign_answer_in, crate::specs::Sign::sign_written_in, crate::specs::Sign::sign_answer, crate::specs::Sign::sign_stated, crate::specs::Sign::sign_written))]
pub fn sign(
    secret_key: &[u8],
    exponents: &[u16],
    masks: &[i16],
    message: &[u8],
    out: &mut [u8],
    rule: u8,
) -> Result<u8, Refusal>
    ensures answer { signing_in result ≡ sign_answer rule secret_key.now exponents.now masks.now
        message.now out.old }
    ensures number { signing_states (signing_in result) ≡ sign_stated rule secret_key.now exponents.now masks.now
        message.now out.old }
    ensures written { out.new ≡ sign_written rule secret_key.now exponents.now masks.now
        message.now out.old }
{
    ensure(message.len() <= MAX_MESSAGE, Refusal::WrongLength)?;
    let ring = ring_in(secret_key)?;
    sign_in(
        &ring,
        secret_key[0],
        &secret_key[1..],
        exponents,
        masks,
        message,
        out,
        rule,
    )
}
