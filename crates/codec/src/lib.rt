// The readers and writers of the three encodings as entries: each tests what document 01 tests, in its order, then decodes or writes. What they test and
// hand out differs in type and in number, so one generic reader or writer would be no plainer than these lines.
// A set is a byte, and each takes any: what is no set is refused with 2.
#![tactic(auto)]

ghost use Rattle.std.specs.Prelude.{◌≡◌, [], length};
ghost use Rattle.refusal.specs.Answer.{answer_of, stated, answer_states};
ghost use Rattle.refusal.specs.Meaning.{number_in, answer_in};
ghost use Rattle.codec.specs.Codec.{read_secret_key_refusal, read_secret_key_written, write_secret_key_refusal, write_secret_key_written};
ghost use Rattle.codec.specs.Codec.{public_key_lists_refusal, read_public_key_refusal, read_exponents_written, read_evaluations_written};
ghost use Rattle.codec.specs.Codec.{write_public_key_refusal, write_public_key_written, read_signature_refusal, read_entries_written, read_z_written};
ghost use Rattle.codec.specs.Codec.{write_signature_refusal, write_signature_written};

use encoding::numbers::{are_below, are_exponents};
use encoding::public_key::{decode_public_key, public_key_size, put_public_key};
use encoding::secret_key::{are_key_bytes, put_secret_key, read_key8, secret_key_size};
use encoding::signature::{are_entries_of, decode_signature, put_signature, signature_size};
use parameters::Params;
use polynomial::range::is_ternary;
use refusal::{Refusal, ensure, ring_in};
use split_tables::Ring;

// Reads a secret key, N coefficients. Refuses with 1, 2, 1, 5.
#[tactic(auto, unfolding(crate::specs::Codec::read_secret_key_in, crate::specs::Codec::read_secret_key_refusal, crate::specs::Codec::read_secret_key_written, encoding::specs::Encoding::is_key, encoding::specs::Encoding::key_of))]
pub fn read_secret_key(bytes: &[u8], out: &mut [i8]) -> Result<(), Refusal>
    ensures answer { answer_in result ≡ answer_of (read_secret_key_refusal bytes.now (length out.old)) }
    ensures number { answer_states (answer_in result) ≡ stated (read_secret_key_refusal bytes.now (length out.old)) [] }
    ensures written { out.new ≡ read_secret_key_written bytes.now out.old }
{
    let ring = ring_in(bytes)?;
    let p = ring.params;
    ensure(
        bytes.len() == secret_key_size(p) && out.len() == p.n,
        Refusal::WrongLength,
    )?;
    ensure(are_key_bytes(&bytes[1..]), Refusal::WrongKey)?;
    read_key8(&bytes[1..], out);
    Ok(())
}

// Writes a secret key. Refuses with 2, 1, 5.
#[tactic(auto, unfolding(crate::specs::Codec::write_secret_key_refusal, crate::specs::Codec::write_secret_key_written))]
pub fn write_secret_key(set: u8, f: &[i8], out: &mut [u8]) -> Result<(), Refusal>
    ensures answer { answer_in result ≡ answer_of (write_secret_key_refusal set f.now (length out.old)) }
    ensures number { answer_states (answer_in result) ≡ stated (write_secret_key_refusal set f.now (length out.old)) [] }
    ensures written { out.new ≡ write_secret_key_written set f.now out.old }
{
    let ring = Ring::of(set).ok_or(Refusal::WrongSet)?;
    let p = ring.params;
    ensure(
        f.len() == p.n && out.len() == secret_key_size(p),
        Refusal::WrongLength,
    )?;
    ensure(is_ternary(f), Refusal::WrongKey)?;
    put_secret_key(set, f, out);
    Ok(())
}

// Tests what a public key holds. Refuses with 4, 7.
#[tactic(auto, unfolding(crate::specs::Codec::public_key_lists_refusal))]
fn ensure_lists(p: Params, exponents: &[u16], evaluations: &[u32]) -> Result<(), Refusal>
    ensures { number_in result ≡ public_key_lists_refusal p exponents.now evaluations.now }
{
    ensure(are_exponents(exponents, p.n), Refusal::WrongExponents)?;
    ensure(are_below(evaluations, p.q), Refusal::WrongEvaluation)
}

// Reads a public key, t exponents and t evaluations. Refuses with 1, 2, 1, 4, 7.
#[tactic(auto, unfolding(crate::specs::Codec::read_public_key_in, crate::specs::Codec::read_public_key_refusal, crate::specs::Codec::read_exponents_written, crate::specs::Codec::read_evaluations_written, encoding::specs::Encoding::exponents_of, encoding::specs::Encoding::evaluations_of))]
pub fn read_public_key(
    bytes: &[u8],
    exponents: &mut [u16],
    evaluations: &mut [u32],
) -> Result<(), Refusal>
    ensures answer { answer_in result ≡ answer_of (read_public_key_refusal bytes.now (length exponents.old) (length evaluations.old)) }
    ensures number { answer_states (answer_in result) ≡ stated
        (read_public_key_refusal bytes.now (length exponents.old) (length evaluations.old)) [] }
    ensures exponents { exponents.new ≡ read_exponents_written bytes.now exponents.old evaluations.old }
    ensures values { evaluations.new ≡ read_evaluations_written bytes.now exponents.old evaluations.old }
{
    let ring = ring_in(bytes)?;
    let p = ring.params;
    ensure(
        bytes.len() == public_key_size(p) && exponents.len() == p.t && evaluations.len() == p.t,
        Refusal::WrongLength,
    )?;
    let key = decode_public_key(p, &bytes[1..]);
    ensure_lists(p, key.exponents(), key.evaluations())?;
    exponents.copy_from_slice(key.exponents());
    evaluations.copy_from_slice(key.evaluations());
    Ok(())
}

// Writes a public key. Refuses with 2, 1, 4, 7.
#[tactic(auto, unfolding(crate::specs::Codec::write_public_key_refusal, crate::specs::Codec::write_public_key_written))]
pub fn write_public_key(
    set: u8,
    exponents: &[u16],
    evaluations: &[u32],
    out: &mut [u8],
) -> Result<(), Refusal>
    ensures answer { answer_in result ≡ answer_of (write_public_key_refusal set exponents.now evaluations.now (length out.old)) }
    ensures number { answer_states (answer_in result) ≡ stated
        (write_public_key_refusal set exponents.now evaluations.now (length out.old)) [] }
    ensures written { out.new ≡ write_public_key_written set exponents.now evaluations.now out.old }
{
    let ring = Ring::of(set).ok_or(Refusal::WrongSet)?;
    let p = ring.params;
    ensure(
        exponents.len() == p.t && evaluations.len() == p.t && out.len() == public_key_size(p),
        Refusal::WrongLength,
    )?;
    ensure_lists(p, exponents, evaluations)?;
    put_public_key(set, exponents, evaluations, out);
    Ok(())
}

// Reads a signature, b challenge entries and N coefficients. Refuses with 1, 2, 1, 12.
#[tactic(auto, unfolding(crate::specs::Codec::entries_refusal, crate::specs::Codec::read_signature_in, crate::specs::Codec::read_signature_refusal, crate::specs::Codec::read_entries_written, crate::specs::Codec::read_z_written, encoding::specs::Encoding::entries_read, encoding::specs::Encoding::z_read))]
pub fn read_signature(bytes: &[u8], entries: &mut [u16], z: &mut [i16]) -> Result<(), Refusal>
    ensures answer { answer_in result ≡ answer_of (read_signature_refusal bytes.now (length entries.old) (length z.old)) }
    ensures number { answer_states (answer_in result) ≡ stated
        (read_signature_refusal bytes.now (length entries.old) (length z.old)) [] }
    ensures challenge { entries.new ≡ read_entries_written bytes.now entries.old z.old }
    ensures z_written { z.new ≡ read_z_written bytes.now entries.old z.old }
{
    let ring = ring_in(bytes)?;
    let p = ring.params;
    ensure(
        bytes.len() == signature_size(p) && entries.len() == p.b && z.len() == p.n,
        Refusal::WrongLength,
    )?;
    let signature = decode_signature(p, &bytes[1..]);
    ensure(
        are_entries_of(signature.entries(), p.n),
        Refusal::WrongEntries,
    )?;
    entries.copy_from_slice(signature.entries());
    z.copy_from_slice(signature.z());
    Ok(())
}

// Writes a signature. Refuses with 2, 1, 12.
#[tactic(auto, unfolding(crate::specs::Codec::entries_refusal, crate::specs::Codec::write_signature_refusal, crate::specs::Codec::write_signature_written))]
pub fn write_signature(set: u8, entries: &[u16], z: &[i16], out: &mut [u8]) -> Result<(), Refusal>
    ensures answer { answer_in result ≡ answer_of (write_signature_refusal set entries.now z.now (length out.old)) }
    ensures number { answer_states (answer_in result) ≡ stated (write_signature_refusal set entries.now z.now (length out.old)) [] }
    ensures written { out.new ≡ write_signature_written set entries.now z.now out.old }
{
    let ring = Ring::of(set).ok_or(Refusal::WrongSet)?;
    let p = ring.params;
    ensure(
        entries.len() == p.b && z.len() == p.n && out.len() == signature_size(p),
        Refusal::WrongLength,
    )?;
    ensure(are_entries_of(entries, p.n), Refusal::WrongEntries)?;
    put_signature(set, entries, z, out);
    Ok(())
}
