// The readers and writers of the three encodings for C: 0, else the refusal number.
ghost use Rattle.std.specs.Prelude.{◌≡◌, length};
ghost use Rattle.codec.specs.Codec.{read_secret_key_refusal, read_secret_key_written, write_secret_key_refusal, write_secret_key_written};
ghost use Rattle.codec.specs.Codec.{read_public_key_refusal, read_exponents_written, read_evaluations_written};
ghost use Rattle.codec.specs.Codec.{write_public_key_refusal, write_public_key_written};
ghost use Rattle.codec.specs.Codec.{read_signature_refusal, read_entries_written, read_z_written};
ghost use Rattle.codec.specs.Codec.{write_signature_refusal, write_signature_written};

use crate::number;

#[unsafe(no_mangle)]
pub extern "C" fn passign_read_secret_key(secret_key: &[u8], coefficients: &mut [i8]) -> u32
    ensures answer { result ≡ read_secret_key_refusal secret_key.now (length coefficients.old) }
    ensures written { coefficients.new ≡ read_secret_key_written secret_key.now coefficients.old }
{
    number(passign::read_secret_key(secret_key, coefficients))
}

#[unsafe(no_mangle)]
pub extern "C" fn passign_write_secret_key(
    set: u8,
    coefficients: &[i8],
    secret_key: &mut [u8],
) -> u32
    ensures answer { result ≡ write_secret_key_refusal set coefficients.now (length secret_key.old) }
    ensures written { secret_key.new ≡ write_secret_key_written set coefficients.now secret_key.old }
{
    number(passign::write_secret_key(set, coefficients, secret_key))
}

#[unsafe(no_mangle)]
pub extern "C" fn passign_read_public_key(
    public_key: &[u8],
    points: &mut [u16],
    evaluations: &mut [u32],
) -> u32
    ensures answer { result ≡ read_public_key_refusal public_key.now (length points.old) (length evaluations.old) }
    ensures exponents { points.new ≡ read_exponents_written public_key.now points.old evaluations.old }
    ensures values { evaluations.new ≡ read_evaluations_written public_key.now points.old evaluations.old }
{
    number(passign::read_public_key(public_key, points, evaluations))
}

#[unsafe(no_mangle)]
pub extern "C" fn passign_write_public_key(
    set: u8,
    points: &[u16],
    evaluations: &[u32],
    public_key: &mut [u8],
) -> u32
    ensures answer { result ≡ write_public_key_refusal set points.now evaluations.now (length public_key.old) }
    ensures written { public_key.new ≡ write_public_key_written set points.now evaluations.now
        public_key.old }
{
    number(passign::write_public_key(set, points, evaluations, public_key))
}

#[unsafe(no_mangle)]
pub extern "C" fn passign_read_signature(
    signature: &[u8],
    entries: &mut [u16],
    z: &mut [i16],
) -> u32
    ensures answer { result ≡ read_signature_refusal signature.now (length entries.old) (length z.old) }
    ensures challenge { entries.new ≡ read_entries_written signature.now entries.old z.old }
    ensures z_written { z.new ≡ read_z_written signature.now entries.old z.old }
{
    number(passign::read_signature(signature, entries, z))
}

#[unsafe(no_mangle)]
pub extern "C" fn passign_write_signature(
    set: u8,
    entries: &[u16],
    z: &[i16],
    signature: &mut [u8],
) -> u32
    ensures answer { result ≡ write_signature_refusal set entries.now z.now (length signature.old) }
    ensures written { signature.new ≡ write_signature_written set entries.now z.now signature.old }
{
    number(passign::write_signature(set, entries, z, signature))
}
