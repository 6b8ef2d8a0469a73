// A secret key: bytes hex 00, 01, or FF for -1, tested, decoded and written.
ghost use Rattle.std.specs.Prelude.{◌≡◌, true, map, ◌+◌, ◌≤◌, length, take};
ghost use Rattle.parameters.specs.Sound.{Limited};
ghost use Rattle.encoding.specs.Encoding.{is_key_byte, key_coefficient, key_byte, are_key_bytes, key_in, secret_key, secret_key_size};

use parameters::{MAX_N, Params};

fn is_key_byte(x: u8) -> bool
    ensures { result ≡ is_key_byte x }
{
    (x == 0) | ((x == 1) | (x == 255))
}

// Whether each byte is one of a key: every byte is looked at, as in the tests of `numbers`.
pub fn are_key_bytes(bytes: &[u8]) -> bool
    ensures { result ≡ are_key_bytes bytes.now }
{
    let mut ok = true;
    for byte in bytes {
        ok = ok & is_key_byte(*byte);
    }
    ok
}

// The coefficient of a byte.
fn key_coefficient(x: u8) -> i16
    ensures { result ≡ key_coefficient x }
{
    if x == 255 { -1 } else { i16::from(x) }
}

// Reads a key of any length, into as many numbers.
pub fn read_key16(body: &[u8], out: &mut [i16])
    requires { length out.old ≡ length body.now }
    ensures { out.new ≡ key_in body.now }
{
    for i in 0..body.len() {
        out[i] = key_coefficient(body[i]);
    }
}

// Reads a key whose bytes are allowed: each is its coefficient in two's complement.
pub fn read_key8(body: &[u8], out: &mut [i8])
    requires out_len { length out.old ≡ length body.now }
    requires body_value { are_key_bytes body.now ≡ true }
    ensures { out.new ≡ key_in body.now }
{
    for i in 0..body.len() {
        out[i] = body[i].cast_signed();
    }
}

// Decodes what follows the set byte: N coefficients, in front of an array of the largest size, as there is no heap here; of 16 bits, as the evaluators and
// the product take them.
pub fn decode_secret_key(p: Params, body: &[u8]) -> [i16; MAX_N]
    requires limited { Limited p }
    requires body_len { length body.now ≡ p.n }
    ensures { take p.n result ≡ key_in body.now }
{
    let mut f = [0i16; MAX_N];
    read_key16(body, &mut f[..p.n]);
    f
}

// The byte of a key's coefficient.
fn key_byte(a: i8) -> u8
    ensures { result ≡ key_byte a }
{
    if a < 0 { 255 } else { a.cast_unsigned() }
}

// Writes a key's bytes.
fn write_key(f: &[i8], out: &mut [u8])
    requires { length out.old ≡ length f.now }
    ensures { out.new ≡ map key_byte f.now }
{
    for i in 0..f.len() {
        out[i] = key_byte(f[i]);
    }
}

// Writes the set byte and the key's bytes.
#[tactic(auto, using(crate::proofs::Buffer::headed), unfolding(crate::specs::Encoding::secret_key))]
pub fn put_secret_key(set: u8, f: &[i8], out: &mut [u8])
    requires { length out.old ≡ 1 + length f.now }
    ensures { out.new ≡ secret_key set f.now }
{
    out[0] = set;
    write_key(f, &mut out[1..]);
}

pub fn secret_key_size(p: Params) -> usize
    requires { Limited p }
    ensures value { result ≡ secret_key_size p }
    ensures bound { result ≤ 1154 }
{
    1 + p.n
}
