// A signature: a challenge as entries, an index in the low 15 bits, top bit 1 for -1, and the point z, tested, decoded and written.
ghost use Rattle.std.specs.Prelude.{◌≡◌, ◌+◌, ◌*◌, ◌<◌, ◌≤◌, length, take, drop};
ghost use Rattle.parameters.specs.Limits.{max_b, max_n};
ghost use Rattle.parameters.specs.Sound.{Limited};
ghost use Rattle.encoding.specs.Challenge.{index_of, coefficient_of, coefficient_at, entry_of, are_entries, challenge_of, entries_of};
ghost use Rattle.encoding.specs.Encoding.{entries_in, z_in, signature_bytes, signature_size};

use crate::numbers::{is_next, read_list, write_list};
use parameters::{MAX_B, MAX_N, Params};

// What a signature holds: b challenge entries and the N coefficients of z, each list in front of an array, since the libraries have no heap.
#[derive(Drop)]
pub struct Signature {
    pub b: usize,
    pub n: usize,
    pub entries: [u16; MAX_B],
    pub z: [i16; MAX_N],
    ghost room: { (b ≤ max_b) × (n ≤ max_n) },
}

impl Signature {
    pub fn entries(&self) -> &[u16]
        ensures { result.now ≡ take self.now.b self.now.entries }
    {
        &self.entries[..self.b]
    }

    pub fn z(&self) -> &[i16]
        ensures { result.now ≡ take self.now.n self.now.z }
    {
        &self.z[..self.n]
    }
}

fn entry_index(entry: u16) -> usize
    ensures { result ≡ index_of entry }
{
    usize::from(entry % 32768)
}

fn entry_coefficient(entry: u16) -> i8
    ensures { result ≡ coefficient_of entry }
{
    if entry < 32768 { 1 } else { -1 }
}

// Whether these are the entries of a challenge of n coefficients.
pub fn are_entries_of(entries: &[u16], n: usize) -> bool
    ensures { result ≡ are_entries n entries.now }
{
    let mut ok = true;
    let mut from: usize = 0;
    for entry in entries {
        let index = entry_index(*entry);
        ok = ok & is_next(from, index, n);
        from = index + 1;
    }
    ok
}

// The coefficient of index i where the next entry is number k.
fn coefficient_at(entries: &[u16], k: usize, i: usize) -> i8
    ensures { result ≡ coefficient_at i (drop k entries.now) }
{
    match entries.get(k) {
        Some(&entry) if entry_index(entry) == i => entry_coefficient(entry),
        _ => 0,
    }
}

// Writes the challenge with these entries. By an index into them: what it promises holds of any entries, also where they do not increase.
#[tactic(auto, using(crate::proofs::Entries::read_used, crate::proofs::Entries::read_kept))]
pub fn read_challenge(entries: &[u16], c: &mut [i8])
    ensures { c.new ≡ challenge_of (length c.old) entries.now }
{
    let mut k: usize = 0;
    for i in 0..c.len() {
        let a = coefficient_at(entries, k, i);
        c[i] = a;
        if a != 0 {
            k += 1;
        }
    }
}

// The entry of a coefficient that is not 0.
fn entry_of(i: usize, a: i8) -> u16
    requires { i < 32768 }
    ensures { result ≡ entry_of i a }
{
    if a < 0 { i as u16 + 32768 } else { i as u16 }
}

// Writes the entries of a challenge.
pub fn write_entries(c: &[i8], entries: &mut [u16])
    requires c_len_bound { length c.now ≤ 32768 }
    requires entries_len { length entries.old ≡ length (entries_of c.now) }
    ensures { entries.new ≡ entries_of c.now }
{
    let mut k: usize = 0;
    for i in 0..c.len() {
        let a = c[i];
        if a != 0 {
            entries[k] = entry_of(i, a);
            k += 1;
        }
    }
}

// Decodes what follows the set byte.
pub fn decode_signature(p: Params, body: &[u8]) -> Signature
    requires limited { Limited p }
    requires body_len { length body.now ≡ 2 * p.b + 2 * p.n }
    ensures sizes { (result.b ≡ p.b) × (result.n ≡ p.n) }
    ensures entries { take p.b result.entries ≡ entries_in p body.now }
    ensures z { take p.n result.z ≡ z_in p body.now }
{
    let n = p.n;
    let b = p.b;
    let at = 2 * b;
    let mut entries = [0u16; MAX_B];
    read_list(&body[..at], &mut entries[..b]);
    let mut z = [0i16; MAX_N];
    read_list(&body[at..], &mut z[..n]);
    Signature { b, n, entries, z }
}

// Writes the set byte, the challenge entries and z.
pub fn put_signature(set: u8, entries: &[u16], z: &[i16], out: &mut [u8])
    requires { length out.old ≡ 1 + 2 * length entries.now + 2 * length z.now }
    ensures { out.new ≡ signature_bytes set entries.now z.now }
{
    out[0] = set;
    let at = 1 + 2 * entries.len();
    write_list(entries, &mut out[1..at]);
    write_list(z, &mut out[at..]);
}

pub fn signature_size(p: Params) -> usize
    requires { Limited p }
    ensures value { result ≡ signature_size p }
    ensures bound { result ≤ 2435 }
{
    1 + 2 * p.b + 2 * p.n
}
