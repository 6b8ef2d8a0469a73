// The hash of a commitment and a message, and the sparse challenge drawn from it: the commitment bytes, the pool of eight digests, and the drawer. Lists stand
// in front of arrays of one size for all sets, since the libraries have no heap.
#![tactic(auto)]

ghost use Rattle.std.specs.Prelude.{◌≡◌, ◌↔◌, true, ◌+◌, ◌*◌, ◌/◌, ◌%◌, ◌<◌, ◌≤◌, IsSome, IfSome, length, map, take};
ghost use mathlib.Core.List.{flatten};
ghost use Rattle.parameters.specs.Limits.{max_t};
ghost use Rattle.parameters.specs.Sound.{Fitting};
ghost use Rattle.challenge.specs.Asks.{DigestSizes};
ghost use Rattle.challenge.specs.Draw.{sign_at, value_at, draw, draw_challenge, drawn_of};
ghost use Rattle.challenge.specs.Pool.{is_rule, little_endian, pool_digests, pool};
ghost use Rattle.challenge.specs.Rules.{rule_number};

use parameters::{MAX_N, MAX_T, Params};
use sha512::{sha512, sha512_of_two};

// The rules of hashing, with the documents' numbers: the low byte of each evaluation, or all three bytes.
#[derive(Clone, Copy, Debug, PartialEq, Eq)]
pub enum Rule {
    LowByte = 1,
    ThreeBytes = 2,
}

impl Rule {
    // The rule of a number that comes from outside, a caller's, a file's or C's, where it is one: no derive of std makes this test.
    pub fn of(byte: u8) -> Option<Rule>
        ensures known { IsSome result ↔ (is_rule byte ≡ true) }
        ensures number { IfSome result (λ r. rule_number r ≡ byte) }
    {
        match byte {
            1 => Some(Rule::LowByte),
            2 => Some(Rule::ThreeBytes),
            _ => None,
        }
    }

    // By name and no `From`: a number is document 01's word for it.
    pub fn number(self) -> u8
        ensures { result ≡ rule_number self }
    {
        self as u8
    }
}

// Room for three bytes of each of MAX_T evaluations.
const THREE_BYTES_ROOM: usize = 3456;

// The W low bytes of each evaluation, in front.
#[tactic(auto, using(crate::proofs::CommitmentBytes::low_bytes_none, crate::proofs::CommitmentBytes::low_bytes_more))]
fn low_bytes<const W: usize>(evaluations: &[u32]) -> [u8; THREE_BYTES_ROOM]
    requires evaluations_len_bound { length evaluations.now ≤ max_t }
    requires width { W ≤ 3 }
    ensures { take (W * length evaluations.now) result ≡ flatten (map (little_endian W) evaluations.now) }
{
    let mut bytes = [0u8; THREE_BYTES_ROOM];
    for i in 0..evaluations.len() {
        let at = W * i;
        let number = evaluations[i].to_le_bytes();
        bytes[at..at + W].copy_from_slice(&number[..W]);
    }
    bytes
}

// The digests of a pool, an array of arrays by value: each further one is of the one before.
fn pool_digests(commitment: &[u8], message: &[u8]) -> [[u8; 64]; 8]
    ensures { result ≡ pool_digests commitment.now message.now }
{
    let m = sha512(message);
    let d0 = sha512_of_two(commitment, &m);
    let d1 = sha512(&d0);
    let d2 = sha512(&d1);
    let d3 = sha512(&d2);
    let d4 = sha512(&d3);
    let d5 = sha512(&d4);
    let d6 = sha512(&d5);
    let d7 = sha512(&d6);
    [d0, d1, d2, d3, d4, d5, d6, d7]
}

// Digests one after the other.
fn flat(digests: [[u8; 64]; 8]) -> [u8; 512]
    requires { DigestSizes digests }
    ensures { result ≡ flatten digests }
{
    let mut bytes = [0u8; 512];
    for i in 0..512 {
        bytes[i] = digests[i / 64][i % 64];
    }
    bytes
}

// The pool of commitment bytes and a message.
fn pool_after(commitment: &[u8], message: &[u8]) -> [u8; 512]
    ensures { result ≡ flatten (pool_digests commitment.now message.now) }
{
    flat(pool_digests(commitment, message))
}

// The pool of a commitment and a message under the rule of a number, which may come from any caller: one that is no rule hashes the low byte, as rule 1.
#[tactic(auto, unfolding(crate::specs::Pool::commitment_bytes, crate::specs::Pool::pool))]
pub fn pool_of(evaluations: &[u32], message: &[u8], rule: u8) -> [u8; 512]
    requires { length evaluations.now ≤ max_t }
    ensures { result ≡ pool rule evaluations.now message.now }
{
    let count = evaluations.len();
    // the number of bytes is a constant in each arm: one that is known only as it runs would make the writer slower
    match Rule::of(rule) {
        Some(Rule::ThreeBytes) => {
            let bytes = low_bytes::<3>(evaluations);
            pool_after(&bytes[..3 * count], message)
        }
        _ => {
            let bytes = low_bytes::<1>(evaluations);
            pool_after(&bytes[..count], message)
        }
    }
}

// Sign i of a pool.
#[tactic(auto, unfolding(crate::specs::Draw::sign_at))]
fn sign_at(pool: &[u8], i: usize) -> i8
    requires { i / 8 < length pool.now }
    ensures { result ≡ sign_at pool.now i }
{
    let byte = pool[i / 8];
    if (byte >> (i % 8)) % 2 == 0 { 1 } else { -1 }
}

// Value m of a pool.
#[tactic(auto, unfolding(crate::specs::Draw::value_at))]
fn value_at(pool: &[u8], m: usize) -> usize
    requires { 8 + 2 * m + 1 < length pool.now }
    ensures { result ≡ value_at pool.now m }
{
    let at = 8 + 2 * m;
    usize::from(u16::from_be_bytes([pool[at], pool[at + 1]]))
}

// The challenge that a pool yields, N coefficients in front, or none where the pool is spent. A pool has at least the eight bytes of signs; with too few
// values behind them it is spent.
pub fn draw_from(p: Params, pool: &[u8]) -> Option<[i8; MAX_N]>
    requires fitting { Fitting p }
    requires in_bounds { 8 ≤ length pool.now }
    ensures { drawn_of p result ≡ draw p pool.now }
{
    let limit = p.n * (65536 / p.n);
    let values = (pool.len() - 8) / 2;
    // which indices are kept: an array of flags, since a set of them would want a heap
    let mut marks = [false; MAX_N];
    let mut challenge = [0i8; MAX_N];
    let mut count = 0;
    for m in 0..values {
        if count == p.b {
            break;
        }
        let v = value_at(pool, m);
        // a value that is skipped costs no remainder
        if v < limit {
            let index = v % p.n;
            if !marks[index] {
                marks[index] = true;
                challenge[index] = sign_at(pool, count);
                count += 1;
            }
        }
    }
    (count == p.b).then_some(challenge)
}

// The challenge of a commitment and a message under the rule of a number, or none where their pool is spent.
#[tactic(auto, unfolding(crate::specs::Draw::draw_challenge))]
pub fn challenge_of(p: Params, evaluations: &[u32], message: &[u8], rule: u8) -> Option<[i8; MAX_N]>
    requires fitting { Fitting p }
    requires evaluations_len_bound { length evaluations.now ≤ max_t }
    ensures { drawn_of p result ≡ draw_challenge rule p evaluations.now message.now }
{
    draw_from(p, &pool_of(evaluations, message, rule))
}
