// Evaluation at points: by the split in sets that have one, else one point after the other. Both meet one contract.
ghost use Rattle.std.specs.Prelude.{◌≡◌, true, ◌-◌, ◌≤◌, T, length, take};
ghost use Rattle.parameters.specs.Limits.{max_n};
ghost use Rattle.encoding.specs.Encoding.{are_exponents};
ghost use Rattle.polynomial.specs.Evaluation.{evaluations, evaluation_residues};
ghost use Rattle.polynomial.specs.Polynomial.{ternary};
ghost use Rattle.transform.specs.AllExponents.{all_exponents};
ghost use Rattle.transform.specs.Prime.{Prime};

use crate::challenge::challenge_values;
use crate::evaluation::values_of;
use crate::reading::{centre_all, read_centred, read_values};
use parameters::MAX_N;
use split_tables::Ring;

// The least q that the split's arithmetic takes.
const SPLIT_FROM: u32 = 524289;

// The evaluations at the exponents, in their order. Each of the four below tells the same way whether a set has a split; it has another plain function and
// another reader of values, so that one function for the test would take both as arguments.
pub fn evaluate(ring: &Ring, f: &[i16], exponents: &[u16], out: &mut [i32])
    requires f_len { (length f.now ≡ ring.now.params.n) × (are_exponents ring.now.params exponents.now ≡ true) × (length out.old ≡ length exponents.now) }
    ensures { out.new ≡ evaluations ring.now.params f.now exponents.now }
{
    let p = ring.params;
    if p.q < SPLIT_FROM {
        polynomial::evaluation::evaluate(&ring.powers(), f, exponents, out);
    } else {
        let values = values_of(ring, f);
        read_centred(&values, p.n, exponents, p.q, out);
    }
}

// The same reduced to 0..q-1.
pub fn evaluate_residues(ring: &Ring, f: &[i16], exponents: &[u16], out: &mut [u32])
    requires f_len { (length f.now ≡ ring.now.params.n) × (are_exponents ring.now.params exponents.now ≡ true) × (length out.old ≡ length exponents.now) }
    ensures { out.new ≡ evaluation_residues ring.now.params f.now exponents.now }
{
    let p = ring.params;
    if p.q < SPLIT_FROM {
        polynomial::evaluation::evaluate_residues(&ring.powers(), f, exponents, out);
    } else {
        let values = values_of(ring, f);
        read_values(&values, exponents, out);
    }
}

// The evaluations at the exponents 1 .. N - 1, in this order.
pub fn evaluate_all(ring: &Ring, f: &[i16], out: &mut [i32])
    requires prime { Prime ring.now.params.n }
    requires f_len { (length f.now ≡ ring.now.params.n) × (length out.old ≡ ring.now.params.n - 1) }
    ensures { out.new ≡ evaluations ring.now.params f.now (all_exponents ring.now.params) }
{
    let p = ring.params;
    if p.q < SPLIT_FROM {
        let last = p.n - 1;
        transform::evaluation::evaluate_all(&ring.powers(), &ring.split[..last], f, out);
    } else {
        let values = values_of(ring, f);
        centre_all(&values, p.q, out);
    }
}

// The coefficients of a challenge as the plain evaluator takes them, in front.
fn wide_challenge(c: &[i8]) -> [i16; MAX_N]
    requires { length c.now ≤ max_n }
    ensures { take (length c.now) result ≡ c.now }
{
    let mut out = [0i16; MAX_N];
    for i in 0..c.len() {
        out[i] = i16::from(c[i]);
    }
    out
}

// The evaluations of a challenge at the exponents, in their order, in 0..q-1.
pub fn evaluate_challenge(ring: &Ring, c: &[i8], exponents: &[u16], out: &mut [u32])
    requires usable { T (ternary c.now) }
    requires c_len { (length c.now ≡ ring.now.params.n) × (are_exponents ring.now.params exponents.now ≡ true) × (length out.old ≡ length exponents.now) }
    ensures { out.new ≡ evaluation_residues ring.now.params c.now exponents.now }
{
    let p = ring.params;
    if p.q < SPLIT_FROM {
        let n = p.n;
        let wide = wide_challenge(c);
        polynomial::evaluation::evaluate_residues(&ring.powers(), &wide[..n], exponents, out);
    } else {
        let values = challenge_values(ring, c);
        read_values(&values, exponents, out);
    }
}
