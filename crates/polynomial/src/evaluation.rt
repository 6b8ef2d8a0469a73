// Evaluation at powers of g, modulo q. Numbers and table come as `Powers`, so any set's serve.
ghost use Rattle.std.specs.Prelude.{◌≡◌, ◌+◌, ◌*◌, ◌<◌, ◌≤◌, ◌/◌, ◌%◌, ◌^◌, ℕ, T, pos, ◌+ℤ◌, ◌*ℤ◌, nat_abs, length, map};
ghost use Rattle.algebra.specs.All.{are_below};
ghost use Rattle.algebra.specs.Integer.{residue, centre};
ghost use Rattle.parameters.specs.Limits.{max_n};
ghost use Rattle.parameters.specs.Ring.{Usable};
ghost use Rattle.polynomial.specs.Evaluation.{evaluation_residue, evaluations, evaluation_residues};
ghost use Rattle.polynomial.specs.Asks.{product_at, four_products, Summed};

use crate::remainder::{centred, residue_of};
use parameters::Powers;

// k + j modulo n, for k and j below n: the next place in the table of powers (as `plus_mod` of `transform` over residues; a trait for one line is no plainer). n - j is the same in each turn of a loop that calls it.
fn add_mod(k: usize, j: usize, n: usize) -> usize
    requires { (k < n) × (j < n) × (n < 65536) }
    ensures value { result ≡ (k + j) % n }
    ensures below { result < n }
{
    let left = n - j;
    if k < left { k + j } else { k - left }
}

// a times x, of 47 bits at most.
fn product(a: i16, x: u32) -> i64
    ensures value { result ≡ a *ℤ pos x }
    ensures small { nat_abs result ≤ 2 ^ 47 }
{
    i64::from(a) * i64::from(x)
}

// a + b, of 62 bits at most.
fn plus(a: i64, b: i64) -> i64
    requires { nat_abs a + nat_abs b ≤ 2 ^ 62 }
    ensures value { result ≡ a +ℤ b }
    ensures small { nat_abs result ≤ nat_abs a + nat_abs b }
{
    a + b
}

// Coefficient i times the power at k.
#[tactic(auto, unfolding(crate::specs::Asks::product_at))]
fn product_at(powers: &[u32], coefficients: &[i16], k: usize, i: usize) -> i64
    requires { (k < length powers.now) × (i < length coefficients.now) }
    ensures value { result ≡ product_at powers.now coefficients.now k i }
    ensures small { nat_abs result ≤ 2 ^ 47 }
{
    product(coefficients[i], powers[k])
}

// Four products from i on. Their places are each one turn away from k, so none waits for another; j2 and j3 are two and three steps of j.
fn four_products(
    powers: &[u32],
    coefficients: &[i16],
    k: usize,
    i: usize,
    j: usize,
    j2: usize,
    j3: usize,
) -> i64
    requires coefficients_len_bound { (length coefficients.now ≤ max_n) × (length coefficients.now ≤ length powers.now) }
    requires k_in_bounds { (k < length coefficients.now) × (i + 4 ≤ length coefficients.now) }
    requires j_in_bounds { (j < length coefficients.now) × (j2 < length coefficients.now) × (j3 < length coefficients.now) }
    ensures value { result ≡ four_products powers.now coefficients.now (length coefficients.now) k i j j2 j3 }
    ensures small { nat_abs result ≤ 4 * 2 ^ 47 }
{
    let n = coefficients.len();
    let k1 = add_mod(k, j, n);
    let k2 = add_mod(k, j2, n);
    let k3 = add_mod(k, j3, n);
    let a = product_at(powers, coefficients, k, i);
    let b = product_at(powers, coefficients, k1, i + 1);
    let c = product_at(powers, coefficients, k2, i + 2);
    let d = product_at(powers, coefficients, k3, i + 3);
    plus(plus(plus(a, b), c), d)
}

// The sum of the first products, and the place k in the table of the next one's power.
#[derive(Drop)]
struct Partial {
    acc: i64,
    k: usize,
}

// The sum of all products but the last three or fewer, four a turn.
fn summed_by_four(powers: &[u32], coefficients: &[i16], j: usize) -> Partial
    requires { (length coefficients.now ≤ max_n) × (length coefficients.now ≤ length powers.now) × (j < length coefficients.now) }
    ensures { Summed (length coefficients.now) powers.now coefficients.now j result.acc result.k (length coefficients.now / 4 * 4) }
{
    let n = coefficients.len();
    let j2 = add_mod(j, j, n);
    let j3 = add_mod(j2, j, n);
    let j4 = add_mod(j3, j, n);
    let mut acc: i64 = 0;
    let mut k: usize = 0;
    for turn in 0..n / 4 {
        acc = plus(
            acc,
            four_products(powers, coefficients, k, turn * 4, j, j2, j3),
        );
        k = add_mod(k, j4, n);
    }
    Partial { acc, k }
}

// The sum of coefficients times powers of the table at exponent j: modulo q the definition's sum. Nothing is reduced on the way.
fn sum_at(powers: &Powers, coefficients: &[i16], j: usize) -> i64
    requires coefficients_len { (length coefficients.now ≡ powers.now.params.n) × (j < powers.now.params.n) }
    ensures { residue result powers.now.params.q ≡ evaluation_residue powers.now.params coefficients.now j }
{
    let n = coefficients.len();
    let s = summed_by_four(powers.table, coefficients, j);
    let mut acc = s.acc;
    let mut k = s.k;
    for i in n / 4 * 4..n {
        acc = plus(acc, product_at(powers.table, coefficients, k, i));
        k = add_mod(k, j, n);
    }
    acc
}

// The form in which an evaluation is wanted.
trait Reduced: Copy {
    ghost of_residue: { ℕ → ℕ → Self };

    // The form of an integer by its residue modulo q.
    fn reduced(v: i64, q: u32) -> Self
        requires { (0 < q) × (q < 2 ^ 31) }
        ensures { result ≡ of_residue (residue v q) q };
}

// Signed.
impl Reduced for i32 {
    ghost of_residue = { λ r q. centre r q };

    fn reduced(v: i64, q: u32) -> i32 {
        centred(v, q)
    }
}

// In 0..q-1.
impl Reduced for u32 {
    ghost of_residue = { λ r q. r };

    fn reduced(v: i64, q: u32) -> u32 {
        residue_of(v, q)
    }
}

// The evaluations at the points, in their order, in either form.
fn evaluate_in_form<R: Reduced>(
    powers: &Powers,
    coefficients: &[i16],
    exponents: &[u16],
    out: &mut [R],
)
    requires coefficients_len { length coefficients.now ≡ powers.now.params.n }
    requires exponents_below { T (are_below powers.now.params.n exponents.now) }
    requires out_len { length out.old ≡ length exponents.now }
    ensures { out.new ≡ map (λ j. R.of_residue (evaluation_residue powers.now.params coefficients.now j) powers.now.params.q) exponents.now }
{
    for (i, exponent) in exponents.iter().enumerate() {
        out[i] = R::reduced(
            sum_at(powers, coefficients, usize::from(*exponent)),
            powers.params.q,
        );
    }
}

// The evaluations at the points, in their order.
#[tactic(auto, unfolding(crate::specs::Evaluation::evaluations, crate::specs::Evaluation::evaluation, crate::specs::Evaluation::evaluation_residue))]
pub fn evaluate(powers: &Powers, coefficients: &[i16], exponents: &[u16], out: &mut [i32])
    requires coefficients_len { length coefficients.now ≡ powers.now.params.n }
    requires exponents_below { T (are_below powers.now.params.n exponents.now) }
    requires out_len { length out.old ≡ length exponents.now }
    ensures { out.new ≡ evaluations powers.now.params coefficients.now exponents.now }
{
    evaluate_in_form(powers, coefficients, exponents, out)
}

// The same reduced to 0..q-1.
#[tactic(auto, unfolding(crate::specs::Evaluation::evaluation_residues))]
pub fn evaluate_residues(powers: &Powers, coefficients: &[i16], exponents: &[u16], out: &mut [u32])
    requires coefficients_len { length coefficients.now ≡ powers.now.params.n }
    requires exponents_below { T (are_below powers.now.params.n exponents.now) }
    requires out_len { length out.old ≡ length exponents.now }
    ensures { out.new ≡ evaluation_residues powers.now.params coefficients.now exponents.now }
{
    evaluate_in_form(powers, coefficients, exponents, out)
}
