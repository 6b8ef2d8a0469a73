// Evaluation at all exponents, by Rader's reordering.
ghost use Rattle.std.specs.Prelude.{◌≡◌, ◌+◌, ◌-◌, ◌<◌, ◌≤◌, ◌%◌, ◌^◌, T, pos, length, get_or, take};
ghost use Rattle.algebra.specs.All.{are_below};
ghost use Rattle.algebra.specs.Integer.{residue, centred};
ghost use Rattle.parameters.specs.Limits.{max_n};
ghost use Rattle.parameters.specs.Ring.{Usable};
ghost use Rattle.polynomial.specs.Evaluation.{evaluations};
ghost use Rattle.transform.specs.AllExponents.{all_exponents};
ghost use Rattle.transform.specs.Prime.{Prime};
ghost use Rattle.transform.specs.Convolution.{convolution};
ghost use Rattle.transform.specs.Asks.{TableOf, residues_backwards, powers_in_order, Places, Placed};

use crate::convolution::convolve;
use parameters::{MAX_N, Powers};
use polynomial::remainder::{centre_residue, residue_of};

// A coefficient reduced to 0..q-1.
fn coefficient_residue(a: i16, q: u32) -> u32
    requires { 0 < q }
    ensures { result ≡ residue a q }
{
    residue_of(i64::from(a), q)
}

// The place of -i modulo n.
fn place_back(i: usize, n: usize) -> usize
    requires { i < n }
    ensures { result ≡ (n - i) % n }
{
    if i == 0 { 0 } else { n - i }
}

// The coefficients in the order of a table read backwards from its first entry, reduced to 0..q-1.
#[tactic(auto, unfolding(crate::specs::Asks::residues_backwards))]
fn reordered_coefficients(coefficients: &[i16], order: &[u32], q: u32) -> [u32; MAX_N]
    requires { (0 < q) × (length order.now ≤ max_n) × T (are_below (length coefficients.now) order.now) }
    ensures { take (length order.now) result ≡ residues_backwards q coefficients.now order.now }
{
    let n = order.len();
    let mut out = [0u32; MAX_N];
    for i in 0..n {
        let at = order[place_back(i, n)] as usize;
        out[i] = coefficient_residue(coefficients[at], q);
    }
    out
}

// The powers of g in the order of a table.
#[tactic(auto, unfolding(crate::specs::Asks::powers_in_order))]
fn reordered_powers(powers: &[u32], order: &[u32]) -> [u32; MAX_N]
    requires { (length order.now ≤ max_n) × T (are_below (length powers.now) order.now) }
    ensures { take (length order.now) result ≡ powers_in_order powers.now order.now }
{
    let mut out = [0u32; MAX_N];
    for (i, exponent) in order.iter().enumerate() {
        out[i] = powers[*exponent as usize];
    }
    out
}

// a + b modulo q, for a and b in 0..q-1 (as `add_mod` of `polynomial` over places).
fn plus_mod(a: u32, b: u32, q: u32) -> u32
    requires { (a < q) × (b < q) }
    ensures value { result ≡ (a + b) % q }
    ensures below { result < q }
{
    let left = q - b;
    if a < left { a + b } else { a - left }
}

// The same in signed form.
fn centred_sum(a: u32, b: u32, q: u32) -> i32
    requires { (a < q) × (b < q) × (q < 2 ^ 31) }
    ensures { result ≡ centred (pos (a + b)) q }
{
    centre_residue(plus_mod(a, b, q), q)
}

// Coefficient 0 plus each number of the convolution, in signed form, at the place of its exponent.
fn place_values(first: u32, sums: &[u32], order: &[u32], q: u32, out: &mut [i32])
    requires first_lt_q { (first < q) × (q < 2 ^ 31) × T (are_below q sums.now) }
    requires sums_len { (length sums.now ≡ length order.now) × (length out.old ≡ length order.now) × Places (length out.old) order.now }
    ensures size { length out.new ≡ length out.old }
    ensures each { Placed order.now (λ m. centred (pos (first + get_or sums.now m 0)) q) out.new
        (length order.now) }
{
    for (m, exponent) in order.iter().enumerate() {
        let at = *exponent as usize - 1;
        out[at] = centred_sum(first, sums[m], q);
    }
}

// The convolution of the reordered coefficients and powers.
fn convolve_reordered(powers: &Powers, order: &[u32], coefficients: &[i16], sums: &mut [u32])
    requires prime { Prime powers.now.params.n × TableOf powers.now.params.n order.now }
    requires coefficients_len { (length coefficients.now ≡ powers.now.params.n) × (length sums.old ≡ length order.now) }
    ensures { sums.new ≡ convolution powers.now.params.q (residues_backwards powers.now.params.q coefficients.now order.now)
        (powers_in_order powers.now.table.now order.now) }
{
    let q = powers.params.q;
    let last = order.len();
    let u = reordered_coefficients(coefficients, order, q);
    let w = reordered_powers(powers.table, order);
    convolve(&u[..last], &w[..last], q, sums);
}

// The evaluations at the exponents 1 .. N - 1, in this order. `order` has the powers of a generator modulo N.
pub fn evaluate_all(powers: &Powers, order: &[u32], coefficients: &[i16], out: &mut [i32])
    requires prime { Prime powers.now.params.n × TableOf powers.now.params.n order.now }
    requires coefficients_len { (length coefficients.now ≡ powers.now.params.n) × (length out.old ≡ powers.now.params.n - 1) }
    ensures { out.new ≡ evaluations powers.now.params coefficients.now (all_exponents powers.now.params) }
{
    let q = powers.params.q;
    let last = order.len();
    let first = coefficient_residue(coefficients[0], q);
    let mut sums = [0u32; MAX_N];
    convolve_reordered(powers, order, coefficients, &mut sums[..last]);
    place_values(first, &sums[..last], order, q, out);
}
