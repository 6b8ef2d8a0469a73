// Evaluation of a challenge at all exponents: its few rows of powers, added and taken off.
ghost use Rattle.std.specs.Prelude.{◌≡◌, map, ◌*◌, ◌^◌, ◌<◌, ◌≤◌, T, nat_abs, ◌+ℤ◌, length};
ghost use Rattle.algebra.specs.Integer.{residue, within};
ghost use Rattle.parameters.specs.Limits.{max_n};
ghost use Rattle.polynomial.specs.Polynomial.{ternary};
ghost use Rattle.split_tables.specs.Split.{split_from};
ghost use Rattle.split.specs.Values.{AtExponents};

use crate::evaluation::place;
use crate::fold::Reducer;
use crate::sparse::{powers_twice, sparse_sums};
use parameters::MAX_N;
use split_tables::Ring;

// a + s reduced to 0..q-1. 4096 q makes it positive.
fn reduce_sum(a: i8, s: i32, reducer: Reducer) -> u32
    requires { nat_abs s ≤ max_n * 2 ^ 20 }
    ensures { result ≡ residue (a +ℤ s) reducer.q }
{
    let lifted = 4096 * i64::from(reducer.q) + (i64::from(a) + i64::from(s));
    reducer.reduce(lifted as u64)
}

// Coefficient 0 plus each sum, reduced to 0..q-1.
fn reduce_sums(first: i8, sums: &[i32], reducer: Reducer, out: &mut [u32])
    requires { T (within (max_n * 2 ^ 20) sums.now) × (length out.old ≡ length sums.now) }
    ensures { out.new ≡ map (λ s. residue (first +ℤ s) reducer.q) sums.now }
{
    for i in 0..sums.len() {
        out[i] = reduce_sum(first, sums[i], reducer);
    }
}

// The evaluations of a challenge at the exponents 1 .. N - 1, in 0..q-1, in front. The array of the powers then has the reduced sums.
pub fn challenge_values(ring: &Ring, c: &[i8]) -> [u32; MAX_N]
    requires { (split_from ≤ ring.now.params.q) × (length c.now ≡ ring.now.params.n) × T (ternary c.now) }
    ensures { AtExponents ring.now.params c.now result }
{
    let last = ring.params.n - 1;
    let order = &ring.split[..last];
    let both = 2 * last;
    let reducer = Reducer::of(ring.params.q);
    let mut twice = powers_twice(ring.powers, order);
    let mut sums = [0i32; MAX_N];
    sparse_sums(c, order, &twice[..both], &mut sums[..last]);
    reduce_sums(c[0], &sums[..last], reducer, &mut twice[..last]);
    let mut values = [0u32; MAX_N];
    place(&twice[..last], order, &mut values[..last]);
    values
}
