// Evaluation at all exponents by the split. A loop that does arithmetic goes from each place to the next, so that the compiler takes several numbers at once; a
// loop that goes by a table only moves numbers.
ghost use Rattle.std.specs.Prelude.{◌≡◌, map, ◌+◌, ◌-◌, ◌*◌, ◌%◌, ◌<◌, ◌≤◌, T, length, get_or};
ghost use Rattle.algebra.specs.All.{are_below};
ghost use Rattle.algebra.specs.Integer.{residue};
ghost use Rattle.transform.specs.Asks.{Places, Placed};
ghost use Rattle.split_tables.specs.Split.{split_from};
ghost use Rattle.split.specs.Fold.{Modulus};
ghost use Rattle.split.specs.Values.{Correlated, SplitSums, in_order, AtExponents};

use crate::correlation::correlate;
use crate::fold::Reducer;
use crate::stages::Stages;
use parameters::MAX_N;
use split_tables::{Ring, shape_of};

// A coefficient reduced to 0..q-1: it is smaller than q.
fn lift(a: i16, q: u32) -> u32
    requires { Modulus q }
    ensures value { result ≡ residue a q }
    ensures below { result < q }
{
    let size = u32::from(a.unsigned_abs());
    if a < 0 { q - size } else { size }
}

// All coefficients reduced to 0..q-1. This loop, `reduce_all` and `reduce_sums` have one line each; a function over closures would be no plainer.
fn lift_all(f: &[i16], q: u32, out: &mut [u32])
    requires { Modulus q × (length out.old ≡ length f.now) }
    ensures { out.new ≡ map (λ a. residue a q) f.now }
{
    for i in 0..f.len() {
        out[i] = lift(f[i], q);
    }
}

// Numbers in the order of a table.
#[tactic(auto, unfolding(crate::specs::Values::in_order))]
fn reorder(numbers: &[u32], order: &[u32], out: &mut [u32])
    requires { (length out.old ≡ length order.now) × T (are_below (length numbers.now) order.now) }
    ensures { out.new ≡ in_order numbers.now order.now }
{
    for i in 0..order.len() {
        out[i] = numbers[order[i] as usize];
    }
}

// Coefficient 0 plus each sum, reduced to 0..q-1, in place.
fn reduce_all(first: u32, sums: &mut [u32], reducer: Reducer)
    ensures { sums.new ≡ map (λ s. (first + s) % reducer.q) sums.old }
{
    for sum in sums {
        *sum = reducer.reduce(u64::from(first) + u64::from(*sum));
    }
}

// Each value at the place of its exponent.
pub fn place(values: &[u32], order: &[u32], out: &mut [u32])
    requires { (length values.now ≡ length order.now) × (length out.old ≡ length order.now) × Places (length out.old) order.now }
    ensures size { length out.new ≡ length out.old }
    ensures each { Placed order.now (λ i. get_or values.now i 0) out.new (length order.now) }
{
    for i in 0..order.len() {
        let at = order[i] as usize - 1;
        out[at] = values[i];
    }
}

// The sums of the reduced coefficients in the order of a table with the powers of g.
fn sum_reordered(lifted: &[u32], order: &[u32], stages: &Stages, y: &mut [u32])
    requires lifted_below { T (are_below stages.now.reducer.q lifted.now) × T (are_below (length lifted.now) order.now) }
    requires order_len { let s = stages.now in (length order.now ≡ length s.twists.now * s.l) × (length y.old ≡ length order.now) }
    ensures size { length y.new ≡ length y.old }
    ensures stages { let s = stages.now in Correlated s.reducer.q s.l s.twists.now s.rows.now (in_order lifted.now order.now) y.new }
{
    let last = order.len();
    let mut x = [0u32; MAX_N];
    reorder(lifted, order, &mut x[..last]);
    correlate(&mut x[..last], stages, y);
}

// The same with a ring's tables.
fn split_sums(ring: &Ring, lifted: &[u32], reducer: Reducer, y: &mut [u32])
    requires modulus { (split_from ≤ ring.now.params.q) × (reducer.q ≡ ring.now.params.q) }
    requires lifted_len { let p = ring.now.params in (length lifted.now ≡ p.n) × T (are_below p.q lifted.now) × (length y.old ≡ p.n - 1) }
    ensures size { length y.new ≡ length y.old }
    ensures stages { SplitSums ring.now.params ring.now.split.now lifted.now y.new }
{
    let n = ring.params.n;
    let shape = shape_of(n);
    let (order, tables) = ring.split.split_at(n - 1);
    let (twists, rows) = tables.split_at(shape.k);
    let stages = Stages {
        reducer,
        twists,
        rows,
        start: shape.start,
        l: shape.l,
    };
    sum_reordered(lifted, order, &stages, y);
}

// The evaluations at the exponents 1 .. N - 1, in 0..q-1, in front. Before them their array has the reduced coefficients.
pub fn values_of(ring: &Ring, f: &[i16]) -> [u32; MAX_N]
    requires { (split_from ≤ ring.now.params.q) × (length f.now ≡ ring.now.params.n) }
    ensures { AtExponents ring.now.params f.now result }
{
    let n = ring.params.n;
    let q = ring.params.q;
    let last = n - 1;
    let order = &ring.split[..last];
    let reducer = Reducer::of(q);
    let mut values = [0u32; MAX_N];
    lift_all(f, q, &mut values[..n]);
    let mut sums = [0u32; MAX_N];
    split_sums(ring, &values[..n], reducer, &mut sums[..last]);
    reduce_all(values[0], &mut sums[..last], reducer);
    place(&sums[..last], order, &mut values[..last]);
    values
}
