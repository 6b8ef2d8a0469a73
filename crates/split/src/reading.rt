// The evaluations at points, read from those at all exponents.
ghost use Rattle.std.specs.Prelude.{◌≡◌, map, ◌-◌, ◌^◌, ◌<◌, ◌≤◌, length, get_or};
ghost use Rattle.algebra.specs.Integer.{centre};
ghost use Rattle.parameters.specs.Limits.{max_n};
ghost use Rattle.transform.specs.UpFrom.{up_from};
ghost use Rattle.split.specs.Levels.{UnderIn};
ghost use Rattle.split.specs.Values.{Exponents};

use parameters::MAX_N;
use polynomial::remainder::centre_residue;

// The values at exponents, in their order.
pub fn read_values(values: &[u32; MAX_N], exponents: &[u16], out: &mut [u32])
    requires { Exponents max_n exponents.now × (length out.old ≡ length exponents.now) }
    ensures { out.new ≡ map (λ e. get_or values.now (e - 1) 0) exponents.now }
{
    for i in 0..exponents.len() {
        out[i] = values[usize::from(exponents[i]) - 1];
    }
}

// The same in signed form. One function for both, as `Reduced` of `polynomial` makes of evaluations, would ask of either what this one asks alone: that the
// values are below q.
pub fn read_centred(values: &[u32; MAX_N], n: usize, exponents: &[u16], q: u32, out: &mut [i32])
    requires q_bound { (q < 2 ^ 31) × (n ≤ max_n) × UnderIn q values.now 0 (n - 1) }
    requires exponents { Exponents n exponents.now × (length out.old ≡ length exponents.now) }
    ensures { out.new ≡ map (λ e. centre (get_or values.now (e - 1) 0) q) exponents.now }
{
    for i in 0..exponents.len() {
        out[i] = centre_residue(values[usize::from(exponents[i]) - 1], q);
    }
}

// All in signed form.
pub fn centre_all(values: &[u32; MAX_N], q: u32, out: &mut [i32])
    requires { (q < 2 ^ 31) × (length out.old ≤ max_n) × UnderIn q values.now 0 (length out.old) }
    ensures { out.new ≡ map (λ i. centre (get_or values.now i 0) q) (up_from 0 (length out.old)) }
{
    for i in 0..out.len() {
        out[i] = centre_residue(values[i], q);
    }
}
