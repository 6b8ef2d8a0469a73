// Cyclic convolution modulo q, of any two lent tables of residues.
ghost use Rattle.std.specs.Prelude.{◌≡◌, ◌+◌, ◌*◌, ◌<◌, ◌≤◌, ◌^◌, T, pos, length};
ghost use Rattle.algebra.specs.All.{are_below};
ghost use Rattle.parameters.specs.Limits.{max_n};
ghost use Rattle.transform.specs.Asks.{Convolvable, Twice, dot_at};
ghost use Rattle.transform.specs.Convolution.{convolution};

use polynomial::remainder::modulo;

// Room for twice the largest table.
const TWICE_MAX_N: usize = 2306;

// A table backwards, twice, one after the other: whatever place a convolution starts at, it then reads places one after the other.
fn backwards_twice(w: &[u32]) -> [u32; TWICE_MAX_N]
    requires { length w.now ≤ max_n }
    ensures { Twice (length w.now) w.now result (length w.now) }
{
    let n = w.len();
    let mut v = [0u32; TWICE_MAX_N];
    for i in 0..n {
        let x = w[n - 1 - i];
        v[i] = x;
        v[n + i] = x;
    }
    v
}

// The products of u with as many numbers of v from place k on, summed.
#[tactic(auto, unfolding(crate::specs::Asks::dot_at))]
fn dot(u: &[u32], v: &[u32; TWICE_MAX_N], k: usize) -> u64
    requires { (length u.now ≤ max_n) × (k + length u.now ≤ 2 * max_n) × T (are_below (2 ^ 20) u.now) }
    ensures { pos result ≡ dot_at u.now v.now k (length u.now) }
{
    let mut acc: u64 = 0;
    for i in 0..u.len() {
        acc += u64::from(u[i]) * u64::from(v[k + i]);
    }
    acc
}

// The cyclic convolution of u and w modulo q. Each result is reduced once.
#[tactic(auto, unfolding(crate::specs::Convolution::convolution))]
pub fn convolve(u: &[u32], w: &[u32], q: u32, out: &mut [u32])
    requires { Convolvable q u.now w.now × (length out.old ≡ length u.now) }
    ensures { out.new ≡ convolution q u.now w.now }
{
    let n = u.len();
    let v = backwards_twice(w);
    for m in 0..n {
        out[m] = modulo(dot(u, &v, n - 1 - m), q);
    }
}
