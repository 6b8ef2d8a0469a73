// The point z = f ⋆ c + y as integers. A challenge has few coefficients that are not 0: each costs one pass over f.
ghost use Rattle.std.specs.Prelude.{◌≡◌, ◌≤◌, ◌^◌, T, nat_abs, ◌+ℤ◌, ◌*ℤ◌, length};
ghost use Rattle.algebra.specs.Integer.{within};
ghost use Rattle.parameters.specs.Limits.{max_n};
ghost use Rattle.polynomial.specs.Polynomial.{add, scale, star, z_of, ternary};
ghost use Rattle.polynomial.specs.Rotation.{rotations};
ghost use Rattle.polynomial.specs.Asks.{Addable};

use parameters::MAX_N;

// s + a x, where none is large: all in 16 bits, of which a machine works out more at a time than of 32.
fn add_product(s: i16, a: i8, x: i16) -> i16
    requires { (nat_abs s ≤ 2 ^ 14) × (nat_abs a ≤ 1) × (nat_abs x ≤ 1) }
    ensures { result ≡ s +ℤ a *ℤ x }
{
    s + i16::from(a) * x
}

// sums + a f.
fn add_scaled(sums: &mut [i16], f: &[i16], a: i8)
    requires { Addable sums.old f.now a }
    ensures { sums.new ≡ add sums.old (scale a f.now) }
{
    for i in 0..f.len() {
        sums[i] = add_product(sums[i], a, f[i]);
    }
}

// sums + a times f rotated i places: the last i coefficients of f go to the front.
fn add_rotated(sums: &mut [i16], f: &[i16], i: usize, a: i8)
    requires { Addable sums.old f.now a × (i ≤ length f.now) }
    ensures { sums.new ≡ add sums.old (scale a (rotations i f.now)) }
{
    let (front, behind) = sums.split_at_mut(i);
    let (first, last) = f.split_at(f.len() - i);
    add_scaled(behind, first, a);
    add_scaled(front, last, a);
}

// f ⋆ c + sums. A turn moves a sum by at most 1, and there are at most max_n turns: 16 bits are enough.
fn add_star(f: &[i16], c: &[i8], sums: &mut [i16])
    requires f_len_bound { (length f.now ≤ max_n) × (length c.now ≡ length f.now) × (length sums.old ≡ length f.now) }
    requires small { T (ternary f.now) × T (ternary c.now) × T (within (2 ^ 13) sums.old) }
    ensures { sums.new ≡ add (star f.now c.now) sums.old }
{
    for (i, a) in c.iter().enumerate() {
        if *a != 0 {
            add_rotated(sums, f, i, *a);
        }
    }
}

// Two numbers of 16 bits leave room in 32 for their sum.
fn wide_sum(a: i16, b: i16) -> i32
    ensures { result ≡ a +ℤ b }
{
    i32::from(a) + i32::from(b)
}

// The mask, added to the product last, as masks take the room that the product's sums need.
fn add_mask(sums: &[i16], y: &[i16], z: &mut [i32])
    requires { (length sums.now ≡ length y.now) × (length z.old ≡ length y.now) }
    ensures { z.new ≡ add sums.now y.now }
{
    for i in 0..y.len() {
        z[i] = wide_sum(sums[i], y[i]);
    }
}

// The point f ⋆ c + y. The sums stand in front of an array of the largest size: there is no heap here.
pub fn z_of(f: &[i16], c: &[i8], y: &[i16], z: &mut [i32])
    requires f_len_bound { (length f.now ≤ max_n) × (length c.now ≡ length f.now) × (length y.now ≡ length f.now) × (length z.old ≡ length f.now) }
    requires are_ternary { T (ternary f.now) × T (ternary c.now) }
    ensures { z.new ≡ z_of f.now c.now y.now }
{
    let n = f.len();
    let mut sums = [0i16; MAX_N];
    add_star(f, c, &mut sums[..n]);
    add_mask(&sums[..n], y, z);
}
