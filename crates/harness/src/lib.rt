// Functions for tests/ and bench/ alone, to call from C. The kit's own entries for C are those of passign_c.
#![tactic(auto)]

ghost use Rattle.std.specs.Prelude.{◌≡◌, true, ◌++◌, ◌≤◌, T, length};
ghost use Rattle.algebra.specs.All.{are_below};
ghost use Rattle.parameters.specs.Sets.{is_set, set_of};
ghost use Rattle.polynomial.specs.Evaluation.{evaluations};
ghost use Rattle.polynomial.specs.FirstOutside.{first_outside};
ghost use Rattle.polynomial.specs.Polynomial.{z_of, ternary};
ghost use Rattle.sha512.specs.Digest.{sha512};

use parameters::Powers;

mod plays;

#[unsafe(no_mangle)]
pub extern "C" fn harness_sha512(message: &[u8], out: &mut [u8; 64])
    ensures { out.new ≡ sha512 message.now }
{
    let d = sha512::sha512(message);
    *out = d;
}

#[unsafe(no_mangle)]
pub extern "C" fn harness_sha512_of_two(first: &[u8], second: &[u8], out: &mut [u8; 64])
    ensures { out.new ≡ sha512 (first.now ++ second.now) }
{
    let d = sha512::sha512_of_two(first, second);
    *out = d;
}

#[unsafe(no_mangle)]
pub extern "C" fn harness_point(f: &[i16], c: &[i8], y: &[i16], z: &mut [i32])
    requires f_len_bound { (length f.now ≤ 1153) × (length c.now ≡ length f.now) × (length y.now ≡ length f.now) × (length z.old ≡ length f.now) }
    requires are_ternary { T (ternary f.now) × T (ternary c.now) }
    ensures { z.new ≡ z_of f.now c.now y.now }
{
    polynomial::product::z_of(f, c, y, z);
}

#[unsafe(no_mangle)]
pub extern "C" fn harness_first_outside(z: &[i32], bound: u32) -> usize
    ensures { result ≡ first_outside bound z.now }
{
    polynomial::range::first_outside(z, bound)
}

#[unsafe(no_mangle)]
pub extern "C" fn harness_first_outside16(values: &[i16], bound: u32) -> usize
    ensures { result ≡ first_outside bound values.now }
{
    polynomial::range::first_outside(values, bound)
}

// The plain evaluator at any exponents below N, to measure the one at all exponents against.
#[unsafe(no_mangle)]
pub extern "C" fn harness_evaluate(
    set: u8,
    coefficients: &[i16],
    exponents: &[u16],
    out: &mut [i32],
)
    requires known_set { is_set set ≡ true }
    requires coefficients_len { length coefficients.now ≡ (set_of set).n }
    requires exponents_below { T (are_below (set_of set).n exponents.now) }
    requires out_len { length out.old ≡ length exponents.now }
    ensures { out.new ≡ evaluations (set_of set) coefficients.now exponents.now }
{
    if let Some(powers) = Powers::of(set) {
        polynomial::evaluation::evaluate(&powers, coefficients, exponents, out);
    }
}
