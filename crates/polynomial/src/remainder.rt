// The two remainders of an integer of either sign by q: in 0..q-1, and of absolute value at most q/2.
ghost use Rattle.std.specs.Prelude.{◌≡◌, ◌<◌, ◌%◌, ◌^◌, nat_abs};
ghost use Rattle.algebra.specs.Integer.{residue, centre, centred};

// x modulo q.
pub fn modulo(x: u64, q: u32) -> u32
    requires { 0 < q }
    ensures { result ≡ x % q }
{
    (x % u64::from(q)) as u32
}

// v reduced to 0..q-1.
pub fn residue_of(v: i64, q: u32) -> u32
    requires { 0 < q }
    ensures { result ≡ residue v q }
{
    v.rem_euclid(i64::from(q)) as u32
}

// A number r of 0..q-1 in signed form; of any two words what the definition says.
pub fn centre(r: u32, q: u32) -> i64
    ensures value { result ≡ centre r q }
    ensures small { nat_abs result < 2 ^ 33 }
{
    if r < q.div_ceil(2) {
        i64::from(r)
    } else {
        i64::from(r) - i64::from(q)
    }
}

// The same where r is below q: it then fits 32 bits.
pub fn centre_residue(r: u32, q: u32) -> i32
    requires { (r < q) × (q < 2 ^ 31) }
    ensures { result ≡ centre r q }
{
    centre(r, q) as i32
}

// v reduced to the integer of absolute value at most q/2: for an odd q from -(q-1)/2 to (q-1)/2.
pub fn centred(v: i64, q: u32) -> i32
    requires { (0 < q) × (q < 2 ^ 31) }
    ensures { result ≡ centred v q }
{
    centre_residue(residue_of(v, q), q)
}
