// Lists of numbers as bytes, two or three each, high byte first, signed ones in two's complement; and the tests of exponents and evaluations.
ghost use Rattle.std.specs.Prelude.{◌≡◌, ◌*◌, Bool, ℕ, length, ◌&&◌, ltb, leb, T, map, refl};
ghost use Rattle.std.specs.Int.Signed.{mag};
ghost use Rattle.encoding.specs.Bytes.{big_endian, value_of, numbers, encoded, bits16, signed16, increasing};
ghost use Rattle.encoding.specs.Signed.{signed_of_bits};
ghost use Rattle.algebra.specs.Integer.{within};
ghost use Rattle.algebra.specs.All.{are_below};

// A number of a fixed width in bytes, the high byte first.
pub trait Encoded: Copy {
    const WIDTH: usize;

    ghost WIDTH: { ℕ };

    // The number that these bits stand for, and its bits.
    ghost of_bits: { ℕ → Self };

    ghost bits: { Self → ℕ };

    // Whether the bytes have room for the number.
    ghost fits: { Self → Bool };

    // Reads the number whose bytes these are.
    fn read(bytes: &[u8]) -> Self
        requires { length bytes.now ≡ WIDTH }
        ensures { result ≡ of_bits (value_of bytes.now) };

    // Writes its bytes.
    fn write(self, out: &mut [u8])
        requires { length out.old ≡ WIDTH }
        ensures { out.new ≡ big_endian WIDTH (bits self) };

    // A number that has room is that of its bits.
    ghost round_trip: { (x : Self) → T (fits x) → of_bits (bits x) ≡ x };
}

// A number below 2 ^ 16, in two bytes.
impl Encoded for u16 {
    const WIDTH: usize = 2;

    ghost WIDTH = { 2 };

    ghost of_bits = { λ v. v };

    ghost bits = { λ v. v };

    ghost fits = { λ v. ltb v 65536 };

    ghost round_trip = { λ x room. refl };

    fn read(bytes: &[u8]) -> u16 {
        bytes[0] as u16 * 256 + bytes[1] as u16
    }

    #[tactic(auto, unfolding(crate::specs::Bytes::big_endian))]
    fn write(self, out: &mut [u8]) {
        out[0] = (self / 256 % 256) as u8;
        out[1] = (self % 256) as u8;
    }
}

// A number below 2 ^ 24, in three bytes.
impl Encoded for u32 {
    const WIDTH: usize = 3;

    ghost WIDTH = { 3 };

    ghost of_bits = { λ v. v };

    ghost bits = { λ v. v };

    ghost fits = { λ v. ltb v 16777216 };

    ghost round_trip = { λ x room. refl };

    fn read(bytes: &[u8]) -> u32 {
        (bytes[0] as u32 * 256 + bytes[1] as u32) * 256 + bytes[2] as u32
    }

    #[tactic(auto, unfolding(crate::specs::Bytes::big_endian))]
    fn write(self, out: &mut [u8]) {
        out[0] = (self / 256 / 256 % 256) as u8;
        out[1] = (self / 256 % 256) as u8;
        out[2] = (self % 256) as u8;
    }
}

// A signed number, in two bytes.
impl Encoded for i16 {
    const WIDTH: usize = 2;

    ghost WIDTH = { 2 };

    ghost of_bits = { signed16 };

    ghost bits = { bits16 };

    ghost fits = { λ z. ltb (mag z) 32768 };

    ghost round_trip = { signed_of_bits };

    fn read(bytes: &[u8]) -> i16 {
        u16::read(bytes).cast_signed()
    }

    #[tactic(auto, unfolding(crate::specs::Bytes::big_endian))]
    fn write(self, out: &mut [u8]) {
        self.cast_unsigned().write(out)
    }
}

// Reads a list of numbers.
#[tactic(auto, using(crate::proofs::Lists::numbers_none, crate::proofs::Lists::read_more))]
pub fn read_list<T: Encoded>(bytes: &[u8], out: &mut [T])
    requires { length bytes.now ≡ T.WIDTH * length out.old }
    ensures { out.new ≡ map T.of_bits (numbers T.WIDTH (length out.old) bytes.now) }
{
    let width = T::WIDTH;
    for i in 0..out.len() {
        let at = width * i;
        out[i] = T::read(&bytes[at..at + width]);
    }
}

// Writes a list of numbers.
#[tactic(auto, using(crate::proofs::Lists::encoded_none, crate::proofs::Lists::write_more))]
pub fn write_list<T: Encoded>(values: &[T], out: &mut [u8])
    requires { length out.old ≡ T.WIDTH * length values.now }
    ensures { out.new ≡ encoded T.WIDTH (map T.bits values.now) }
{
    let width = T::WIDTH;
    for i in 0..values.len() {
        let at = width * i;
        values[i].write(&mut out[at..at + width]);
    }
}

// Whether a number is in from..n-1.
pub fn is_next(from: usize, number: usize, n: usize) -> bool
    ensures { result ≡ leb from number && ltb number n }
{
    (from <= number) & (number < n)
}

// Numbers that 16 bits have room for, as such: a point z that is in range.
pub fn narrow(from: &[i32], to: &mut [i16])
    requires to_len { length to.old ≡ length from.now }
    requires from_within { T (within 32767 from.now) }
    ensures { to.new ≡ from.now }
{
    for i in 0..from.len() {
        to[i] = from[i] as i16;
    }
}

// Whether the exponents are strictly increasing, each in 1..n-1. It and the tests of lists below look at every element: a chain that leaves early is three
// times slower on lists that pass.
pub fn are_exponents(exponents: &[u16], n: usize) -> bool
    ensures { result ≡ increasing n 1 exponents.now }
{
    let mut ok = true;
    let mut from: usize = 1;
    for exponent in exponents {
        let j = usize::from(*exponent);
        ok = ok & is_next(from, j, n);
        from = j + 1;
    }
    ok
}

// Whether each value is below q.
pub fn are_below(values: &[u32], q: u32) -> bool
    ensures { result ≡ are_below q values.now }
{
    let mut ok = true;
    for value in values {
        ok = ok & (*value < q);
    }
    ok
}
