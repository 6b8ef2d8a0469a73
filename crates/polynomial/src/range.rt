// Tests of a range: of a point against k - b and of masks against k, which end at the first number outside (request #103), and of a key against 1.
// A point of signing has 32 bits a coefficient, that of a signature and masks have 16, a key's 8.
ghost use Rattle.std.specs.Prelude.{◌≡◌, ℕ, Bool, leb, nat_abs};
ghost use Rattle.algebra.specs.All.{all};
ghost use Rattle.std.specs.List.{prefix_len};
ghost use Rattle.polynomial.specs.Polynomial.{ternary};

// A number with an absolute value, which may be within a bound: `leb (nat_abs number) bound` in each of the widths below.
pub trait Bounded: Copy {
    ghost is_within: { ℕ → Self → Bool };

    // Whether the number is in -bound..bound: without a branch, so that the tests of a block become vector code.
    fn is_within(self, bound: u32) -> bool
        ensures { result ≡ is_within bound self };
}

impl Bounded for i8 {
    ghost is_within = { λ bound number. leb (nat_abs number) bound };

    fn is_within(self, bound: u32) -> bool {
        self.unsigned_abs() <= u8::try_from(bound).unwrap_or(u8::MAX)
    }
}

impl Bounded for i16 {
    ghost is_within = { λ bound number. leb (nat_abs number) bound };

    fn is_within(self, bound: u32) -> bool {
        self.unsigned_abs() <= u16::try_from(bound).unwrap_or(u16::MAX)
    }
}

impl Bounded for i32 {
    ghost is_within = { λ bound number. leb (nat_abs number) bound };

    fn is_within(self, bound: u32) -> bool {
        self.unsigned_abs() <= bound
    }
}

// How many numbers are looked at together: vector code, so that a list with none outside takes no longer than a test that never leaves early.
const BLOCK: usize = 16;

// Whether a whole block is in -bound..bound, with no branch inside.
fn all_within<T: Bounded>(numbers: &[T], bound: u32) -> bool
    ensures { result ≡ all (T.is_within bound) numbers.now }
{
    let mut all = true;
    for number in numbers {
        all = all & number.is_within(bound);
    }
    all
}

// The length stands for none, as the definition has it. The index of the first number outside, or the length where none is outside: one number after the other.
fn scan<T: Bounded>(numbers: &[T], bound: u32) -> usize
    ensures { result ≡ prefix_len (T.is_within bound) numbers.now }
{
    numbers
        .iter()
        .take_while(|number| number.is_within(bound))
        .count()
}

// The same by blocks: those that are inside are passed over, and nothing is read behind the block that has the first number outside. At the widths above the
// result is `first_outside bound numbers`.
pub fn first_outside<T: Bounded>(numbers: &[T], bound: u32) -> usize
    ensures { result ≡ prefix_len (T.is_within bound) numbers.now }
{
    // a `while`: over `chunks_exact` the number of blocks would have to be made an index again, which is no plainer
    let mut start = 0;
    while numbers.len() - start >= BLOCK && all_within(&numbers[start..start + BLOCK], bound) {
        start += BLOCK;
    }
    start + scan(&numbers[start..], bound)
}

// Whether every number is in -bound..bound: at the widths above `within bound numbers`.
pub fn in_range<T: Bounded>(numbers: &[T], bound: u32) -> bool
    ensures { result ≡ all (T.is_within bound) numbers.now }
{
    first_outside(numbers, bound) == numbers.len()
}

// Whether each coefficient of a key is -1, 0 or 1.
pub fn is_ternary(f: &[i8]) -> bool
    ensures { result ≡ ternary f.now }
{
    all_within(f, 1)
}
