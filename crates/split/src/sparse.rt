// Sums for a challenge: few of its coefficients are not 0, and each of those adds or takes off one row of powers.
ghost use Rattle.std.specs.Prelude.{◌≡◌, map, ◌*◌, ◌^◌, ◌<◌, ◌≤◌, T, pos, negsuc, nat_abs, ◌+ℤ◌, ◌*ℤ◌, length, replicate};
ghost use Rattle.algebra.specs.All.{are_below};
ghost use Rattle.algebra.specs.Integer.{within};
ghost use Rattle.parameters.specs.Limits.{max_n};
ghost use Rattle.polynomial.specs.Polynomial.{add, scale, ternary};
ghost use Rattle.split.specs.Sparse.{Twice, SparseSums};

// Room for twice the largest table.
pub const TWICE_MAX_N: usize = 2306;

// The powers of g in the order of a table, twice, one after the other.
pub fn powers_twice(powers: &[u32], order: &[u32]) -> [u32; TWICE_MAX_N]
    requires { (length order.now ≤ max_n) × T (are_below (length powers.now) order.now) }
    ensures { Twice powers.now order.now result }
{
    let n = order.len();
    let mut t = [0u32; TWICE_MAX_N];
    for i in 0..n {
        let x = powers[order[i] as usize];
        t[i] = x;
        t[n + i] = x;
    }
    t
}

// Adds a row to the sums, or takes it off. A sign that the compiler knows leaves no branch and no multiplication inside the loop, so that it takes several
// numbers at once.
fn add_signed<const SIGN: i32>(sums: &mut [i32], row: &[u32])
    requires sign { nat_abs SIGN ≤ 1 }
    requires row_len { (length row.now ≡ length sums.old) × T (within (max_n * 2 ^ 20) sums.old) × T (are_below (2 ^ 20) row.now) }
    ensures { sums.new ≡ add sums.old (scale SIGN (map pos row.now)) }
{
    for v in 0..row.len() {
        sums[v] += SIGN * row[v] as i32;
    }
}

// Adds a times a row to the sums. A coefficient 0 costs nothing but its test.
fn add_multiple(sums: &mut [i32], row: &[u32], a: i8)
    requires row_len { (length row.now ≡ length sums.old) × T (within (max_n * 2 ^ 20) sums.old) × T (are_below (2 ^ 20) row.now) }
    requires a_bound { nat_abs a ≤ 1 }
    ensures { sums.new ≡ add sums.old (scale a (map pos row.now)) }
{
    if a > 0 {
        add_signed::<1>(sums, row);
    } else if a < 0 {
        add_signed::<-1>(sums, row);
    }
}

// The sums of a challenge, into numbers that are 0. `twice` has the powers of g in the order of the table, twice.
pub fn sparse_sums(c: &[i8], order: &[u32], twice: &[u32], sums: &mut [i32])
    requires order_len_bound { (length order.now ≤ max_n) × (length twice.now ≡ 2 * length order.now) }
    requires small { T (ternary c.now) × T (are_below (length c.now) order.now) × T (are_below (2 ^ 20) twice.now) }
    requires sums_value { sums.old ≡ replicate (length order.now) (pos 0) }
    ensures each { SparseSums c.now order.now twice.now sums.new }
    ensures small { T (within (max_n * 2 ^ 20) sums.new) }
{
    let n = order.len();
    for m in 0..n {
        add_multiple(sums, &twice[m..m + n], c[order[m] as usize]);
    }
}
