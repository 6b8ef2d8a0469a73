// The middle stage: for each root the product of its block with its row of the table. Four sums at a time over the same numbers of the block, two terms a turn.
ghost use Rattle.std.specs.Prelude.{◌≡◌, map, ◌+◌, ◌-◌, ◌*◌, ◌^◌, ◌<◌, ◌≤◌, T, nat_abs, length, get_or};
ghost use Rattle.std.proofs.lemmas.List.Edits.{sets};
ghost use Rattle.algebra.specs.All.{are_below};
ghost use Rattle.parameters.specs.Limits.{max_n};
ghost use Rattle.transform.specs.Asks.{dot_at};
ghost use Rattle.transform.specs.UpFrom.{up_from};
ghost use Rattle.split.specs.Fold.{folded};
ghost use Rattle.split.specs.Levels.{UnderIn};
ghost use Rattle.split.specs.Products.{Products, FourDots};

use crate::fold::Reducer;
use crate::stages::Stages;

// Four sums.
#[derive(Drop)]
pub struct Four {
    pub a: u64,
    pub b: u64,
    pub c: u64,
    pub d: u64,
}

// s with a factor times a number of b added.
fn plus_product(s: u64, f: u64, b: &[u32], at: usize) -> u64
    requires { (s < 2 ^ 62) × (f < 2 ^ 24) × (at < length b.now) }
    ensures { result ≡ s + f * get_or b.now at 0 }
{
    s + f * u64::from(b[at])
}

// A factor times a number of b, and another times the next one.
fn two_products(f: u64, g: u64, b: &[u32], at: usize) -> u64
    requires { (f < 2 ^ 24) × (g < 2 ^ 24) × (at + 1 < length b.now) × (length b.now ≤ 2 * max_n) }
    ensures value { result ≡ f * get_or b.now at 0 + g * get_or b.now (at + 1) 0 }
    ensures small { result < 2 ^ 57 }
{
    f * u64::from(b[at]) + g * u64::from(b[at + 1])
}

// A block of at most 128 numbers and its row of the table, which has twice as many less one.
#[derive(Clone, Copy)]
struct Row<'a> {
    block: &'a [u32],
    row: &'a [u32],
    ghost block_below: { T (are_below (2 ^ 24) block.now) × (length block.now ≤ 128) },
    ghost row_below: { T (are_below (2 ^ 20) row.now) × (length row.now + 1 ≡ length block.now + length block.now) },
}

impl<'a> Row<'a> {
    // The products at place x added to four sums of x products each, where at most one is left.
    fn with_last(&self, four: Four, v: usize, x: usize) -> Four
        requires v_in_bounds { v + 4 ≤ length self.now.block.now }
        requires x_le_n { let r = self.now in (x ≤ length r.block.now) × (length r.block.now ≤ x + 1) × FourDots four r.block.now r.row.now v x }
        ensures { let r = self.now in FourDots result r.block.now r.row.now v (length r.block.now) }
    {
        if x < self.block.len() {
            let f = u64::from(self.block[x]);
            Four {
                a: plus_product(four.a, f, self.row, v + x),
                b: plus_product(four.b, f, self.row, v + x + 1),
                c: plus_product(four.c, f, self.row, v + x + 2),
                d: plus_product(four.d, f, self.row, v + x + 3),
            }
        } else {
            four
        }
    }

    // Four sums: the numbers of the block times those of the row from v, v + 1, v + 2 and v + 3 on.
    fn four_dots(&self, v: usize) -> Four
        requires { v + 4 ≤ length self.now.block.now }
        ensures { let r = self.now in FourDots result r.block.now r.row.now v (length r.block.now) }
    {
        let a = self.block;
        let b = self.row;
        let mut s0: u64 = 0;
        let mut s1: u64 = 0;
        let mut s2: u64 = 0;
        let mut s3: u64 = 0;
        for pair in 0..a.len() / 2 {
            let x = 2 * pair;
            let f = u64::from(a[x]);
            let g = u64::from(a[x + 1]);
            s0 += two_products(f, g, b, v + x);
            s1 += two_products(f, g, b, v + x + 1);
            s2 += two_products(f, g, b, v + x + 2);
            s3 += two_products(f, g, b, v + x + 3);
        }
        let even = Four {
            a: s0,
            b: s1,
            c: s2,
            d: s3,
        };
        self.with_last(even, v, 2 * (a.len() / 2))
    }

    // One such sum.
    fn dot(&self, v: usize) -> u64
        requires { v < length self.now.block.now }
        ensures { let r = self.now in result ≡ nat_abs (dot_at r.block.now r.row.now v (length r.block.now)) }
    {
        let mut s: u64 = 0;
        for x in 0..self.block.len() {
            s = plus_product(s, u64::from(self.block[x]), self.row, v + x);
        }
        s
    }

    // The products of the block with the row, each reduced: four at a time as long as there are as many; returned is how many.
    fn fill_by_four(&self, reducer: Reducer, out: &mut [u32]) -> usize
        requires { length out.old ≡ length self.now.block.now }
        ensures few { result ≤ length self.now.block.now }
        ensures filled { let r = self.now in out.new ≡ sets out.old 0 (map (λ v. folded reducer.q (nat_abs (dot_at r.block.now r.row.now v (length r.block.now)))) (up_from 0 result)) }
    {
        let turns = self.block.len() / 4;
        for turn in 0..turns {
            let v = 4 * turn;
            let sums = self.four_dots(v);
            out[v] = reducer.fold(sums.a);
            out[v + 1] = reducer.fold(sums.b);
            out[v + 2] = reducer.fold(sums.c);
            out[v + 3] = reducer.fold(sums.d);
        }
        4 * turns
    }

    // The same one at a time, from product n on.
    fn fill_singly(&self, reducer: Reducer, out: &mut [u32], n: usize)
        requires { (length out.old ≡ length self.now.block.now) × (n ≤ length self.now.block.now) }
        ensures { let r = self.now in out.new ≡ sets out.old n (map (λ v. folded reducer.q (nat_abs (dot_at r.block.now r.row.now v (length r.block.now)))) (up_from n (length r.block.now - n))) }
    {
        for v in n..self.block.len() {
            out[v] = reducer.fold(self.dot(v));
        }
    }

    // All of them.
    fn fill(&self, reducer: Reducer, out: &mut [u32])
        requires { length out.old ≡ length self.now.block.now }
        ensures { let r = self.now in out.new ≡ map (λ v. folded reducer.q (nat_abs (dot_at r.block.now r.row.now v (length r.block.now)))) (up_from 0 (length r.block.now)) }
    {
        let n = self.fill_by_four(reducer, out);
        self.fill_singly(reducer, out, n);
    }
}

// For each root the product of its block of x with its row of the table.
pub fn multiply(x: &[u32], stages: &Stages, y: &mut [u32])
    requires x_len { let s = stages.now in (length x.now ≡ length s.twists.now * s.l) × (length y.old ≡ length s.twists.now * s.l) × UnderIn (15 * s.reducer.q) x.now 0 (length x.now) }
    ensures size { length y.new ≡ length y.old }
    ensures under { UnderIn (3 * stages.now.reducer.q) y.new 0 (length y.new) }
    ensures each { let s = stages.now in Products s.reducer.q (length s.twists.now) s.l x.now s.rows.now y.new }
{
    let l = stages.l;
    let width = 2 * l - 1;
    for s in 0..stages.twists.len() {
        let at = s * l;
        let from = s * width;
        let row = Row {
            block: &x[at..at + l],
            row: &stages.rows[from..from + width],
        };
        row.fill(stages.reducer, &mut y[at..at + l]);
    }
}
