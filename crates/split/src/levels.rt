// The levels of the split, in place. Numbers are not reduced to 0..q-1 on the way: they grow by 3 q or to twice as much at a level, and have room.
ghost use Rattle.std.specs.Prelude.{◌≡◌, ℕ, ◌+◌, ◌*◌, ◌/◌, ◌<◌, ◌≤◌, T, length, get_or};
ghost use Rattle.algebra.specs.All.{are_below};
ghost use Rattle.parameters.specs.Limits.{max_n};
ghost use Rattle.split.specs.Levels.{UnderIn, Paired, Level, Tripled, cut_low, cut_high, join_low, join_high, third_high};
ghost use Rattle.split.specs.Levels.{Cut, CutFurther, Joined, JoinedFurther, Threefold, root_of};

use crate::fold::Reducer;
use crate::stages::Stages;

// What a level makes of a number a of a block's first half and the number b at its place in the second, by the twist c of the block.
trait Turn {
    ghost low: { ℕ → ℕ → ℕ → ℕ → ℕ };

    ghost high: { ℕ → ℕ → ℕ → ℕ → ℕ };

    fn turn(a: u32, b: u32, c: u32, reducer: Reducer) -> (u32, u32)
        requires { (c < reducer.q) × (a < 61 * reducer.q) × (b < 61 * reducer.q) }
        ensures { (result.0 ≡ low reducer.q c a b) × (result.1 ≡ high reducer.q c a b) };
}

// The block is cut into two.
struct Cutting;

impl Turn for Cutting {
    ghost low = { cut_low };

    ghost high = { cut_high };

    fn turn(a: u32, b: u32, c: u32, reducer: Reducer) -> (u32, u32) {
        let t = reducer.fold(u64::from(c) * u64::from(b));
        (a + t, a + (3 * reducer.q - t))
    }
}

// Its halves are joined.
struct Joining;

impl Turn for Joining {
    ghost low = { join_low };

    ghost high = { join_high };

    fn turn(a: u32, b: u32, c: u32, reducer: Reducer) -> (u32, u32) {
        let lifted = a + (64 * reducer.q - b);
        (a + b, reducer.fold(u64::from(c) * u64::from(lifted)))
    }
}

// Turns the block of 2 h numbers from a place on.
fn turn_block<W: Turn>(x: &mut [u32], from: usize, h: usize, c: u32, reducer: Reducer)
    requires c_below { c < reducer.q }
    requires h_in_bounds { (from + h + h ≤ length x.old) × (length x.old ≤ max_n) × UnderIn (61 * reducer.q) x.old from (h + h) }
    ensures { Paired (W.low reducer.q c) (W.high reducer.q c) from h x.old x.new h }
{
    for i in 0..h {
        let low = from + i;
        let high = from + h + i;
        let turned = W::turn(x[low], x[high], c, reducer);
        x[low] = turned.0;
        x[high] = turned.1;
    }
}

// Turns the blocks of all nodes of a level.
fn turn_level<W: Turn>(x: &mut [u32], twists: &[u32], nodes: usize, h: usize, reducer: Reducer)
    requires twists_below { T (are_below reducer.q twists.now) × (nodes + nodes ≤ length twists.now) }
    requires h_in_bounds { (nodes * (2 * h) ≤ length x.old) × (length x.old ≤ max_n) × UnderIn (61 * reducer.q) x.old 0 (nodes * (2 * h)) }
    ensures { Level (W.low reducer.q) (W.high reducer.q) (λ b. get_or twists.now (nodes + b) 0) h x.old x.new nodes }
{
    for b in 0..nodes {
        turn_block::<W>(x, b * (2 * h), h, twists[nodes + b], reducer);
    }
}

// a + c b + d e, reduced below 3 q.
fn third_part(a: u32, b: u32, e: u32, c: u32, d: u32, reducer: Reducer) -> u32
    requires { (c < reducer.q) × (d < reducer.q) × (a < 61 * reducer.q) × (b < 61 * reducer.q) × (e < 61 * reducer.q) }
    ensures { result ≡ third_high reducer.q c d a b e }
{
    reducer.fold(u64::from(a) + u64::from(c) * u64::from(b) + u64::from(d) * u64::from(e))
}

// Takes thirds of h numbers each, by the cube roots 1, c and d of 1. The same cuts and joins.
fn take_thirds(x: &mut [u32], h: usize, c: u32, d: u32, reducer: Reducer)
    requires roots_below { (c < reducer.q) × (d < reducer.q) }
    requires h_in_bounds { (h + h + h ≤ length x.old) × (length x.old ≤ max_n) × UnderIn (61 * reducer.q) x.old 0 (h + h + h) }
    ensures { Tripled reducer.q c d h x.old x.new h }
{
    for i in 0..h {
        let second = h + i;
        let third = h + h + i;
        let a = x[i];
        let b = x[second];
        let e = x[third];
        x[i] = a + b + e;
        x[second] = third_part(a, b, e, c, d, reducer);
        x[third] = third_part(a, b, e, d, c, reducer);
    }
}

// Cuts the blocks of the first nodes down to a block of l numbers for each root. The loop goes down the tree and that of `join_levels` up: one function for both
// would be no plainer.
fn cut_levels(x: &mut [u32], stages: &Stages)
    requires x_len { let s = stages.now in (length x.old ≡ length s.twists.now * s.l) × UnderIn (3 * s.reducer.q) x.old 0 (length x.old) }
    ensures size { length x.new ≡ length x.old }
    ensures under { UnderIn (15 * stages.now.reducer.q) x.new 0 (length x.new) }
    ensures cut { let s = stages.now in CutFurther s.reducer.q s.l (root_of s.reducer.q s.twists.now) s.start (length s.twists.now / s.start) x.old (length s.twists.now) 1 x.new }
{
    let mut nodes = stages.start;
    let mut leaves = stages.twists.len() / stages.start;
    while 1 < leaves {
        let half = leaves / 2;
        turn_level::<Cutting>(x, stages.twists, nodes, half * stages.l, stages.reducer);
        nodes = nodes + nodes;
        leaves = half;
    }
}

// Joins the blocks of the roots up to those of the first nodes.
fn join_levels(x: &mut [u32], stages: &Stages)
    requires x_len { let s = stages.now in (length x.old ≡ length s.twists.now * s.l) × UnderIn (3 * s.reducer.q) x.old 0 (length x.old) }
    ensures size { length x.new ≡ length x.old }
    ensures under { UnderIn (48 * stages.now.reducer.q) x.new 0 (length x.new) }
    ensures joined { let s = stages.now in JoinedFurther s.reducer.q s.l (root_of s.reducer.q s.twists.now) (length s.twists.now) 1 x.old s.start (length s.twists.now / s.start) x.new }
{
    let mut nodes = stages.twists.len();
    let mut leaves: usize = 1;
    while stages.start < nodes {
        let pairs = nodes / 2;
        turn_level::<Joining>(x, stages.twists, pairs, leaves * stages.l, stages.reducer);
        nodes = pairs;
        leaves = leaves + leaves;
    }
}

// The first level, of thirds where there are thirds, cut or joined.
fn first_level(x: &mut [u32], stages: &Stages)
    requires x_len { let s = stages.now in (length x.old ≡ length s.twists.now * s.l) × UnderIn (48 * s.reducer.q) x.old 0 (length x.old) }
    ensures size { length x.new ≡ length x.old }
    ensures grown { Threefold stages.now.reducer.q x.old x.new }
    ensures cut { let s = stages.now in CutFurther s.reducer.q s.l (root_of s.reducer.q s.twists.now) 1 (length s.twists.now) x.old s.start (length s.twists.now / s.start) x.new }
    ensures joined { let s = stages.now in JoinedFurther s.reducer.q s.l (root_of s.reducer.q s.twists.now) s.start (length s.twists.now / s.start) x.old 1 (length s.twists.now) x.new }
{
    if stages.start == 3 {
        let twists = stages.twists;
        take_thirds(
            x,
            twists.len() / 3 * stages.l,
            twists[1],
            twists[2],
            stages.reducer,
        );
    }
}

// Cuts the block of all numbers into a block of l numbers for each root. It and `join_all` are two lines each, in opposite order.
pub fn cut_all(x: &mut [u32], stages: &Stages)
    requires x_len { let s = stages.now in (length x.old ≡ length s.twists.now * s.l) × UnderIn s.reducer.q x.old 0 (length x.old) }
    ensures size { length x.new ≡ length x.old }
    ensures under { UnderIn (15 * stages.now.reducer.q) x.new 0 (length x.new) }
    ensures cut { let s = stages.now in Cut s.reducer.q s.l (root_of s.reducer.q s.twists.now) x.old x.new (length s.twists.now) 1 }
{
    first_level(x, stages);
    cut_levels(x, stages);
}

// Joins the blocks of all roots to one: the same two steps the other way about.
pub fn join_all(x: &mut [u32], stages: &Stages)
    requires x_len { let s = stages.now in (length x.old ≡ length s.twists.now * s.l) × UnderIn (3 * s.reducer.q) x.old 0 (length x.old) }
    ensures size { length x.new ≡ length x.old }
    ensures under { UnderIn (144 * stages.now.reducer.q) x.new 0 (length x.new) }
    ensures joined { let s = stages.now in Joined s.reducer.q s.l (root_of s.reducer.q s.twists.now) x.old x.new 1 (length s.twists.now) }
{
    join_levels(x, stages);
    first_level(x, stages);
}
