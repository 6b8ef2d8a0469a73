// A parameter set with its tables: the set as a value, and the tables of fast evaluation.
#![tactic(auto)]

ghost use Rattle.std.specs.Prelude.{◌≡◌, ◌≤◌, true, length};
ghost use Rattle.parameters.specs.Ring.{Usable};
ghost use Rattle.split_tables.specs.Split.{shape_of};
ghost use Rattle.split_tables.specs.Test.{has_split};

use parameters::Params;

mod making;
mod splits;

// A set's numbers, the powers of its g, and the tables of its split: 3 (N - 1) numbers, the powers of a generator modulo N, the twists and the rows. The
// tables are lent and read where they stand, so a ring is small and is copied. A ring can be made only of tables that pass the tests, so no function that takes one
// has to ask anything of them; and all that are by the rule pass (proofs/Passing.antt).
#[derive(Clone, Copy)]
pub struct Ring<'a> {
    pub params: Params,
    pub powers: &'a [u32],
    pub split: &'a [u32],
    pub ghost usable: { Usable params powers.now },
    pub ghost size: { params.n ≤ length powers.now },
    pub ghost tables: { has_split params split.now ≡ true },
}

// How N - 1 is split: K roots of unity, blocks of L, and the parts that the first level cuts.
#[derive(Drop)]
pub struct Shape {
    pub k: usize,
    pub l: usize,
    pub start: usize,
}

// The split of an N. The last arm is that of N = 1153; a set whose q is too small for a split does not ask for its shape.
pub fn shape_of(n: usize) -> Shape
    ensures { result ≡ shape_of n }
{
    match n {
        433 => Shape {
            k: 16,
            l: 27,
            start: 1,
        },
        577 => Shape {
            k: 8,
            l: 72,
            start: 1,
        },
        769 => Shape {
            k: 6,
            l: 128,
            start: 3,
        },
        _ => Shape {
            k: 24,
            l: 48,
            start: 3,
        },
    }
}
