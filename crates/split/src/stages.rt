// What the three stages work with, in one place.
ghost use Rattle.std.proofs.Props.{props};
ghost use Rattle.split.specs.Values.{Staged};
ghost use Rattle.split.specs.StagedOnce.{power_once, start_once};

use crate::fold::Reducer;

// K twists, K rows of 2 l - 1 numbers, and the nodes of the first level: 3 where it takes thirds, else 1. A block has l numbers.
#[derive(Clone, Copy)]
pub struct Stages<'a> {
    pub reducer: Reducer,
    pub twists: &'a [u32],
    pub rows: &'a [u32],
    pub start: usize,
    pub l: usize,
    ghost staged: { Staged reducer.q start l twists.now rows.now } by { Prim.hlevel (props, power_once, start_once) },
}
