// Evaluation at all exponents by Rader's reordering: a cyclic convolution of length N - 1, in the order of the powers of a generator modulo N.
// What is worked out on the way stands in front of arrays of the largest size: there is no heap here. `reordered_powers`, `backwards_twice`, `dot` and
// `place_values` have their like in `split`, over other widths and with other sums: one of each would cost a trait more than it saves.
#![tactic(auto)]

pub mod convolution;
pub mod evaluation;
