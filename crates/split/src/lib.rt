// Evaluation in the order of a generator's powers, with the convolution split by roots of unity modulo q. What is worked out stands in front of arrays of
// the largest size: there is no heap here. Blocks are named by places in one list, since levels cut the same list in ever other ways.
#![tactic(auto)]

mod challenge;
mod correlation;
mod evaluation;
mod fold;
mod levels;
pub mod points;
mod products;
mod reading;
mod sparse;
mod stages;
