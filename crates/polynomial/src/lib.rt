// Polynomials modulo x^N - 1: evaluation at powers of g, the point f ⋆ c + y, tests of a range, and remainders by q.
#![tactic(auto)]

pub mod evaluation;
pub mod product;
pub mod range;
pub mod remainder;
