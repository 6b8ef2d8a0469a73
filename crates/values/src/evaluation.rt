// The evaluators as entries: at the t points, and at all exponents.
ghost use Rattle.std.specs.Prelude.{◌≡◌, []};
ghost use Rattle.refusal.specs.Answer.{answer_of, stated, answer_states};
ghost use Rattle.refusal.specs.Meaning.{answer_in};
ghost use Rattle.values.specs.Evaluate.{evaluate_refusal, evaluate_written};
ghost use Rattle.values.specs.EvaluateAll.{evaluate_all_refusal, evaluate_all_written};

use encoding::numbers::are_exponents;
use refusal::{Refusal, ensure};
use split_tables::Ring;

// Evaluates N coefficients at the t points. Refuses with 2, 1, 4.
#[tactic(auto, unfolding(crate::specs::Evaluate::evaluate_refusal_in, crate::specs::Evaluate::evaluate_refusal, crate::specs::Evaluate::evaluate_written))]
pub fn evaluate(
    set: u8,
    coefficients: &[i16],
    exponents: &[u16],
    out: &mut [i32],
) -> Result<(), Refusal>
    ensures answer { answer_in result ≡ answer_of (evaluate_refusal set coefficients.now exponents.now out.old) }
    ensures number { answer_states (answer_in result) ≡ stated (evaluate_refusal set coefficients.now exponents.now out.old) [] }
    ensures written { out.new ≡ evaluate_written set coefficients.now exponents.now out.old }
{
    let ring = Ring::of(set).ok_or(Refusal::WrongSet)?;
    let p = ring.params;
    ensure(
        coefficients.len() == p.n && exponents.len() == p.t && out.len() == p.t,
        Refusal::WrongLength,
    )?;
    ensure(are_exponents(exponents, p.n), Refusal::WrongExponents)?;
    split::points::evaluate(&ring, coefficients, exponents, out);
    Ok(())
}

// Evaluates N coefficients at the exponents 1 .. N - 1, in this order. Refuses with 2, 1.
#[tactic(auto, using(transform::proofs::FiveSets::set_prime), unfolding(crate::specs::EvaluateAll::evaluate_all_refusal, crate::specs::EvaluateAll::evaluate_all_written))]
pub fn evaluate_all(set: u8, coefficients: &[i16], out: &mut [i32]) -> Result<(), Refusal>
    ensures answer { answer_in result ≡ answer_of (evaluate_all_refusal set coefficients.now out.old) }
    ensures number { answer_states (answer_in result) ≡ stated (evaluate_all_refusal set coefficients.now out.old) [] }
    ensures written { out.new ≡ evaluate_all_written set coefficients.now out.old }
{
    let ring = Ring::of(set).ok_or(Refusal::WrongSet)?;
    let p = ring.params;
    ensure(
        coefficients.len() == p.n && out.len() == p.n - 1,
        Refusal::WrongLength,
    )?;
    split::points::evaluate_all(&ring, coefficients, out);
    Ok(())
}
