// The library for C: each function is one call of it, its answer as a number. include/passign.h declares them.
#![tactic(auto)]

ghost use Rattle.std.specs.Prelude.{◌≡◌};
ghost use Rattle.refusal.specs.Answer.{number_of, signing_number, verdict_number};
ghost use Rattle.refusal.specs.Meaning.{answer_in};
ghost use Rattle.checking.specs.Check.{check_answer};
ghost use Rattle.values.specs.Draw.{draw_refusal, draw_written};
ghost use Rattle.values.specs.Evaluate.{evaluate_refusal, evaluate_written};
ghost use Rattle.values.specs.EvaluateAll.{evaluate_all_refusal, evaluate_all_written};
ghost use Rattle.values.specs.Keys.{public_key_refusal, public_key_written};
ghost use Rattle.signing.specs.Sign.{sign_answer, sign_written};

use passign::{Refusal, Verdict};

pub mod encodings;

// 0, else the refusal number.
fn number(answer: Result<(), Refusal>) -> u32
    ensures { result ≡ number_of (answer_in answer) }
{
    match answer {
        Ok(()) => 0,
        Err(refusal) => refusal.number(),
    }
}

// 0 for no, 256 for yes, else the refusal number.
#[unsafe(no_mangle)]
pub extern "C" fn passign_check(
    public_key: &[u8],
    message: &[u8],
    signature: &[u8],
    rule: u8,
) -> u32
    ensures { result ≡ verdict_number (check_answer rule public_key.now message.now signature.now) }
{
    match passign::check(public_key, message, signature, rule) {
        Ok(Verdict::Yes) => 256,
        Ok(Verdict::No) => 0,
        Err(refusal) => refusal.number(),
    }
}

// 256 plus the number of masks passed over, else the refusal number.
#[unsafe(no_mangle)]
pub extern "C" fn passign_sign(
    secret_key: &[u8],
    points: &[u16],
    masks: &[i16],
    message: &[u8],
    signature: &mut [u8],
    rule: u8,
) -> u32
    ensures answer { result ≡ signing_number (sign_answer rule secret_key.now points.now masks.now
        message.now signature.old) }
    ensures written { signature.new ≡ sign_written rule secret_key.now points.now masks.now
        message.now signature.old }
{
    match passign::sign(secret_key, points, masks, message, signature, rule) {
        Ok(passed) => 256 + u32::from(passed),
        Err(refusal) => refusal.number(),
    }
}

// 0, else the refusal number.
#[unsafe(no_mangle)]
pub extern "C" fn passign_public_key(
    secret_key: &[u8],
    points: &[u16],
    public_key: &mut [u8],
) -> u32
    ensures answer { result ≡ public_key_refusal secret_key.now points.now public_key.old }
    ensures written { public_key.new ≡ public_key_written secret_key.now points.now public_key.old }
{
    number(passign::public_key(secret_key, points, public_key))
}

// 0, else the refusal number.
#[unsafe(no_mangle)]
pub extern "C" fn passign_evaluate(
    set: u8,
    coefficients: &[i16],
    points: &[u16],
    evaluations: &mut [i32],
) -> u32
    ensures answer { result ≡ evaluate_refusal set coefficients.now points.now evaluations.old }
    ensures written { evaluations.new ≡ evaluate_written set coefficients.now points.now evaluations.old }
{
    number(passign::evaluate(set, coefficients, points, evaluations))
}

// 0, else the refusal number.
#[unsafe(no_mangle)]
pub extern "C" fn passign_evaluate_all(
    set: u8,
    coefficients: &[i16],
    evaluations: &mut [i32],
) -> u32
    ensures answer { result ≡ evaluate_all_refusal set coefficients.now evaluations.old }
    ensures written { evaluations.new ≡ evaluate_all_written set coefficients.now evaluations.old }
{
    number(passign::evaluate_all(set, coefficients, evaluations))
}

// 0, else the refusal number.
#[unsafe(no_mangle)]
pub extern "C" fn passign_draw(set: u8, pool: &[u8], challenge: &mut [i8]) -> u32
    ensures answer { result ≡ draw_refusal set pool.now challenge.old }
    ensures written { challenge.new ≡ draw_written set pool.now challenge.old }
{
    number(passign::draw(set, pool, challenge))
}
