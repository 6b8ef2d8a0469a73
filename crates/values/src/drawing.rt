// The drawer as an entry.
ghost use Rattle.std.specs.Prelude.{◌≡◌, []};
ghost use Rattle.refusal.specs.Answer.{answer_of, stated, answer_states};
ghost use Rattle.refusal.specs.Meaning.{answer_in};
ghost use Rattle.values.specs.Draw.{draw_lengths, draw_refusal, draw_written};

use challenge::draw_from;
use parameters::Params;
use refusal::{Refusal, ensure};
use split_tables::Ring;

// Whether the pool has 64 to 512 bytes, a multiple of 64, and the buffer has room for N coefficients.
fn has_draw_lengths(p: Params, pool: usize, room: usize) -> bool
    ensures { result ≡ draw_lengths p pool room }
{
    (64 <= pool && pool <= 512 && pool % 64 == 0) && room == p.n
}

// Draws the challenge of a pool, N coefficients. Refuses with 2, 1, 11.
#[tactic(auto, unfolding(crate::specs::Draw::draw_refusal, crate::specs::Draw::draw_written))]
pub fn draw(set: u8, pool: &[u8], out: &mut [i8]) -> Result<(), Refusal>
    ensures answer { answer_in result ≡ answer_of (draw_refusal set pool.now out.old) }
    ensures number { answer_states (answer_in result) ≡ stated (draw_refusal set pool.now out.old) [] }
    ensures written { out.new ≡ draw_written set pool.now out.old }
{
    let ring = Ring::of(set).ok_or(Refusal::WrongSet)?;
    let p = ring.params;
    ensure(
        has_draw_lengths(p, pool.len(), out.len()),
        Refusal::WrongLength,
    )?;
    let challenge = draw_from(p, pool).ok_or(Refusal::PoolSpent)?;
    out.copy_from_slice(&challenge[..p.n]);
    Ok(())
}
