// Lists of plays of one session, each with a file and a row buffer of its own.
ghost use Rattle.std.specs.Prelude.{◌*◌, ◌≤◌, length};

use session::{PlayAnswer, Session};
use std::ops::Range;

// For C. The number that a row prints, or 256 for a row buffer at fault and 257 for a session that has ended.
fn number_of(answer: PlayAnswer) -> u32 {
    match answer {
        PlayAnswer::Row(Ok(())) => 0,
        PlayAnswer::Row(Err(refusal)) => refusal.number(),
        PlayAnswer::Fault => 256,
        PlayAnswer::Ended => 257,
    }
}

// From one number up to another; what lies outside of the length is cut off.
fn cut(length: usize, start: u32, end: u32) -> Range<usize>
    ensures { (result.start ≤ result.end) × (result.end ≤ length) }
{
    let end = length.min(end as usize);
    end.min(start as usize)..end
}

// Plays a session just opened, four numbers for each play, and writes the answers as numbers: as many as there are places for. The numbers of a play say where
// its file starts and ends in `files`, and its row buffer in `memory`.
#[unsafe(no_mangle)]
pub extern "C" fn harness_plays(files: &[u8], plays: &[u32], memory: &mut [u8], answers: &mut [u32])
    requires { 4 * length answers.old ≤ length plays.now }
{
    let mut session = Session::open();
    let (places, _) = plays.as_chunks::<4>();
    for (answer, [file_start, file_end, rows_start, rows_end]) in answers.iter_mut().zip(places) {
        let file = &files[cut(files.len(), *file_start, *file_end)];
        let rows = cut(memory.len(), *rows_start, *rows_end);
        *answer = number_of(session.play(file, &mut memory[rows]));
    }
}
