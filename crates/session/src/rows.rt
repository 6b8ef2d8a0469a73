// The row of a play, written into the front of a row buffer.
ghost use Rattle.std.specs.Prelude.{◌≡◌, map, ℕ, ◌+◌, ◌*◌, ◌≤◌, length};
ghost use Rattle.algebra.specs.Integer.{centre};
ghost use Rattle.text.specs.Text.{spaced_integers, Appended};
ghost use Rattle.parameters.specs.Limits.{max_t, row_room};
ghost use Rattle.refusal.specs.Meaning.{number_in};
ghost use Rattle.session_rules.specs.Rows.{payload_text, at_front};
ghost use Rattle.session_commands.specs.Outcome.{payload_in};
ghost use Rattle.session_commands.specs.Room.{max_signature};
ghost use Rattle.session.specs.Rows.{row_head, row_for};

use crate::Row;
use polynomial::remainder::centre;
use refusal::Verdict;
use session_commands::{Added, Held};
use text::{LINE_FEED, SPACE, put, put_digits, put_hex, put_hex_byte, put_integer, put_number};

// What every row starts with: its ordinal (a usize has at most twenty digits), the command's byte and the number.
fn put_head(rows: &mut [u8], ordinal: usize, byte: u8, number: u32) -> usize
    requires { 34 ≤ length rows.old }
    ensures text { Appended rows.old 0 (row_head ordinal byte number) rows.new result }
    ensures end { result ≤ 34 }
{
    let mut next = put_digits(rows, 0, ordinal, 19);
    next = put(rows, next, SPACE);
    next = put_hex_byte(rows, next, byte);
    put_number(rows, next, number)
}

// Evaluations, given in 0..q-1, in signed form, each after a space.
fn put_evaluations(rows: &mut [u8], at: usize, evaluations: &[u32], q: u32) -> usize
    requires { at + 12 * length evaluations.now ≤ length rows.old }
    ensures text { Appended rows.old at (spaced_integers (map (λ (v : ℕ). centre v q) evaluations.now)) rows.new result }
    ensures end { result ≤ at + 12 * length evaluations.now }
{
    let mut next = at;
    for value in evaluations {
        next = put_integer(rows, next, centre(*value, q));
    }
    next
}

impl Row {
    // The number that it prints: 0, or that of the refusal.
    fn number(&self) -> u32
        ensures { result ≡ number_in self.now.outcome }
    {
        match self.outcome {
            Ok(_) => 0,
            Err(refusal) => refusal.number(),
        }
    }

    // What an accepted command adds, from what is held after it and the bytes of a signature.
    fn put_added(&self, rows: &mut [u8], at: usize, held: &Held, signature: &[u8]) -> usize
        requires at_in_bounds { at + 13900 ≤ length rows.old }
        requires signature_len { length signature.now ≤ max_signature }
        ensures text { Appended rows.old at (payload_text (payload_in self.now.outcome held.now signature.now)) rows.new result }
        ensures end { result ≤ at + 13900 }
    {
        let Ok(added) = self.outcome else {
            return at;
        };
        match added {
            Added::Nothing => at,
            Added::Values(q) => put_evaluations(rows, at, held.evaluations(), q),
            Added::Signed(passed, size) => {
                let mut next = put_number(rows, at, passed as u32);
                next = put(rows, next, SPACE);
                put_hex(rows, next, &signature[..size.min(signature.len())])
            }
            Added::Judged(verdict) => put_number(rows, at, (verdict == Verdict::Yes) as u32),
        }
    }

    // Writes the whole row. One of a refused command ends with its number.
    pub fn write(&self, rows: &mut [u8], held: &Held, signature: &[u8])
        requires rows_len { length rows.old ≡ row_room }
        requires signature_len { length signature.now ≤ max_signature }
        ensures { rows.new ≡ at_front (row_for self.now held.now signature.now) rows.old }
    {
        let mut next = put_head(rows, self.ordinal, self.byte, self.number());
        next = self.put_added(rows, next, held, signature);
        put(rows, next, LINE_FEED);
    }
}
