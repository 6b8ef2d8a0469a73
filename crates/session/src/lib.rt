// A session: opened, then played one command at a time. Its fields are private, so it comes only from opening and changes only by playing.
#![tactic(auto)]

ghost use Rattle.std.specs.Prelude.{◌≡◌, false, not, cond, List, ℕ, ◌≤◌, ◌<◌, ltb, length, take, IfOk};
ghost use Rattle.std.specs.Fn.{CalledAt};
ghost use Rattle.refusal.specs.Meaning.{number_in};
ghost use Rattle.refusal.specs.Numbers.{wrong_length, wrong_tag};
ghost use Rattle.session_rules.specs.Play as rules;
ghost use Rattle.session_rules.specs.Rows.{row_size};
ghost use Rattle.session_commands.specs.Table.{byte_of};
ghost use Rattle.session.specs.Played.{IsRow, play_answer_of, play_number_of, outcome_of};
ghost use Rattle.session.specs.Due.{operand_size, refusal_behind};
ghost use Rattle.session.specs.WholeFile.{PlayedEach, PlayedWhole};

use parameters::{MAX_FILE, ROW_ROOM};
use refusal::{Refusal, ensure};
use session_commands::{Added, Command, Held, MAX_SIGNATURE};
use std::marker::Model;
use text::LINE_FEED;

mod rows;

// Whether it has ended, a flag, since what is held can be read after the end; its place in the file, its row count, and what is held. The place is 0 before the first play, as the rules have it: an `Option` would be
// turned back into this number wherever a contract speaks of a session, and is no plainer.
#[derive(Drop)]
pub struct Session {
    ended: bool,
    place: usize,
    rows: usize,
    held: Held,
}

impl Model for Session {
    ghost use Rattle.session_rules.specs.Play as rules;

    ghost Value = { rules.Session };

    ghost use Rattle.session.specs.Session.{session_of, IsSession};

    ghost view = { session_of };

    ghost invariant = { IsSession };
}

// Three outcomes, which no Option or Result says: a refused command's row is no error of the play.
// What a play answers: a row was written, of a command that was accepted or refused; the row buffer is at fault, which is refusal 1; the session has ended.
#[derive(Clone, Copy, Debug, PartialEq, Eq)]
pub enum PlayAnswer {
    Row(Result<(), Refusal>),
    Fault,
    Ended,
}

impl PlayAnswer {
    // Whether the play wrote a row.
    pub fn wrote_row(self) -> bool
        ensures { result ≡ rules.is_row (play_answer_of self) }
    {
        matches!(self, PlayAnswer::Row(_))
    }
}

// The fields of a row.
#[derive(Clone, Copy)]
struct Row {
    ordinal: usize,
    byte: u8,
    outcome: Result<Added, Refusal>,
}

// Whether a file opens with the tag.
#[tactic(auto, unfolding(session_rules::specs::Play::is_tagged))]
fn is_tagged(file: &[u8]) -> bool
    ensures { result ≡ rules.is_tagged file.now }
{
    file.starts_with(b"PSG1")
}

// A session file has at most 65,536 bytes, and opens with the tag.
fn opening(file: &[u8]) -> Result<(), Refusal>
    ensures { number_in result ≡ cond (ltb 65536 (length file.now)) wrong_length (cond (not (rules.is_tagged file.now)) wrong_tag 0) }
{
    ensure(file.len() <= MAX_FILE, Refusal::WrongLength)?;
    ensure(is_tagged(file), Refusal::WrongTag)
}

impl Session {
    // A session just opened: nothing is held, and rule 1 is in force.
    #[tactic(auto, unfolding(session_rules::specs::Play::opened))]
    pub fn open() -> Session
        ensures { result ≡ rules.opened }
    {
        Session {
            ended: false,
            place: 0,
            rows: 0,
            held: Held::new(),
        }
    }

    // A row that ends the session. All else stays.
    fn end(&mut self, byte: u8, answer: Result<(), Refusal>) -> Row
        ensures session { self.new ≡ (rules.ends_at self.old byte (number_in answer)).session }
        ensures row { (bytes : List ℕ) → IsRow (rules.ends_at self.old byte (number_in answer)) self.new.held bytes result }
    {
        self.ended = true;
        Row {
            ordinal: self.rows + 1,
            byte,
            outcome: answer.map(|()| Added::Nothing),
        }
    }

    // The command of a byte other than 00, with its operand from the bytes behind it: refusals 14, 3 and 13.
    fn due<'a>(&self, byte: u8, behind: &'a [u8]) -> Result<(Command, &'a [u8]), Refusal>
        requires { 0 < byte }
        ensures refusal { number_in result ≡ refusal_behind byte (length behind.now) self.now.held.set }
        ensures command { IfOk result (λ d. byte_of d.0 ≡ byte) }
        ensures operand { IfOk result (λ d. d.1.now ≡ take (operand_size byte self.now.held.set) behind.now) }
        ensures size { IfOk result (λ d. length d.1.now ≡ operand_size byte self.now.held.set) }
    {
        let command = Command::of(byte).ok_or(Refusal::UnknownCommand)?;
        ensure(!self.held.lacks_set(command), Refusal::NoSet)?;
        let operand = behind
            .get(..self.held.operand_size(command))
            .ok_or(Refusal::FileEnds)?;
        Ok((command, operand))
    }

    // The command due at a place: a refusal that ends the session, 00, or a command that goes on behind its operand.
    #[tactic(auto, unfolding(session_rules::specs::Play::command_step, session_rules::specs::Play::refusal_due))]
    fn command_step(&mut self, file: &[u8], at: usize, signature: &mut [u8; MAX_SIGNATURE]) -> Row
        requires place_before { self.old.place ≤ at }
        requires goes_on { self.old.ended ≡ false }
        ensures session { self.new ≡ (rules.command_step self.old file.now at).session }
        ensures row { IsRow (rules.command_step self.old file.now at) self.new.held signature.new result }
    {
        let Some(&byte) = file.get(at) else {
            return self.end(0, Err(Refusal::FileEnds));
        };
        let start = at + 1;
        if byte == 0 {
            return self.end(0, ensure(file.len() == start, Refusal::BytesAfterEnd));
        }
        match self.due(byte, &file[start..]) {
            Err(refusal) => self.end(byte, Err(refusal)),
            Ok((command, operand)) => {
                self.place = start + operand.len();
                self.rows += 1;
                Row {
                    ordinal: self.rows,
                    byte,
                    outcome: self.held.run(command, operand, signature),
                }
            }
        }
    }

    // The first play, at place 0, tests the length and the tag, and then plays the first command.
    #[tactic(auto, unfolding(session_rules::specs::Play::step))]
    fn step(&mut self, file: &[u8], signature: &mut [u8; MAX_SIGNATURE]) -> Row
        requires { self.old.ended ≡ false }
        ensures session { self.new ≡ (rules.step self.old file.now).session }
        ensures row { IsRow (rules.step self.old file.now) self.new.held signature.new result }
    {
        let place = self.place;
        if 0 < place {
            return self.command_step(file, place, signature);
        }
        match opening(file) {
            Err(refusal) => {
                self.ended = true;
                Row {
                    ordinal: 0,
                    byte: 0,
                    outcome: Err(refusal),
                }
            }
            Ok(()) => self.command_step(file, 4, signature),
        }
    }

    // Plays one command of the file, and writes its row to the front of a row buffer of 16,384 bytes.
    #[tactic(auto, unfolding(session_rules::specs::Play::play, session_rules::specs::Play::play_number))]
    pub fn play(&mut self, file: &[u8], rows: &mut [u8]) -> PlayAnswer
        ensures outcome { outcome_of result self.new rows.new ≡ rules.play self.old file.now rows.old }
        ensures number { play_number_of result ≡ rules.play_number self.old file.now rows.old }
    {
        if rows.len() != ROW_ROOM {
            return PlayAnswer::Fault;
        }
        if self.ended {
            return PlayAnswer::Ended;
        }
        let mut signature = [0; MAX_SIGNATURE];
        let row = self.step(file, &mut signature);
        row.write(rows, &self.held, &signature);
        PlayAnswer::Row(row.outcome.map(|_| ()))
    }
}

// Plays a file from opening to its end: until a play writes no row. Between the plays a function is called at each row that was written.
pub fn play_each<F: FnMut(&[u8])>(file: &[u8], mut each: F) -> Session
    requires { F.IsAlwaysCallable each }
    ensures { PlayedEach (λ f row f'. CalledAt F.FnMut f row tt f') each file.now result }
{
    let mut session = Session::open();
    let mut rows = [0; ROW_ROOM];
    while session.play(file, &mut rows).wrote_row() {
        each(&rows[..row_size(&rows)]);
    }
    session
}

// The same, where nothing is done with the rows.
pub fn play_file(file: &[u8]) -> Session
    ensures { PlayedWhole file.now result }
{
    play_each(file, |_| ())
}

// The size of the row at the front of a buffer: up to and with its line feed, all where there is none.
pub fn row_size(rows: &[u8]) -> usize
    ensures value { result ≡ row_size rows.now }
    ensures within { result ≤ length rows.now }
{
    match rows.iter().position(|byte| *byte == LINE_FEED) {
        Some(at) => at + 1,
        None => rows.len(),
    }
}
