// Plays a session file from standard input to its end, and writes each row to standard output.
#![tactic(auto)]

ghost use Rattle.std.specs.Prelude.{◌≤◌, length};
ghost use Rattle.session.specs.WholeFile.{PlayedWhole};

use session::{Session, play_each};
use std::io::{Print, Read, Stdin, Stdout};

// Writes a row, or gives up what is left of it at a write that takes nothing or fails. One that a signal interrupts has failed too, as ever in this program:
// `write_all` would try it again.
fn print_row(out: &Stdout, row: &[u8]) {
    let mut size = 0;
    for _ in 0..row.len() {
        if size == row.len() {
            break;
        }
        match out.write_some(&row[size..]) {
            Ok(0) | Err(_) => break,
            Ok(more) => size += more,
        }
    }
}

// Plays to the end, as `session::play_file` does, and writes each row between the plays. Whether it was written is not told.
fn play_all(out: Stdout, file: &[u8]) -> Session
    ensures { PlayedWhole file.now result }
{
    play_each(file, |row| {
        print_row(&out, row);
    })
}

// Reads into the front of a buffer until it is full or the input ends or fails, and says how much came: what came is played. A buffer of a fixed size, so that no
// want of memory cuts a file short.
fn read_front(mut input: Stdin, file: &mut [u8]) -> usize
    ensures { result ≤ length file.new }
{
    let mut size = 0;
    for _ in 0..file.len() {
        // a full buffer asks for no more: a read of no bytes may wait too
        if size == file.len() {
            break;
        }
        match input.read(&mut file[size..]) {
            Ok(0) | Err(_) => break,
            Ok(more) => size += more,
        }
    }
    size
}

// One byte more than a session file may have, so that a longer file is seen and refused with 1.
fn main(rt: HostRuntime) {
    let mut file = [0u8; 65537];
    let size = read_front(rt.stdin(), &mut file);
    play_all(rt.stdout(), &file[..size]);
}
