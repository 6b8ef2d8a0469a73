// What a session holds, with a method for each command of a session file other than 00.
#![tactic(auto)]

ghost use Rattle.std.specs.Prelude.{◌≡◌, true};
ghost use Rattle.parameters.specs.Sets.{is_set, set_of};
ghost use Rattle.challenge.specs.Pool.{low_byte_rule};
ghost use Rattle.session_rules.specs.Held.{only_set};
ghost use Rattle.std.proofs.Math.Option.{none};

use challenge::Rule;
use parameters::{MAX_N, MAX_T};
use refusal::Verdict;
use split_tables::Ring;
use std::marker::Model;

mod checker;
mod command;
mod in_force;
mod loading;
mod run;
mod signer;

pub use command::Command;

// The numbers of all masks that may be held, the bytes of a message, and room for the bytes of a signature, as specs/Room.antt gives them.
pub const MASK_ROOM: usize = 9224;

pub const MESSAGE_SIZE: usize = 64;

pub const MAX_SIGNATURE: usize = 2435;

// The signatures that a key may give when it is loaded.
pub const FIRST_GRANT: u16 = 65535;

// The set in force: its byte, and its ring.
#[derive(Clone, Copy)]
struct Chosen {
    byte: u8,
    ring: Ring<'static>,
    ghost known: { is_set byte ≡ true },
    ghost numbers: { ring.params ≡ set_of byte },
}

// What is held, and the rule of hashing in force. Lists stand in front of arrays that have room for those of the largest set: memory is fixed, with no heap.
// `left` is the signatures left to the key, none where no key is held. The key's bytes stand beside it, so that they are written and cleared in place: where no
// key is held they are zeros. Masks, of N numbers each, lie one behind the other, as the library takes them.
#[derive(Drop)]
pub struct Held {
    rule: Rule,
    set: Option<Chosen>,
    exponents: Option<[u16; MAX_T]>,
    left: Option<u16>,
    key: [u8; MAX_N],
    evaluations: Option<[u32; MAX_T]>,
    mask_count: usize,
    masks: [i16; MASK_ROOM],
    message: Option<[u8; MESSAGE_SIZE]>,
}

impl Model for Held {
    ghost use Rattle.session_rules.specs.Held as rules;

    ghost Value = { rules.Held };

    ghost use Rattle.session_commands.specs.View.{held_of, IsHeld};

    ghost view = { held_of };

    ghost invariant = { IsHeld };
}

// A case for each kind of row, which no Option says.
// What an accepted command adds to its row: nothing; the evaluations held, in signed form by this modulus; the number of masks passed over, and so many bytes
// of a signature; a verdict.
#[derive(Clone, Copy, Debug, PartialEq, Eq)]
pub enum Added {
    Nothing,
    Values(u32),
    Signed(u8, usize),
    Judged(Verdict),
}

impl Held {
    // Nothing, under rule 1.
    pub fn new() -> Held
        ensures { result ≡ only_set low_byte_rule none }
    {
        Held {
            rule: Rule::LowByte,
            set: None,
            exponents: None,
            left: None,
            key: [0; MAX_N],
            evaluations: None,
            mask_count: 0,
            masks: [0; MASK_ROOM],
            message: None,
        }
    }
}
