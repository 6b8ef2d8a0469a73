// The commands of a session file, as its table has them. 00, which ends a session, holds nothing and is no command here.
ghost use Rattle.std.specs.Prelude.{◌≡◌, true, false, ◌≤◌, IsNone, IfSome};
ghost use Rattle.parameters.specs.Sound.{Limited};
ghost use Rattle.session_rules.specs.CommandTable.{is_known, command_of};
ghost use Rattle.session_commands.specs.Table.{byte_of};

use crate::MESSAGE_SIZE;
use parameters::Params;

// A command, by its byte.
#[derive(Clone, Copy, Debug, PartialEq, Eq)]
pub enum Command {
    ChooseSet = 0x01,
    LoadExponents = 0x02,
    LoadKey = 0x03,
    LoadMask = 0x04,
    LoadMessage = 0x05,
    Sign = 0x06,
    Check = 0x07,
    LoadEvaluations = 0x08,
    Grant = 0x0A,
    ChooseRule = 0x0B,
}

impl Command {
    // The command of a byte, where it is one.
    #[tactic(auto, unfolding(session_rules::specs::CommandTable::is_known, session_rules::specs::CommandTable::command_table))]
    pub fn of(byte: u8) -> Option<Command>
        ensures byte { IfSome result (λ c. byte_of c ≡ byte) }
        ensures known { IfSome result (λ c. is_known byte ≡ true) }
        ensures unknown { IsNone result → (byte ≡ 0 → ⊥) → is_known byte ≡ false }
    {
        match byte {
            0x01 => Some(Command::ChooseSet),
            0x02 => Some(Command::LoadExponents),
            0x03 => Some(Command::LoadKey),
            0x04 => Some(Command::LoadMask),
            0x05 => Some(Command::LoadMessage),
            0x06 => Some(Command::Sign),
            0x07 => Some(Command::Check),
            0x08 => Some(Command::LoadEvaluations),
            0x0A => Some(Command::Grant),
            0x0B => Some(Command::ChooseRule),
            _ => None,
        }
    }

    // Whether a set has to be in force.
    #[tactic(auto, unfolding(session_rules::specs::CommandTable::command_of, session_rules::specs::CommandTable::command_table))]
    pub(crate) fn needs_set(self) -> bool
        ensures { result ≡ (command_of (byte_of self)).needs_set }
    {
        match self {
            Command::ChooseSet | Command::ChooseRule => false,
            _ => true,
        }
    }

    // The bytes of its operand, with the numbers in force.
    #[tactic(auto, unfolding(session_rules::specs::CommandTable::command_of, session_rules::specs::CommandTable::command_table))]
    pub(crate) fn operand_size(self, p: Params) -> usize
        requires { Limited p }
        ensures value { result ≡ (command_of (byte_of self)).size p }
        ensures small { result ≤ 3456 }
    {
        match self {
            Command::ChooseSet | Command::ChooseRule => 1,
            Command::LoadExponents => 2 * p.t,
            Command::LoadKey => p.n,
            Command::LoadMask => 2 * p.n,
            Command::LoadMessage => MESSAGE_SIZE,
            Command::Sign => 0,
            Command::Check => 2 * p.b + 2 * p.n,
            Command::LoadEvaluations => 3 * p.t,
            Command::Grant => 2,
        }
    }
}
