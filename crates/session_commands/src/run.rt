// A command with its operand, by the byte.
ghost use Rattle.std.specs.Prelude.{◌≡◌, length};
ghost use Rattle.refusal.specs.Meaning.{number_in};
ghost use Rattle.session_rules.specs.Held.{params_of};
ghost use Rattle.session_rules.specs.CommandTable.{command_of};
ghost use Rattle.session_rules.specs.Commands as rules;
ghost use Rattle.session_commands.specs.Table.{byte_of};
ghost use Rattle.session_commands.specs.Outcome.{payload_in};

use crate::{Added, Command, Held, MAX_SIGNATURE};
use refusal::Refusal;

impl Held {
    // Room for a signature is lent.
    #[tactic(auto, unfolding(session_rules::specs::CommandTable::command_of, session_rules::specs::CommandTable::command_table))]
    pub fn run(
        &mut self,
        command: Command,
        operand: &[u8],
        signature: &mut [u8; MAX_SIGNATURE],
    ) -> Result<Added, Refusal>
        requires { length operand.now ≡ (command_of (byte_of command)).size (params_of self.old.set) }
        ensures number { number_in result ≡ (rules.command self.old (byte_of command) operand.now).number }
        ensures held { self.new ≡ (rules.command self.old (byte_of command) operand.now).held }
        ensures payload { payload_in result self.new signature.new ≡ (rules.command self.old (byte_of command) operand.now).payload }
    {
        match command {
            Command::ChooseSet => self.choose_set(operand),
            Command::LoadExponents => self.load_exponents(operand),
            Command::LoadKey => self.load_key(operand),
            Command::LoadMask => self.load_mask(operand),
            Command::LoadMessage => self.load_message(operand),
            Command::Sign => self.sign(signature),
            Command::Check => self.check(operand),
            Command::LoadEvaluations => self.load_evaluations(operand),
            Command::Grant => self.grant(operand),
            Command::ChooseRule => self.choose_rule(operand),
        }
    }
}
