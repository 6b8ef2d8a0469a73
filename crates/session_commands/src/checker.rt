// Command 07: the library's check of a signature without its set byte.
ghost use Rattle.std.specs.Prelude.{◌≡◌, ◌+◌, ◌*◌, List, ℕ, length};
ghost use Rattle.refusal.specs.Meaning.{number_in};
ghost use Rattle.session_rules.specs.Held.{params_of};
ghost use Rattle.session_rules.specs.Commands as rules;
ghost use Rattle.session_commands.specs.Outcome.{payload_in};

use crate::{Added, Held};
use checking::check_in;
use refusal::Refusal;

impl Held {
    // 07. Whatever it says, what is held stays.
    #[tactic(auto, unfolding(session_rules::specs::Commands::check, session_rules::specs::Commands::command, session_rules::specs::Commands::command_in, session_rules::specs::CommandTable::command_of, session_rules::specs::CommandTable::command_table))]
    pub(crate) fn check(&self, operand: &[u8]) -> Result<Added, Refusal>
        requires { length operand.now ≡ 2 * (params_of self.now.set).b + 2 * (params_of self.now.set).n }
        ensures number { number_in result ≡ (rules.command self.now 0x07 operand.now).number }
        ensures held { self.now ≡ (rules.command self.now 0x07 operand.now).held }
        ensures payload { (s : List ℕ) → payload_in result self.now s ≡ (rules.command self.now 0x07 operand.now).payload }
    {
        let ring = self.set.ok_or(Refusal::NoSet)?.ring;
        let t = ring.params.t;
        let exponents = self.exponents.as_ref().ok_or(Refusal::NotHeld)?;
        let evaluations = self.evaluations.as_ref().ok_or(Refusal::NotHeld)?;
        let message = self.message.as_ref().ok_or(Refusal::NotHeld)?;
        let rule = self.rule.number();
        check_in(
            &ring,
            &exponents[..t],
            &evaluations[..t],
            operand,
            message,
            rule,
        )
        .map(Added::Judged)
    }
}
