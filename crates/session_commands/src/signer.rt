// Commands 06, the library's signing with what is held, and 0A, the signatures that the key held may still give.
ghost use Rattle.std.specs.Prelude.{◌≡◌, List, ℕ, drop, length};
ghost use Rattle.refusal.specs.Meaning.{number_in};
ghost use Rattle.session_rules.specs.Held.{with_masks};
ghost use Rattle.session_rules.specs.Commands as rules;
ghost use Rattle.session_commands.specs.Outcome.{payload_in};

use crate::{Added, Held, MAX_SIGNATURE};
use encoding::numbers::Encoded;
use encoding::signature::signature_size;
use refusal::{Refusal, ensure};
use signing::sign_in;

impl Held {
    // Forgets the first masks; the others move to the front.
    #[tactic(auto, using(crate::proofs::Masks::none_left, crate::proofs::Masks::moved))]
    fn drop_masks(&mut self, used: usize)
        ensures { self.new ≡ with_masks self.old (drop used self.old.masks) }
    {
        let n = self.params().n;
        let count = self.mask_count;
        if count <= used {
            self.mask_count = 0;
            return;
        }
        self.masks.copy_within(used * n..count * n, 0);
        self.mask_count = count - used;
    }

    // 06: 17 where no signature is left. Masks up to and with the one used are dropped, and one signature is taken off.
    #[tactic(auto, unfolding(session_rules::specs::Commands::sign, session_rules::specs::Commands::command, session_rules::specs::Commands::command_in, session_rules::specs::CommandTable::command_of, session_rules::specs::CommandTable::command_table))]
    pub(crate) fn sign(&mut self, signature: &mut [u8; MAX_SIGNATURE]) -> Result<Added, Refusal>
        ensures number { (op : List ℕ) → number_in result ≡ (rules.command self.old 0x06 op).number }
        ensures held { (op : List ℕ) → self.new ≡ (rules.command self.old 0x06 op).held }
        ensures payload { (op : List ℕ) → payload_in result self.new signature.new ≡ (rules.command self.old 0x06 op).payload }
    {
        let chosen = self.set.ok_or(Refusal::NoSet)?;
        let p = chosen.ring.params;
        let exponents = self.exponents.as_ref().ok_or(Refusal::NotHeld)?;
        let left = self.left.ok_or(Refusal::NotHeld)?;
        let message = self.message.as_ref().ok_or(Refusal::NotHeld)?;
        ensure(0 < left, Refusal::NoneLeft)?;
        let size = signature_size(p);
        let offered = self.mask_count * p.n;
        let answer = sign_in(
            &chosen.ring,
            chosen.byte,
            &self.key[..p.n],
            &exponents[..p.t],
            &self.masks[..offered],
            message,
            &mut signature[..size],
            self.rule.number(),
        );
        match answer {
            Ok(passed) => {
                self.left = Some(left - 1);
                self.drop_masks(passed as usize + 1);
                Ok(Added::Signed(passed, size))
            }
            Err(Refusal::NonePasses) => {
                self.mask_count = 0;
                Err(Refusal::NonePasses)
            }
            Err(refusal) => Err(refusal),
        }
    }

    // 0A. The number is set, whatever it was.
    #[tactic(auto, unfolding(session_rules::specs::Commands::grant, session_rules::specs::Commands::command, session_rules::specs::Commands::command_in, session_rules::specs::CommandTable::command_of, session_rules::specs::CommandTable::command_table))]
    pub(crate) fn grant(&mut self, operand: &[u8]) -> Result<Added, Refusal>
        requires { length operand.now ≡ 2 }
        ensures number { number_in result ≡ (rules.command self.old 0x0A operand.now).number }
        ensures held { self.new ≡ (rules.command self.old 0x0A operand.now).held }
        ensures payload { (s : List ℕ) → payload_in result self.new s ≡ (rules.command self.old 0x0A operand.now).payload }
    {
        self.set.ok_or(Refusal::NoSet)?;
        self.left.ok_or(Refusal::NotHeld)?;
        self.left = Some(u16::read(operand));
        Ok(Added::Nothing)
    }
}
