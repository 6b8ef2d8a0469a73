// The commands that load: a set, a rule of hashing, points, a key, a mask, a message, public evaluations.
#![tactic(auto, unfolding(session_rules::specs::Commands::command, session_rules::specs::Commands::command_in, session_rules::specs::Commands::choose_set, session_rules::specs::Commands::choose_rule, session_rules::specs::Commands::load_exponents, session_rules::specs::Commands::load_key, session_rules::specs::Commands::load_message, session_rules::specs::Commands::load_evaluations, session_rules::specs::CommandTable::command_of, session_rules::specs::CommandTable::command_table))]

ghost use Rattle.std.specs.Prelude.{◌≡◌, List, ℕ, ◌*◌, length, map};
ghost use Rattle.algebra.specs.Integer.{within};
ghost use Rattle.encoding.specs.Bytes.{numbers, signed16};
ghost use Rattle.refusal.specs.Meaning.{number_in};
ghost use Rattle.session_rules.specs.Held.{params_of};
ghost use Rattle.session_rules.specs.Commands as rules;
ghost use Rattle.session_commands.specs.Outcome.{payload_in};
ghost use Rattle.session_commands.specs.Room.{message_size};

use crate::{Added, Chosen, FIRST_GRANT, Held, MESSAGE_SIZE};
use challenge::Rule;
use encoding::numbers::{are_below, are_exponents, read_list};
use encoding::secret_key::are_key_bytes;
use parameters::{MAX_MASKS, MAX_N, MAX_T};
use polynomial::range::in_range;
use refusal::{Refusal, ensure};
use split_tables::Ring;
use values::keys::key_evaluations;

// Reads a mask, and says whether its numbers are in -k..k: a mask that is not stays behind those that count, and means nothing.
fn read_mask(k: u32, operand: &[u8], mask: &mut [i16]) -> bool
    requires { length operand.now ≡ 2 * length mask.old }
    ensures mask { mask.new ≡ map signed16 (numbers 2 (length mask.old) operand.now) }
    ensures test { result ≡ within k mask.new }
{
    read_list(operand, mask);
    in_range(mask, k)
}

impl Held {
    // 01. Forgets all else held, and clears the key; the rule stays.
    pub(crate) fn choose_set(&mut self, operand: &[u8]) -> Result<Added, Refusal>
        requires { length operand.now ≡ 1 }
        ensures number { number_in result ≡ (rules.command self.old 0x01 operand.now).number }
        ensures held { self.new ≡ (rules.command self.old 0x01 operand.now).held }
        ensures payload { (s : List ℕ) → payload_in result self.new s ≡ (rules.command self.old 0x01 operand.now).payload }
    {
        let byte = operand[0];
        let ring = Ring::of(byte).ok_or(Refusal::WrongSet)?;
        self.set = Some(Chosen { byte, ring });
        self.exponents = None;
        self.left = None;
        self.key = [0; MAX_N];
        self.evaluations = None;
        self.mask_count = 0;
        self.message = None;
        Ok(Added::Nothing)
    }

    // 0B. All that is held stays.
    pub(crate) fn choose_rule(&mut self, operand: &[u8]) -> Result<Added, Refusal>
        requires { length operand.now ≡ 1 }
        ensures number { number_in result ≡ (rules.command self.old 0x0B operand.now).number }
        ensures held { self.new ≡ (rules.command self.old 0x0B operand.now).held }
        ensures payload { (s : List ℕ) → payload_in result self.new s ≡ (rules.command self.old 0x0B operand.now).payload }
    {
        self.rule = Rule::of(operand[0]).ok_or(Refusal::WrongRule)?;
        Ok(Added::Nothing)
    }

    // 05.
    pub(crate) fn load_message(&mut self, operand: &[u8]) -> Result<Added, Refusal>
        requires { length operand.now ≡ message_size }
        ensures number { number_in result ≡ (rules.command self.old 0x05 operand.now).number }
        ensures held { self.new ≡ (rules.command self.old 0x05 operand.now).held }
        ensures payload { (s : List ℕ) → payload_in result self.new s ≡ (rules.command self.old 0x05 operand.now).payload }
    {
        self.set.ok_or(Refusal::NoSet)?;
        let mut message = [0; MESSAGE_SIZE];
        message.copy_from_slice(operand);
        self.message = Some(message);
        Ok(Added::Nothing)
    }

    // 02. Forgets key and public evaluations, and clears the key.
    pub(crate) fn load_exponents(&mut self, operand: &[u8]) -> Result<Added, Refusal>
        requires { length operand.now ≡ 2 * (params_of self.old.set).t }
        ensures number { number_in result ≡ (rules.command self.old 0x02 operand.now).number }
        ensures held { self.new ≡ (rules.command self.old 0x02 operand.now).held }
        ensures payload { (s : List ℕ) → payload_in result self.new s ≡ (rules.command self.old 0x02 operand.now).payload }
    {
        let p = self.set.ok_or(Refusal::NoSet)?.ring.params;
        let mut list = [0; MAX_T];
        let front = &mut list[..p.t];
        read_list(operand, front);
        ensure(are_exponents(front, p.n), Refusal::WrongExponents)?;
        self.exponents = Some(list);
        self.left = None;
        self.key = [0; MAX_N];
        self.evaluations = None;
        Ok(Added::Nothing)
    }

    // 08. Forgets the key, and clears it.
    pub(crate) fn load_evaluations(&mut self, operand: &[u8]) -> Result<Added, Refusal>
        requires { length operand.now ≡ 3 * (params_of self.old.set).t }
        ensures number { number_in result ≡ (rules.command self.old 0x08 operand.now).number }
        ensures held { self.new ≡ (rules.command self.old 0x08 operand.now).held }
        ensures payload { (s : List ℕ) → payload_in result self.new s ≡ (rules.command self.old 0x08 operand.now).payload }
    {
        let p = self.set.ok_or(Refusal::NoSet)?.ring.params;
        ensure(self.exponents.is_some(), Refusal::NotHeld)?;
        let mut list = [0; MAX_T];
        let front = &mut list[..p.t];
        read_list(operand, front);
        ensure(are_below(front, p.q), Refusal::WrongEvaluation)?;
        self.left = None;
        self.key = [0; MAX_N];
        self.evaluations = Some(list);
        Ok(Added::Nothing)
    }

    // 04. Reads the mask into the place behind the others: where it is refused it stays there, behind the count, and means nothing.
    #[tactic(auto, using(crate::proofs::Masks::counted, crate::proofs::Masks::beside, crate::proofs::Masks::one_more), unfolding(session_rules::specs::Commands::load_mask, session_rules::specs::Commands::command, session_rules::specs::Commands::command_in, session_rules::specs::CommandTable::command_of, session_rules::specs::CommandTable::command_table))]
    pub(crate) fn load_mask(&mut self, operand: &[u8]) -> Result<Added, Refusal>
        requires { length operand.now ≡ 2 * (params_of self.old.set).n }
        ensures number { number_in result ≡ (rules.command self.old 0x04 operand.now).number }
        ensures held { self.new ≡ (rules.command self.old 0x04 operand.now).held }
        ensures payload { (s : List ℕ) → payload_in result self.new s ≡ (rules.command self.old 0x04 operand.now).payload }
    {
        let p = self.set.ok_or(Refusal::NoSet)?.ring.params;
        let count = self.mask_count;
        ensure(count < MAX_MASKS, Refusal::TooManyMasks)?;
        let start = count * p.n;
        let end = start + p.n;
        let place = &mut self.masks[start..end];
        ensure(read_mask(p.k, operand, place), Refusal::WrongMask)?;
        self.mask_count = count + 1;
        Ok(Added::Nothing)
    }

    // 03, with the first grant. The evaluations are held in 0..q-1.
    pub(crate) fn load_key(&mut self, operand: &[u8]) -> Result<Added, Refusal>
        requires { length operand.now ≡ (params_of self.old.set).n }
        ensures number { number_in result ≡ (rules.command self.old 0x03 operand.now).number }
        ensures held { self.new ≡ (rules.command self.old 0x03 operand.now).held }
        ensures payload { (s : List ℕ) → payload_in result self.new s ≡ (rules.command self.old 0x03 operand.now).payload }
    {
        let ring = self.set.ok_or(Refusal::NoSet)?.ring;
        let p = ring.params;
        let exponents = self.exponents.as_ref().ok_or(Refusal::NotHeld)?;
        ensure(are_key_bytes(operand), Refusal::WrongKey)?;
        let mut list = [0; MAX_T];
        key_evaluations(&ring, operand, &exponents[..p.t], &mut list[..p.t]);
        // into an array of its own first: straight into the field an archive over this crate would ask C for `memmove`
        let mut key = [0; MAX_N];
        key[..p.n].copy_from_slice(operand);
        self.key = key;
        self.left = Some(FIRST_GRANT);
        self.evaluations = Some(list);
        Ok(Added::Values(p.q))
    }
}
