// What the set in force decides of a command, and what a row reads.
ghost use Rattle.std.specs.Prelude.{◌≡◌, ◌≤◌, length};
ghost use Rattle.parameters.specs.Limits.{max_t};
ghost use Rattle.parameters.specs.Sound.{Limited};
ghost use Rattle.session_rules.specs.Held.{params_of, given};
ghost use Rattle.session_rules.specs.CommandTable.{command_of};
ghost use Rattle.session_rules.specs.Play.{lacks_set};
ghost use Rattle.session_commands.specs.Table.{byte_of};

use crate::{Command, Held};
use parameters::Params;

// The numbers in force where there is no set.
const NO_PARAMS: Params = Params {
    n: 0,
    q: 0,
    g: 0,
    k: 0,
    b: 0,
    t: 0,
};

impl Held {
    // The numbers in force: all 0 where there is no set.
    pub(crate) fn params(&self) -> Params
        ensures value { result ≡ params_of self.now.set }
        ensures limited { Limited result }
    {
        match self.set {
            None => NO_PARAMS,
            Some(chosen) => chosen.ring.params,
        }
    }

    // Whether a command has not the set that it needs.
    pub fn lacks_set(&self, command: Command) -> bool
        ensures { result ≡ lacks_set (byte_of command) self.now.set }
    {
        command.needs_set() && self.set.is_none()
    }

    // The bytes of its operand, in the set in force.
    pub fn operand_size(&self, command: Command) -> usize
        ensures value { result ≡ (command_of (byte_of command)).size (params_of self.now.set) }
        ensures small { result ≤ 3456 }
    {
        command.operand_size(self.params())
    }

    // The public evaluations held, in 0..q-1: none where none are held.
    pub fn evaluations(&self) -> &[u32]
        ensures values { result.now ≡ given self.now.evaluations }
        ensures short { length result.now ≤ max_t }
    {
        let t = self.params().t;
        match &self.evaluations {
            None => &[],
            Some(evaluations) => &evaluations[..t],
        }
    }
}
