// Return to a mark (02, card 3): restore a checkpoint.
ghost use Rattle.std.specs.Prelude.{◌≡◌, true, List, ℕ};
ghost use Rattle.rules.specs.Checkpoints.{in_use};
ghost use Rattle.rules.specs.Calls.{restore_rule};
ghost use Rattle.rules.specs.Calls as rules;
ghost use Rattle.model.specs.State.{queues_of, hierarchy_of, outcome_of, Does, DoesWith, world_of};

use crate::{State, Step};
use rules::Refusal;

impl State {
    // "Returning to it does what an abort at that number does, and forgets that mark and all set later."
    fn restore_accepted(self, name: u32) -> Step
        requires { in_use name self.checkpoints ≡ true }
        ensures { (c m : List ℕ) → outcome_of result c m ≡ restore_rule name (queues_of self) (hierarchy_of self c m) }
    {
        let number = checkpoints::number_of(self.checkpoints, name);
        let left = checkpoints::forget_from(self.checkpoints, name);
        self.squash(number, left)
    }

    // A return on a well-formed state: checks 19 and 21, then the return.
    pub(crate) fn restore_formed(self, name: u32) -> Step
        ensures { (c : List ℕ) → DoesWith (rules.restore name) self result c }
    {
        if !checkpoints::is_name(name) {
            return self.refused(Refusal::BadName);
        }
        if !checkpoints::in_use(self.checkpoints, name) {
            return self.refused(Refusal::CheckpointUnavailable);
        }
        self.restore_accepted(name)
    }

    // Return to the mark of that name. Refused: 1, 10, 19, 21.
    pub fn restore(self, cache: &[u8], memory: &[u8], name: u32) -> Step
        ensures { Does (rules.restore name) (world_of self cache.now memory.now) result cache.now memory.now }
    {
        if let Err(why) = self.check_state(cache, memory) {
            return self.refused(why);
        }
        self.restore_formed(name)
    }
}
