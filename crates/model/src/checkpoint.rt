// Set a mark (02, card 3): a checkpoint.
ghost use Rattle.std.specs.Prelude.{◌≡◌, List, ℕ, ◌<◌};
ghost use Rattle.rules.specs.Shape.{top_number};
ghost use Rattle.rules.specs.Calls.{checkpoint_rule};
ghost use Rattle.rules.specs.Calls as rules;
ghost use Rattle.model.specs.State.{queues_of, hierarchy_of, outcome_of, Does, DoesWith, world_of};

use crate::{Answer, State, Step};
use rules::{Refusal, TOP_NUMBER};

impl State {
    // It "remembers the next operation number"; "Setting answers that number"
    fn checkpoint_accepted(self, name: u32) -> Step
        requires { self.last < top_number }
        ensures { (c m : List ℕ) → outcome_of result c m ≡ checkpoint_rule name (queues_of self) (hierarchy_of self c m) }
    {
        let number = self.last + 1;
        let with_mark = checkpoints::add(self.checkpoints, name, number);
        Step {
            answer: Answer::Checkpointed(number),
            next: State {
                checkpoints: with_mark,
                ..self
            },
        }
    }

    // A setting on a well-formed state: checks 19, 20 and 21, then the setting.
    pub(crate) fn checkpoint_formed(self, name: u32) -> Step
        ensures { (c : List ℕ) → DoesWith (rules.checkpoint name) self result c }
    {
        if !checkpoints::is_name(name) {
            return self.refused(Refusal::BadName);
        }
        if checkpoints::in_use(self.checkpoints, name) {
            return self.refused(Refusal::NameInUse);
        }
        if self.last == TOP_NUMBER {
            return self.refused(Refusal::CheckpointUnavailable);
        }
        self.checkpoint_accepted(name)
    }

    // Set a mark of that name. Refused: 1, 10, 19, 20, 21.
    pub fn checkpoint(self, cache: &[u8], memory: &[u8], name: u32) -> Step
        ensures { Does (rules.checkpoint name) (world_of self cache.now memory.now) result cache.now memory.now }
    {
        if let Err(why) = self.check_state(cache, memory) {
            return self.refused(why);
        }
        self.checkpoint_formed(name)
    }
}
