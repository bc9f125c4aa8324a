// Commit.
ghost use Rattle.std.specs.Prelude.{◌≡◌, List, ℕ, ◌*◌};
ghost use Rattle.rules.specs.Calls.{commit_rule};
ghost use Rattle.rules.specs.Calls as rules;
ghost use Rattle.model.specs.State.{queues_of, hierarchy_of, outcome_of, Shaped, Does, DoesWith, world_of};

use crate::{Answer, State, Step};
use rules::Refusal;

impl State {
    // "Commit k sets h to k. Answered loads numbered k or less leave the list in number order, each using its line if the line is present."
    // 02, card 3: "a commit forgets marks at or below h"
    fn commit_accepted(self, k: u32) -> Step
        requires { Shaped self (self.figures.sets * self.figures.ways * 16) }
        ensures { (c m : List ℕ) → outcome_of result c m ≡ commit_rule k (queues_of self) (hierarchy_of self c m) }
    {
        let left = checkpoints::forget_up_to(self.checkpoints, k);
        Step {
            answer: Answer::Committed(k),
            next: State {
                committed: k,
                loads: load_queue::remove_answered(self.loads, k),
                checkpoints: left,
                tags: records::use_answered(self.tags, self.figures, self.loads, k),
                ..self
            },
        }
    }

    // A commit on a well-formed state: check 15, then the commit.
    pub(crate) fn commit_formed(self, k: u32) -> Step
        requires { Shaped self (self.figures.sets * self.figures.ways * 16) }
        ensures { (c : List ℕ) → DoesWith (rules.commit k) self result c }
    {
        if k < self.committed {
            return self.refused(Refusal::BadCommit);
        }
        if self.last < k {
            return self.refused(Refusal::BadCommit);
        }
        self.commit_accepted(k)
    }

    // Commit up to number k. Refused: 1, 10, 15.
    pub fn commit(self, cache: &[u8], memory: &[u8], k: u32) -> Step
        ensures { Does (rules.commit k) (world_of self cache.now memory.now) result cache.now memory.now }
    {
        if let Err(why) = self.check_state(cache, memory) {
            return self.refused(why);
        }
        self.commit_formed(k)
    }
}
