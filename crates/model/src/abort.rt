// Abort; and what a return to a mark shares with it.
ghost use Rattle.std.specs.Prelude.{◌≡◌, List, ℕ, ◌<◌};
ghost use Rattle.rules.specs.Calls.{abort_rule};
ghost use Rattle.rules.specs.Calls as rules;
ghost use Rattle.model.specs.State.{queues_of, hierarchy_of, outcome_of, Squashes, Does, DoesWith, world_of};

use crate::{Answer, State, Step};
use rules::{CHECKPOINT_PLACES, Checkpoint, Refusal};

impl State {
    // "removes every store and load numbered n or more and sets last to n − 1", with the checkpoints that are left
    pub(crate) fn squash(self, n: u32, left: [Checkpoint; CHECKPOINT_PLACES]) -> Step
        requires { 0 < n }
        ensures { Squashes self n left result }
    {
        let last = n - 1;
        Step {
            answer: Answer::Kept(last),
            next: State {
                last,
                stores: store_queue::squash_stores(self.stores, n),
                loads: load_queue::squash_loads(self.loads, n),
                checkpoints: left,
                ..self
            },
        }
    }

    // "A plain abort n forgets marks above n"
    fn abort_accepted(self, n: u32) -> Step
        requires { 0 < n }
        ensures { (c m : List ℕ) → outcome_of result c m ≡ abort_rule n (queues_of self) (hierarchy_of self c m) }
    {
        let left = checkpoints::forget_above(self.checkpoints, n);
        self.squash(n, left)
    }

    // An abort on a well-formed state: check 16, then the abort.
    pub(crate) fn abort_formed(self, n: u32) -> Step
        ensures { (c : List ℕ) → DoesWith (rules.abort n) self result c }
    {
        if n <= self.committed {
            return self.refused(Refusal::BadAbort);
        }
        if self.last < n - 1 {
            return self.refused(Refusal::BadAbort);
        }
        self.abort_accepted(n)
    }

    // Abort from number n on. Refused: 1, 10, 16.
    pub fn abort(self, cache: &[u8], memory: &[u8], n: u32) -> Step
        ensures { Does (rules.abort n) (world_of self cache.now memory.now) result cache.now memory.now }
    {
        if let Err(why) = self.check_state(cache, memory) {
            return self.refused(why);
        }
        self.abort_formed(n)
    }
}
