// One step over an enum of calls.
ghost use Rattle.std.specs.Prelude.{◌≡◌, List, ℕ};
ghost use Rattle.rules.specs.Calls.{unchanged};
ghost use Rattle.rules.specs.Runs.{refusal};
ghost use Rattle.rules.specs.RefusalNumbers.{refusal_number};
ghost use Rattle.model.specs.State.{call_of, queues_of, hierarchy_of, outcome_of, Does, world_of, Formed};

use crate::{Answer, Call, State, Step};
use rules::Refusal;

impl State {
    // A call that check 1 or 10 refuses; show line names no refusal.
    fn refused_call(self, call: Call, why: Refusal) -> Step
        ensures { (c m : List ℕ) → outcome_of result c m ≡ unchanged (refusal (call_of call) (refusal_number why)) (queues_of self) (hierarchy_of self c m) }
    {
        if let Call::Show(_) = call {
            return Step {
                answer: Answer::Shown(0, 0),
                next: self,
            };
        }
        self.refused(why)
    }

    // Any call of a run on a state that is known to be well formed: checks 1 and 10 are not made. Of all public calls this one alone
    // asks something of its caller: to have tested the state once (`is_formed`), since when every call has kept it well formed.
    pub fn step_formed(self, call: Call, cache: &mut [u8], memory: &mut [u8]) -> Step
        requires { Formed self cache.old memory.old }
        ensures { Does (call_of call) (world_of self cache.old memory.old) result cache.new memory.new }
    {
        // (Each arm returns: as the match's value a step of 2 KB is copied once more, a tenth of a call.)
        match call {
            Call::Load(address, width) => return self.load_formed(cache, address, width),
            Call::Store(address, width, value) => return self.store_formed(address, width, value),
            Call::Retry(i) => return self.retry_formed(cache, i),
            Call::Commit(k) => return self.commit_formed(k),
            Call::Abort(n) => return self.abort_formed(n),
            Call::Idle => return self.idle_formed(cache, memory),
            Call::Reply => return self.reply_formed(cache, memory),
            Call::Flush => return self.flush_formed(cache, memory),
            Call::Show(address) => return self.show_formed(address),
            Call::Checkpoint(name) => return self.checkpoint_formed(name),
            Call::Restore(name) => return self.restore_formed(name),
            Call::Preview => return self.preview_formed(),
        }
    }

    // Any call of a run, by the enum: what the method of that call answers, hands back and leaves.
    pub fn step(self, call: Call, cache: &mut [u8], memory: &mut [u8]) -> Step
        ensures { Does (call_of call) (world_of self cache.old memory.old) result cache.new memory.new }
    {
        if let Err(why) = self.check_state(cache, memory) {
            return self.refused_call(call, why);
        }
        self.step_formed(call, cache, memory)
    }
}
