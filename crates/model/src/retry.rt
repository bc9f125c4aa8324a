// Inquiry.
ghost use Rattle.std.specs.Prelude.{◌≡◌, List, ℕ, ◌*◌, length};
ghost use Rattle.lists.specs.Padded.{first};
ghost use Rattle.rules.specs.Shape.{no_load};
ghost use Rattle.rules.specs.Calls.{waiting_at, answer_load, retry_rule};
ghost use Rattle.rules.specs.Calls as rules;
ghost use Rattle.model.specs.State.{queues_of, hierarchy_of, outcome_of, Shaped, InOneLine, Does, DoesWith, world_of, Sound};

use crate::{Answer, State, Step, read};
use rules::{LINE_BYTES, LoadEntry, Refusal};

impl State {
    // "Once answered, a committed load leaves the list and uses its line if present; an uncommitted one is marked answered."
    fn answer_load(self, i: u32, l: LoadEntry) -> State
        requires { Shaped self (self.figures.sets * self.figures.ways * 16) }
        ensures { (v : ℕ) (c m : List ℕ) → outcome_of (record { answer = Answer.Value i v; next = result }) c m ≡ answer_load i v l (queues_of self) (hierarchy_of self c m) }
    {
        if i <= self.committed {
            return State {
                loads: load_queue::remove_waiting(self.loads, i),
                tags: records::use_line(self.tags, self.figures, l.address / LINE_BYTES),
                ..self
            };
        }
        State {
            loads: load_queue::answer_waiting(self.loads, i),
            ..self
        }
    }

    // "tries a waiting load again by the same rule"
    fn retry_accepted(self, cache: &[u8], i: u32, l: LoadEntry) -> Step
        requires { Shaped self (length cache.now) × InOneLine l.address l.width × (l ≡ first (waiting_at i) no_load self.loads) }
        ensures { (m : List ℕ) → outcome_of result cache.now m ≡ retry_rule i (queues_of self) (hierarchy_of self cache.now m) }
    {
        let r = self.read(cache, i, l.address, l.width);
        let Some(loaded) = r.read else {
            return Step {
                answer: read::wait_answer(i, r.found),
                next: self,
            };
        };
        Step {
            answer: Answer::Value(i, loaded.value),
            next: self.answer_load(i, l),
        }
    }

    // An inquiry on a well-formed state: check 14, then the inquiry.
    pub(crate) fn retry_formed(self, cache: &[u8], i: u32) -> Step
        requires { Sound self (length cache.now) }
        ensures { DoesWith (rules.retry i) self result cache.now }
    {
        if !load_queue::has_waiting(self.loads, i) {
            return self.refused(Refusal::NoWaitingLoad);
        }
        let l = load_queue::waiting_load(self.loads, i);
        self.retry_accepted(cache, i, l)
    }

    // Inquiry about number i: a waiting load is tried again. Refused: 1, 10, 14.
    pub fn retry(self, cache: &[u8], memory: &[u8], i: u32) -> Step
        ensures { Does (rules.retry i) (world_of self cache.now memory.now) result cache.now memory.now }
    {
        if let Err(why) = self.check_state(cache, memory) {
            return self.refused(why);
        }
        self.retry_formed(cache, i)
    }
}
