// Load.
ghost use Rattle.std.specs.Prelude.{◌≡◌, List, ℕ, ◌<◌, length};
ghost use Rattle.rules.specs.Shape.{top_number};
ghost use Rattle.rules.specs.Calls.{load_rule};
ghost use Rattle.rules.specs.Calls as rules;
ghost use Rattle.model.specs.State.{queues_of, hierarchy_of, outcome_of, Shaped, InOneLine, Does, DoesWith, world_of, Sound};

use crate::{State, Step, read};
use access::Access;
use rules::{LoadEntry, Refusal, TOP_NUMBER};

impl State {
    // "Load takes last + 1 and joins the loads." (That there is a next number, three calls ask of the state right behind their check.)
    fn load_accepted(self, cache: &[u8], a: Access) -> Step
        requires { Shaped self (length cache.now) × InOneLine a.address a.width × (self.last < top_number) }
        ensures { (m : List ℕ) → outcome_of result cache.now m ≡ load_rule a.address a.width (queues_of self) (hierarchy_of self cache.now m) }
    {
        let i = self.last + 1;
        let r = self.read(cache, i, a.address, a.width);
        // (field by field: an access has less than an entry)
        let entry = LoadEntry {
            number: i,
            address: a.address,
            width: a.width,
            waiting: r.read.is_none(),
            forwarded: r.read.is_some_and(|l| l.forwarded),
        };
        Step {
            answer: read::answer_to(i, r),
            next: State {
                last: i,
                loads: load_queue::place_load(self.loads, entry),
                ..self
            },
        }
    }

    // A load on a well-formed state: checks 2, 3, 4, 13 and 12, then the load.
    pub(crate) fn load_formed(self, cache: &[u8], address: u32, width: u32) -> Step
        requires { Sound self (length cache.now) }
        ensures { DoesWith (rules.load address width) self result cache.now }
    {
        let checked = access::check_access(address, width, self.size);
        let Ok(a) = checked else {
            return self.refused(checked.unwrap_err());
        };
        if self.last == TOP_NUMBER {
            return self.refused(Refusal::NumbersUsedUp);
        }
        if !load_queue::has_free_load(self.loads) {
            return self.refused(Refusal::LoadQueueFull);
        }
        self.load_accepted(cache, a)
    }

    // Load: the operation takes the next number, and answers its value or that it waits. Refused: 1, 10, 2, 3, 4, 13, 12.
    pub fn load(self, cache: &[u8], memory: &[u8], address: u32, width: u32) -> Step
        ensures { Does (rules.load address width) (world_of self cache.now memory.now) result cache.now memory.now }
    {
        if let Err(why) = self.check_state(cache, memory) {
            return self.refused(why);
        }
        self.load_formed(cache, address, width)
    }
}
