// Store.
ghost use Rattle.std.specs.Prelude.{◌≡◌, List, ℕ, ◌<◌};
ghost use Rattle.rules.specs.Shape.{top_number};
ghost use Rattle.rules.specs.Calls.{store_rule};
ghost use Rattle.rules.specs.Calls as rules;
ghost use Rattle.model.specs.State.{queues_of, hierarchy_of, outcome_of, store_rest, Does, DoesWith, world_of};

use crate::{Answer, State, Step};
use access::Access;
use rules::{Refusal, StoreEntry, TOP_NUMBER};

impl State {
    // "Store takes last + 1 as its number and joins the held stores, uncommitted."
    fn store_accepted(self, a: Access, value: u32) -> Step
        requires { self.last < top_number }
        ensures { (c m : List ℕ) → outcome_of result c m ≡ store_rule a.address a.width value (queues_of self) (hierarchy_of self c m) }
    {
        let i = self.last + 1;
        let entry = StoreEntry {
            number: i,
            address: a.address,
            width: a.width,
            value,
        };
        Step {
            answer: Answer::Stored(i),
            next: State {
                last: i,
                stores: store_queue::place_store(self.stores, entry),
                ..self
            },
        }
    }

    // The rest of the checks, of an access that passed: 5, 13 and 11.
    fn store_checked(self, a: Access, value: u32) -> Step
        ensures { (c m : List ℕ) → outcome_of result c m ≡ store_rest a.address a.width value (queues_of self) (hierarchy_of self c m) }
    {
        if !access::value_fits(value, a.width) {
            return self.refused(Refusal::ValueTooLarge);
        }
        if self.last == TOP_NUMBER {
            return self.refused(Refusal::NumbersUsedUp);
        }
        if !store_queue::has_free_store(self.stores) {
            return self.refused(Refusal::StoreQueueFull);
        }
        self.store_accepted(a, value)
    }

    // A store on a well-formed state: checks 2, 3 and 4, then the others and the store.
    pub(crate) fn store_formed(self, address: u32, width: u32, value: u32) -> Step
        ensures { (c : List ℕ) → DoesWith (rules.store address width value) self result c }
    {
        let checked = access::check_access(address, width, self.size);
        let Ok(a) = checked else {
            return self.refused(checked.unwrap_err());
        };
        self.store_checked(a, value)
    }

    // Store: the operation takes the next number and is held. Refused: 1, 10, 2, 3, 4, 5, 13, 11.
    pub fn store(self, cache: &[u8], memory: &[u8], address: u32, width: u32, value: u32) -> Step
        ensures { Does (rules.store address width value) (world_of self cache.now memory.now) result cache.now memory.now }
    {
        if let Err(why) = self.check_state(cache, memory) {
            return self.refused(why);
        }
        self.store_formed(address, width, value)
    }
}
