// Preview of a reply: what it will do (02, card 7).
ghost use Rattle.std.specs.Prelude.{List, ℕ};
ghost use Rattle.rules.specs.Calls as rules;
ghost use Rattle.model.specs.State.{Does, DoesWith, world_of};

use crate::{Answer, State, Step};
use rules::{Refusal, Request};

impl State {
    // A preview on a well-formed state: check 17, then what the records of the requested line's set tell. No byte is looked at.
    pub(crate) fn preview_formed(self) -> Step
        ensures { (c : List ℕ) → DoesWith rules.preview self result c }
    {
        let Request::Line(line) = self.request else {
            return self.refused(Refusal::NothingRequested);
        };
        let tags = self.tags;
        let figures = self.figures;
        let set = records::set_of(figures, line);
        let told = records::preview_fill(tags, set);
        Step {
            answer: Answer::Previewed(told),
            next: self,
        }
    }

    // Preview of a reply: nothing changes. Refused as the reply: 1, 10, 17.
    pub fn preview(self, cache: &[u8], memory: &[u8]) -> Step
        ensures { Does rules.preview (world_of self cache.now memory.now) result cache.now memory.now }
    {
        if let Err(why) = self.check_state(cache, memory) {
            return self.refused(why);
        }
        self.preview_formed()
    }
}
