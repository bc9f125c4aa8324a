// Flush.
ghost use Rattle.std.specs.Prelude.{◌≡◌, length};
ghost use Rattle.rules.specs.Lines.{write_back_all};
ghost use Rattle.rules.specs.Calls as rules;
ghost use Rattle.line_checks.specs.Refusal.{hierarchy};
ghost use Rattle.model.specs.State.{Flushable, Does, world_of, Formed};

use crate::{Answer, State, Step};
use rules::{Figures, Refusal, TAG_RECORDS, Tag};

// 02, card 2: "Eviction and flush write marked words only": every dirty word goes to memory, and the records are clean. (Of any lines
// whose dirty ones lie in memory, well formed or not.)
fn flush_lines(
    tags: [Tag; TAG_RECORDS],
    figures: Figures,
    cache: &[u8],
    memory: &mut [u8],
) -> [Tag; TAG_RECORDS]
    requires { Flushable figures tags (length cache.now) (length memory.old) }
    ensures { hierarchy figures 0 result cache.now memory.new ≡ write_back_all (hierarchy figures 0 tags cache.now memory.old) }
{
    let count = (figures.sets * figures.ways) as usize;
    line_bytes::write_back_all(tags, count, cache, memory);
    records::clean_all(tags, count)
}

impl State {
    // A flush on a well-formed state: check 18, then "Flush writes every dirty line to memory, marks it clean .. Ages stay." 02, card 2:
    // "flush answers the count of words".
    pub(crate) fn flush_formed(self, cache: &[u8], memory: &mut [u8]) -> Step
        requires { Formed self cache.now memory.old }
        ensures { Does rules.flush (world_of self cache.now memory.old) result cache.now memory.new }
    {
        if store_queue::has_committed_store(self.stores, self.committed) {
            return self.refused(Refusal::CommittedStoreHeld);
        }
        Step {
            answer: Answer::Flushed(records::dirty_count(self.tags)),
            next: State {
                tags: flush_lines(self.tags, self.figures, cache, memory),
                ..self
            },
        }
    }

    // Flush: every dirty word goes to memory. Refused: 1, 10, 18.
    pub fn flush(self, cache: &[u8], memory: &mut [u8]) -> Step
        ensures { Does rules.flush (world_of self cache.now memory.old) result cache.now memory.new }
    {
        if let Err(why) = self.check_state(cache, memory) {
            return self.refused(why);
        }
        self.flush_formed(cache, memory)
    }
}
