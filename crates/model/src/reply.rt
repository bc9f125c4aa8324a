// Reply: a line comes from memory.
ghost use Rattle.std.specs.Prelude.{◌≡◌, length};
ghost use Rattle.rules.specs.Lines.{fill_line};
ghost use Rattle.rules.specs.Calls as rules;
ghost use Rattle.line_checks.specs.Refusal.{hierarchy};
ghost use Rattle.model.specs.State.{Fillable, Does, world_of, Formed};

use crate::{Answer, Call, State, Step};
use rules::{Figures, LINE_BYTES, LINE_LENGTH, Refusal, Request, TAG_RECORDS, Tag};

// A line comes from memory; the dirty words of the victim are first written to memory.
fn fill_line(
    tags: [Tag; TAG_RECORDS],
    figures: Figures,
    line: u32,
    cache: &mut [u8],
    memory: &mut [u8],
) -> [Tag; TAG_RECORDS]
    requires { Fillable figures tags line (length cache.old) (length memory.old) }
    ensures { hierarchy figures 0 result cache.new memory.new ≡ fill_line line (hierarchy figures 0 tags cache.old memory.old) }
{
    let set = records::set_of(figures, line);
    let v = records::victim(tags, set);
    let old = tags[v];
    line_bytes::write_back(old, v, cache, memory);
    let l = line as usize;
    line_bytes::fill_slot(
        cache,
        v,
        &memory[LINE_LENGTH * l..LINE_LENGTH * l + LINE_LENGTH],
    );
    records::install(tags, set, v, line)
}

impl State {
    // A reply on a well-formed state: check 17, then the fill.
    pub(crate) fn reply_formed(self, cache: &mut [u8], memory: &mut [u8]) -> Step
        requires { Formed self cache.old memory.old }
        ensures { Does rules.reply (world_of self cache.old memory.old) result cache.new memory.new }
    {
        let Request::Line(line) = self.request else {
            return self.refused(Refusal::NothingRequested);
        };
        Step {
            answer: Answer::Filled(line * LINE_BYTES),
            next: State {
                request: Request::Free,
                tags: fill_line(self.tags, self.figures, line, cache, memory),
                ..self
            },
        }
    }

    // The memory reply: the requested line is filled. Refused: 1, 10, 17.
    pub fn reply(self, cache: &mut [u8], memory: &mut [u8]) -> Step
        ensures { Does rules.reply (world_of self cache.old memory.old) result cache.new memory.new }
    {
        self.step(Call::Reply, cache, memory)
    }
}
