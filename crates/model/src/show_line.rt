// Show line.
ghost use Rattle.std.specs.Prelude.{◌≡◌, List, ℕ, ◌+◌, ◌*◌, ◌≤◌, length};
ghost use Rattle.rules.specs.Calls as rules;
ghost use Rattle.model.specs.State.{Shaped, Does, DoesWith, world_of, Formed};
ghost use Rattle.model.specs.Shows.{shown_part, PartOf};

use crate::{Answer, State, Step};
use rules::{LINE_BYTES, LINE_LENGTH, Lookup, Request};

// A part of the cache: where it begins, and its length, 16 or 0.
#[derive(Clone, Copy, PartialEq, Eq)]
pub struct Part {
    pub start: usize,
    pub length: usize,
}

const EMPTY_PART: Part = Part {
    start: 0,
    length: 0,
};

impl State {
    // Where the present line's bytes stand, in a well-formed state.
    fn part_formed(self, address: u32) -> Part
        requires { Shaped self (self.figures.sets * self.figures.ways * 16) }
        ensures { (c m : List ℕ) → Formed self c m → (result ≡ shown_part address (world_of self c m)) × (result.start + result.length ≤ length c) }
    {
        if self.size <= address {
            return EMPTY_PART;
        }
        let tags = self.tags;
        let figures = self.figures;
        let line = address / LINE_BYTES;
        let set = records::set_of(figures, line);
        let found = records::lookup(tags, set, Request::Free, line);
        let Lookup::Hit(way) = found else {
            return EMPTY_PART;
        };
        Part {
            start: LINE_LENGTH * (set.first + way),
            length: LINE_LENGTH,
        }
    }

    // The same in any state: the empty part where check 1 or 10 fails.
    pub(crate) fn show_part(self, cache: &[u8], memory: &[u8], address: u32) -> Part
        ensures { (result ≡ shown_part address (world_of self cache.now memory.now)) × (result.start + result.length ≤ length cache.now) }
    {
        if !self.is_formed(cache, memory) {
            return EMPTY_PART;
        }
        self.part_formed(address)
    }

    // "gives the present line's bytes as a part of the lent cache", or an empty part.
    pub fn show_line<'a>(self, cache: &'a [u8], memory: &[u8], address: u32) -> &'a [u8]
        ensures { PartOf cache.entry (shown_part address (world_of self cache.now memory.now)) result }
    {
        let p = self.show_part(cache, memory, address);
        &cache[p.start..p.start + p.length]
    }

    // Show line as a step on a well-formed state.
    pub(crate) fn show_formed(self, address: u32) -> Step
        requires { Shaped self (self.figures.sets * self.figures.ways * 16) }
        ensures { (c : List ℕ) → DoesWith (rules.show address) self result c }
    {
        let part = self.part_formed(address);
        Step {
            answer: Answer::Shown(part.start, part.length),
            next: self,
        }
    }

    // Show line as a step: the place and the length of the part.
    pub fn show(self, cache: &[u8], memory: &[u8], address: u32) -> Step
        ensures { Does (rules.show address) (world_of self cache.now memory.now) result cache.now memory.now }
    {
        let p = self.show_part(cache, memory, address);
        Step {
            answer: Answer::Shown(p.start, p.length),
            next: self,
        }
    }
}
