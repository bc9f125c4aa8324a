// The idle call.
ghost use Rattle.std.specs.Prelude.{◌≡◌, ◌&&◌, ◌||◌, List, [], ℕ, ◌+◌, ◌*◌, ◌≤◌, length};
ghost use Rattle.rules.specs.Shape.{is_through};
ghost use Rattle.rules.specs.Lines.{present, write_store};
ghost use Rattle.line_checks.specs.Refusal.{hierarchy};
ghost use Rattle.rules.specs.Calls.{oldest_store, store_needs_line, drain_oldest, request_line};
ghost use Rattle.rules.specs.Calls as rules;
ghost use Rattle.records.specs.Records.{has_room, tabled};
ghost use Rattle.model.specs.State.{queues_of, hierarchy_of, outcome_of, Shaped, Writable, InOneLine, idle_request, Does, world_of, Formed};

use crate::{Answer, Call, State, Step};
use rules::{
    Figures, LINE_BYTES, LINE_LENGTH, Lookup, Request, StoreEntry, TAG_RECORDS, Tag, WritePolicy,
};

// (a) ".. and its line is present": with write-through it need not be.
fn can_write(tags: [Tag; TAG_RECORDS], figures: Figures, line: u32) -> bool
    ensures { result ≡ (is_through figures.policy || (has_room figures && present (tabled figures tags) line)) }
{
    match figures.policy {
        WritePolicy::WriteBack => records::is_present(tags, figures, line),
        WritePolicy::WriteThrough => true,
    }
}

// "write it, mark the line dirty, use the line": the cached line, where there is one, and the mark of its word.
fn write_store(
    tags: [Tag; TAG_RECORDS],
    figures: Figures,
    s: StoreEntry,
    cache: &mut [u8],
) -> [Tag; TAG_RECORDS]
    requires { Writable figures s (length cache.old) }
    ensures { hierarchy figures 0 result cache.new [] ≡ write_store s (hierarchy figures 0 tags cache.old []) }
{
    let line = s.address / LINE_BYTES;
    let set = records::set_of(figures, line);
    let found = records::lookup(tags, set, Request::Free, line);
    let Lookup::Hit(way) = found else {
        return tags;
    };
    let slot = set.first + way;
    let at = LINE_LENGTH * slot + (s.address % LINE_BYTES) as usize;
    line_bytes::put_store(cache, at, s.width, s.value);
    let marked = records::mark_written(tags, figures.policy, s, slot);
    records::use_slot(marked, set, slot)
}

impl State {
    // (a) ".. remove the store": s is the oldest store. With write-through it goes to memory too.
    fn drain_oldest(self, cache: &mut [u8], memory: &mut [u8], s: StoreEntry) -> Step
        requires { Shaped self (length cache.old) × InOneLine s.address s.width × (s.address + s.width ≤ length memory.old) × (s ≡ oldest_store (queues_of self)) }
        ensures { outcome_of result cache.new memory.new ≡ drain_oldest (queues_of self) (hierarchy_of self cache.old memory.old) }
    {
        line_bytes::write_through(self.figures.policy, s, memory);
        Step {
            answer: Answer::Drained(s.number),
            next: State {
                stores: store_queue::pop_store(self.stores),
                tags: write_store(self.tags, self.figures, s, cache),
                ..self
            },
        }
    }

    // The line of the address is requested.
    fn request_line(mut self, address: u32) -> Step
        ensures { (c m : List ℕ) → outcome_of result c m ≡ request_line address (queues_of self) (hierarchy_of self c m) }
    {
        let line = address / LINE_BYTES;
        self.request = Request::Line(line);
        Step {
            answer: Answer::Requested(line * LINE_BYTES),
            next: self,
        }
    }

    // (b), (c) and (d): what follows where nothing drains. Whether the oldest store's line is to be requested, and its address, are told. (No
    // Option: the oldest store has an address either way, of which the contract speaks.)
    fn idle_request(self, missing: bool, address: u32) -> Step
        requires { Shaped self (self.figures.sets * self.figures.ways * 16) × (address ≡ (oldest_store (queues_of self)).address) × (missing ≡ store_needs_line (queues_of self) (tabled self.figures self.tags)) }
        ensures { (c m : List ℕ) → outcome_of result c m ≡ idle_request (queues_of self) (hierarchy_of self c m) }
    {
        if let Request::Line(_) = self.request {
            return Step {
                answer: Answer::Idled,
                next: self,
            };
        }
        let l = records::lowest_wanting(self.tags, self.figures, self.committed, self.loads);
        if l.number != 0 {
            return self.request_line(l.address);
        }
        if missing {
            return self.request_line(address);
        }
        Step {
            answer: Answer::Idled,
            next: self,
        }
    }

    // Idle on a well-formed state.
    pub(crate) fn idle_formed(self, cache: &mut [u8], memory: &mut [u8]) -> Step
        requires { Formed self cache.old memory.old }
        ensures { Does rules.idle (world_of self cache.old memory.old) result cache.new memory.new }
    {
        let s = self.stores[0];
        let ready = queue_checks::store_ready(self.stores, self.loads, self.committed);
        if ready && can_write(self.tags, self.figures, s.address / LINE_BYTES) {
            return self.drain_oldest(cache, memory, s);
        }
        self.idle_request(ready, s.address)
    }

    // "Idle does the first that applies." Refused: 1, 10.
    pub fn idle(self, cache: &mut [u8], memory: &mut [u8]) -> Step
        ensures { Does rules.idle (world_of self cache.old memory.old) result cache.new memory.new }
    {
        self.step(Call::Idle, cache, memory)
    }
}
