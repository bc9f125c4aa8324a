// What a load reads: each byte from the held stores, else from the cached line; and what the tag lookup says of its line.
ghost use Rattle.std.specs.Prelude.{◌≡◌, List, ℕ, ◌+◌, ◌<◌, length};
ghost use Rattle.model.specs.State.{queues_of, hierarchy_of, Shaped, InOneLine};
ghost use Rattle.model.specs.Reads.{place_in, reading_of, wait_of, answer_to};

use crate::{Answer, State};
use line_bytes::Loaded;
use rules::{LINE_BYTES, LINE_LENGTH, Lookup};

// What the lookup says of a load's line, and what the load reads, if no byte is lacking.
#[derive(Clone, Copy)]
pub struct Reading {
    pub found: Lookup,
    pub read: Option<Loaded<u32>>,
}

// 02, card 4: "'waits' becomes 'waits-requested' when the lookup says requested": what load i answers, when it waits.
pub(crate) fn wait_answer(i: u32, found: Lookup) -> Answer
    ensures { result ≡ wait_of i found }
{
    match found {
        Lookup::Hit(_) => Answer::Waits(i),
        Lookup::Pending => Answer::WaitsRequested(i),
        Lookup::Miss => Answer::Waits(i),
    }
}

// What load i answers.
pub(crate) fn answer_to(i: u32, r: Reading) -> Answer
    ensures { result ≡ answer_to i r.found r.read }
{
    match r.read {
        Some(l) => Answer::Value(i, l.value),
        None => wait_answer(i, r.found),
    }
}

// Where in the cache the byte at the address stands, if its line was found in a way of the set from slot `first` on; else 0.
fn place_of(first: usize, found: Lookup, address: u32) -> usize
    requires { (w : ℕ) → found ≡ Lookup.Hit w → first + w < 256 }
    ensures { result ≡ place_in first found address }
{
    let Lookup::Hit(way) = found else {
        return 0;
    };
    LINE_LENGTH * (first + way) + (address % LINE_BYTES) as usize
}

impl State {
    // What load i reads at the address, and what the lookup says of its line, which is looked up once.
    pub(crate) fn read(self, cache: &[u8], i: u32, address: u32, width: u32) -> Reading
        requires { Shaped self (length cache.now) × InOneLine address width }
        ensures { (m : List ℕ) → result ≡ reading_of i address width (queues_of self) (hierarchy_of self cache.now m) }
    {
        let line = address / LINE_BYTES;
        let tags = self.tags;
        let figures = self.figures;
        let request = self.request;
        let set = records::set_of(figures, line);
        let found = records::lookup(tags, set, request, line);
        let place = place_of(set.first, found, address);
        let here = records::is_hit(found);
        let read = line_bytes::read_bytes(self.stores, i, address, width, cache, place, here);
        Reading { found, read }
    }
}
