// Tests of the two queues together: whether the oldest store may drain, whether a requested line is wanted, and whether every
// entry is well formed. A public function takes any queues, and its answer is a definition of the rules.
#![tactic(auto)]

ghost use Rattle.std.specs.Prelude.{◌≡◌, ◌&&◌, ◌+◌, ◌≤◌, ltb, eqb};
ghost use Rattle.lists.specs.Padded.{any, every};
ghost use Rattle.rules.specs.Forward.{older_covers, some_uncovered};
ghost use Rattle.rules.specs.Shape.{top_number};
ghost use Rattle.rules.specs.Calls.{store_ready};
ghost use Rattle.rules.specs.WellFormed.{alone, waits_for, request_wanted};
ghost use Rattle.access.specs.AccessChecks.{sized};
ghost use Rattle.queue_checks.specs.Good.{queues_from, queues_with, queues_good, store_good, load_good, stores_good, loads_good};

use rules::{
    LINE_BYTES, LOAD_PLACES, LoadEntry, NO_LOAD, NO_STORE, Request, STORE_PLACES, StoreEntry,
    WritePolicy,
};

// ---- draining and requests

// Whether the oldest held store is committed and no waiting load has a smaller number.
pub fn store_ready(
    stores: [StoreEntry; STORE_PLACES],
    loads: [LoadEntry; LOAD_PLACES],
    committed: u32,
) -> bool
    ensures { result ≡ store_ready (queues_with committed stores loads) }
{
    let s = stores[0];
    store_queue::is_committed_store(s, committed) && !load_queue::waits_below(loads, s.number)
}

// A committed waiting load on the line.
fn is_waiting_for(l: LoadEntry, h: u32, line: u32) -> bool
    ensures { result ≡ waits_for h line l }
{
    l.number != 0 && l.number <= h && l.waiting && l.address / LINE_BYTES == line
}

// Whether a committed load waits for the line.
fn has_waiting_for(loads: [LoadEntry; LOAD_PLACES], h: u32, line: u32) -> bool
    ensures { result ≡ any (waits_for h line) loads }
{
    loads.iter().any(|l| is_waiting_for(*l, h, line))
}

// Whether the requested line is wanted by a committed waiting load, or by the oldest store, committed and with no older waiting load;
// with write-through by a committed waiting load only.
pub fn request_wanted(
    policy: WritePolicy,
    request: Request,
    stores: [StoreEntry; STORE_PLACES],
    loads: [LoadEntry; LOAD_PLACES],
    committed: u32,
) -> bool
    ensures { result ≡ request_wanted request (queues_with committed stores loads) policy }
{
    let Request::Line(line) = request else {
        return true;
    };
    has_waiting_for(loads, committed, line)
        || (policy == WritePolicy::WriteBack
            && store_ready(stores, loads, committed)
            && stores[0].address / LINE_BYTES == line)
}

// ---- well-formed queues

// A held store with a number above m that is as it has to be.
fn is_good_store(s: StoreEntry, m: u32, last: u32, size: u32) -> bool
    ensures { result ≡ (ltb m s.number && store_good last size s) }
{
    m < s.number
        && s.number <= last
        && access::access_passes(s.address, s.width, size)
        && access::value_fits(s.value, s.width)
}

// The held stores, each with a higher number than the one before, and behind them free places.
fn stores_good(stores: [StoreEntry; STORE_PLACES], last: u32, size: u32) -> bool
    ensures { result ≡ stores_good last size 0 stores }
{
    let mut m: u32 = 0;
    for (i, s) in stores.iter().enumerate() {
        if s.number == 0 {
            return stores[i..].iter().all(|s| *s == NO_STORE);
        }
        if !is_good_store(*s, m, last, size) {
            return false;
        }
        m = s.number;
    }
    true
}

// Whether a held store with a smaller number than i covers the byte at a.
fn is_covered(stores: [StoreEntry; STORE_PLACES], i: u32, a: u32) -> bool
    ensures { result ≡ any (older_covers i a) stores }
{
    stores.iter().any(|s| store_queue::is_older_cover(*s, i, a))
}

// "a waiting load has a byte that no older held store covers": whether some of the bytes from a on is covered by no held store with a
// smaller number than i.
fn has_uncovered(stores: [StoreEntry; STORE_PLACES], i: u32, a: u32, width: u32) -> bool
    requires { a + width ≤ top_number }
    ensures { result ≡ some_uncovered i stores a width }
{
    (a..a + width).any(|x| !is_covered(stores, i, x))
}

// A listed load with a number above m that is as it has to be: it waits for a byte and is not forwarded, or is answered and not committed.
fn is_good_load(
    l: LoadEntry,
    m: u32,
    last: u32,
    committed: u32,
    size: u32,
    stores: [StoreEntry; STORE_PLACES],
) -> bool
    ensures { result ≡ (ltb m l.number && load_good last committed size stores l) }
{
    if l.number <= m || last < l.number || !access::access_passes(l.address, l.width, size) {
        return false;
    }
    if l.waiting {
        !l.forwarded && has_uncovered(stores, l.number, l.address, l.width)
    } else {
        committed < l.number
    }
}

// The listed loads, each with a higher number than the one before, and behind them free places.
// (As `stores_good`: one function for both would take the number, the test and the free place of an entry, and is no plainer.)
fn loads_good(
    loads: [LoadEntry; LOAD_PLACES],
    last: u32,
    committed: u32,
    size: u32,
    stores: [StoreEntry; STORE_PLACES],
) -> bool
    ensures { result ≡ loads_good last committed size stores 0 loads }
{
    let mut m: u32 = 0;
    for (i, l) in loads.iter().enumerate() {
        if l.number == 0 {
            return loads[i..].iter().all(|l| *l == NO_LOAD);
        }
        if !is_good_load(*l, m, last, committed, size, stores) {
            return false;
        }
        m = l.number;
    }
    true
}

// Whether a load of number n is listed.
fn is_listed(loads: [LoadEntry; LOAD_PLACES], n: u32) -> bool
    ensures { result ≡ any (λ l. eqb l.number n) loads }
{
    loads.iter().any(|l| l.number == n)
}

// No number is in both queues.
fn numbers_apart(stores: [StoreEntry; STORE_PLACES], loads: [LoadEntry; LOAD_PLACES]) -> bool
    ensures { result ≡ every (alone loads) stores }
{
    stores
        .iter()
        .all(|s| s.number == 0 || !is_listed(loads, s.number))
}

// Whether the queues are well formed, by last, h and the memory length: one pass over each queue, then no number twice.
pub fn queues_good(
    stores: [StoreEntry; STORE_PLACES],
    loads: [LoadEntry; LOAD_PLACES],
    last: u32,
    committed: u32,
    size: u32,
) -> bool
    ensures { result ≡ queues_good (queues_from last committed stores loads) (sized size) }
{
    committed <= last
        && stores_good(stores, last, size)
        && loads_good(loads, last, committed, size, stores)
        && numbers_apart(stores, loads)
}
