// The load queue (01: the list of loads), by value.
// A public function takes any queue, well formed or not, and its answer is a definition of the rules.
#![tactic(auto)]

ghost use Rattle.std.specs.Prelude.{◌≡◌};
ghost use Rattle.lists.specs.Padded.{any, first, without, placed, changed};
ghost use Rattle.rules.specs.Shape.{no_load, is_free_load};
ghost use Rattle.rules.specs.Calls.{waiting_at, answered, answered_by, uses_line_by, young_load, waits_below};

use lists::{placed, without};
use rules::{LOAD_PLACES, LoadEntry, NO_LOAD};

// Whether one more load can be listed.
pub fn has_free_load(loads: [LoadEntry; LOAD_PLACES]) -> bool
    ensures { result ≡ any is_free_load loads }
{
    loads.iter().any(|l| l.number == 0)
}

// The load joins the list of loads, in the first free place; a full queue stays as it is.
pub fn place_load(loads: [LoadEntry; LOAD_PLACES], e: LoadEntry) -> [LoadEntry; LOAD_PLACES]
    ensures { result ≡ placed is_free_load e loads }
{
    placed(loads, e, |l| l.number == 0)
}

// Abort n removes every load numbered n or more: its place is free. (In place: `map` of an array makes it three times.)
pub fn squash_loads(loads: [LoadEntry; LOAD_PLACES], n: u32) -> [LoadEntry; LOAD_PLACES]
    ensures { result ≡ changed (young_load n) (λ l. no_load) loads }
{
    let mut next = loads;
    for l in next.iter_mut() {
        *l = if n <= l.number { NO_LOAD } else { *l };
    }
    next
}

// The waiting load of number i.
fn is_waiting_at(l: LoadEntry, i: u32) -> bool
    ensures { result ≡ waiting_at i l }
{
    l.number != 0 && l.number == i && l.waiting
}

// Whether an inquiry about number i finds a waiting load.
pub fn has_waiting(loads: [LoadEntry; LOAD_PLACES], i: u32) -> bool
    ensures { result ≡ any (waiting_at i) loads }
{
    loads.iter().any(|l| is_waiting_at(*l, i))
}

// The load that an inquiry about number i tries again; a free entry if none waits.
pub fn waiting_load(loads: [LoadEntry; LOAD_PLACES], i: u32) -> LoadEntry
    ensures { result ≡ first (waiting_at i) no_load loads }
{
    loads
        .iter()
        .copied()
        .find(|l| is_waiting_at(*l, i))
        .unwrap_or(NO_LOAD)
}

// The committed load that an inquiry about number i answered leaves the list.
pub fn remove_waiting(loads: [LoadEntry; LOAD_PLACES], i: u32) -> [LoadEntry; LOAD_PLACES]
    ensures { result ≡ without (waiting_at i) no_load loads }
{
    without(loads, NO_LOAD, |l| is_waiting_at(l, i))
}

// The uncommitted load that an inquiry about number i answered is marked answered. (In place, as above.)
pub fn answer_waiting(loads: [LoadEntry; LOAD_PLACES], i: u32) -> [LoadEntry; LOAD_PLACES]
    ensures { result ≡ changed (waiting_at i) answered loads }
{
    let mut next = loads;
    for l in next.iter_mut() {
        *l = if is_waiting_at(*l, i) {
            LoadEntry {
                waiting: false,
                ..*l
            }
        } else {
            *l
        };
    }
    next
}

// An answered load numbered k or less: commit k takes it off the list.
fn is_answered_by(l: LoadEntry, k: u32) -> bool
    ensures { result ≡ answered_by k l }
{
    l.number != 0 && l.number <= k && !l.waiting
}

// One that uses its line then: not each of its bytes came from a held store (02, card 6).
pub fn uses_line_by(l: LoadEntry, k: u32) -> bool
    ensures { result ≡ uses_line_by k l }
{
    is_answered_by(l, k) && !l.forwarded
}

// Commit k: the answered loads numbered k or less leave the list.
pub fn remove_answered(loads: [LoadEntry; LOAD_PLACES], k: u32) -> [LoadEntry; LOAD_PLACES]
    ensures { result ≡ without (answered_by k) no_load loads }
{
    without(loads, NO_LOAD, |l| is_answered_by(l, k))
}

// A waiting load numbered below i.
fn is_waiting_below(l: LoadEntry, i: u32) -> bool
    ensures { result ≡ waits_below i l }
{
    l.number != 0 && l.number < i && l.waiting
}

// Whether some waiting load has a smaller number than i.
pub fn waits_below(loads: [LoadEntry; LOAD_PLACES], i: u32) -> bool
    ensures { result ≡ any (waits_below i) loads }
{
    loads.iter().any(|l| is_waiting_below(*l, i))
}
