// The store queue (01: the held stores), by value, and what it forwards to a load.
// A public function takes any queue, well formed or not, and its answer is a definition of the rules.
// (The load queue has some in the same words, one line each over `lists` and the library. Of a load its number and an address go together.)
#![tactic(auto)]

ghost use Rattle.std.specs.Prelude.{◌≡◌, reverse, find};
ghost use Rattle.lists.specs.Bytes.{byte_of};
ghost use Rattle.lists.specs.Padded.{any, shifted, placed, changed};
ghost use Rattle.rules.specs.Shape.{no_store, is_free_store};
ghost use Rattle.rules.specs.Forward.{older_covers};
ghost use Rattle.rules.specs.Calls.{committed_store, young_store};
ghost use Rattle.store_queue.specs.Forwarded.{forwarded};

use lists::placed;
use rules::{NO_STORE, STORE_PLACES, StoreEntry};

// ---- the store queue

// Whether one more store can be held.
pub fn has_free_store(stores: [StoreEntry; STORE_PLACES]) -> bool
    ensures { result ≡ any is_free_store stores }
{
    stores.iter().any(|s| s.number == 0)
}

// The store joins the held stores, in the first free place; a full queue stays as it is.
pub fn place_store(stores: [StoreEntry; STORE_PLACES], e: StoreEntry) -> [StoreEntry; STORE_PLACES]
    ensures { result ≡ placed is_free_store e stores }
{
    placed(stores, e, |s| s.number == 0)
}

// Abort n removes every store numbered n or more: its place is free. (In place: `map` of an array makes it three times.)
pub fn squash_stores(stores: [StoreEntry; STORE_PLACES], n: u32) -> [StoreEntry; STORE_PLACES]
    ensures { result ≡ changed (young_store n) (λ s. no_store) stores }
{
    let mut next = stores;
    for s in next.iter_mut() {
        *s = if n <= s.number { NO_STORE } else { *s };
    }
    next
}

// The oldest store leaves, and the others move up.
pub fn pop_store(stores: [StoreEntry; STORE_PLACES]) -> [StoreEntry; STORE_PLACES]
    ensures { result ≡ shifted no_store stores }
{
    let mut next = [NO_STORE; STORE_PLACES];
    next[..STORE_PLACES - 1].copy_from_slice(&stores[1..]);
    next
}

// A held store numbered h or less.
pub fn is_committed_store(s: StoreEntry, h: u32) -> bool
    ensures { result ≡ committed_store h s }
{
    s.number != 0 && s.number <= h
}

// Whether a committed store is held.
pub fn has_committed_store(stores: [StoreEntry; STORE_PLACES], h: u32) -> bool
    ensures { result ≡ any (committed_store h) stores }
{
    stores.iter().any(|s| is_committed_store(*s, h))
}

// ---- forwarding (01: bypass)

// Byte k of a value, lowest first.
fn byte_of(value: u32, k: u32) -> u8
    ensures { result ≡ byte_of k value }
{
    value.to_le_bytes().get(k as usize).copied().unwrap_or(0)
}

// A held store with a smaller number than i that covers the byte at a.
pub fn is_older_cover(s: StoreEntry, i: u32, a: u32) -> bool
    ensures { result ≡ older_covers i a s }
{
    s.number != 0 && s.number < i && s.address <= a && a - s.address < s.width
}

// The last held store with a smaller number than i that covers the byte at a.
fn last_cover(stores: [StoreEntry; STORE_PLACES], i: u32, a: u32) -> Option<StoreEntry>
    ensures { result ≡ find (older_covers i a) (reverse stores) }
{
    stores
        .iter()
        .rev()
        .copied()
        .find(|s| is_older_cover(*s, i, a))
}

// The byte at a for the load numbered i, from the youngest held store with a smaller number that covers it.
pub fn forward(stores: [StoreEntry; STORE_PLACES], i: u32, a: u32) -> Option<u8>
    ensures { result ≡ forwarded i a stores }
{
    let s = last_cover(stores, i, a)?;
    Some(byte_of(s.value, a - s.address))
}
