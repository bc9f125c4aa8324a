// The bytes of lines, in a lent cache and a lent memory: a line filled, its dirty words written back, a store put in its place or drained to
// memory, and what a load reads: each byte from the held stores, else from the cached line.
// A public function takes any record, any numbers and bytes of any length. Where the places do not lie in the bytes it changes
// nothing, or reads nothing.
// A line of the cache is named by its slot, s × ways + w for way w of set s.
#![tactic(auto)]

ghost use Rattle.std.specs.Prelude.{◌≡◌, true, ◌+◌, ◌*◌, ◌<◌, ◌≤◌, length};
ghost use Rattle.lists.specs.Bytes.{gather};
ghost use Rattle.lists.specs.Counted.{each_from};
ghost use Rattle.rules.specs.Forward.{all_forwarded};
ghost use Rattle.rules.specs.Lines.{written_back_at};
ghost use Rattle.line_bytes.specs.Writes.{places_inside, line_filled, marked_line, line_written, lines_written, store_put, stored_through};
ghost use Rattle.line_bytes.specs.Reads.{readable, byte_from, byte_or_line, read_of, bytes_read};

use rules::{
    LINE_LENGTH, MAX_MEMORY, STORE_PLACES, StoreEntry, TAG_RECORDS, Tag, WORD_LENGTH, WritePolicy,
};

// "Widths are 1, 2 or 4."
const MAX_WIDTH: u32 = 4;

// What a load reads, of one byte or of all: its value, and whether each byte of it came from a held store (02, card 6).
#[derive(Clone, Copy)]
pub struct Loaded<T> {
    pub value: T,
    pub forwarded: bool,
}

// ---- lines

// The 16 bytes of src go into slot v: "the reply copies the line's 16 bytes out of the middle of memory".
pub fn fill_slot(cache: &mut [u8], v: usize, src: &[u8])
    ensures { cache.new ≡ line_filled v src.now cache.old }
{
    if src.len() == LINE_LENGTH && v < cache.len() / LINE_LENGTH {
        let at = LINE_LENGTH * v;
        cache[at..at + LINE_LENGTH].copy_from_slice(src);
    }
}

// The words of slot v that are dirty by these marks go to a line of memory: each byte, if its word is dirty.
fn write_words(marks: u8, line: usize, v: usize, cache: &[u8], memory: &mut [u8])
    requires { (16 * v + 16 ≤ length cache.now) × (16 * line + 16 ≤ length memory.old) }
    ensures { memory.new ≡ each_from (written_back_at (marked_line marks line) cache.now v) 0 memory.old }
{
    let from = LINE_LENGTH * v;
    let to = LINE_LENGTH * line;
    for i in 0..LINE_LENGTH {
        if dirty_words::is_dirty(marks, i / WORD_LENGTH) {
            memory[to + i] = cache[from + i];
        }
    }
}

// 02, card 2: "Eviction and flush write marked words only": those of the line of record t, in slot v. (For any record and any memory: in a
// well-formed state a clean word equals memory, and nobody could tell whether it is written.)
pub fn write_back(t: Tag, v: usize, cache: &[u8], memory: &mut [u8])
    ensures { memory.new ≡ line_written t v cache.now memory.old }
{
    let line = usize::from(t.line);
    if t.dirty != 0 && v < cache.len() / LINE_LENGTH && line < memory.len() / LINE_LENGTH {
        write_words(t.dirty, line, v, cache, memory);
    }
}

// The dirty words of the first count slots, slot by slot.
pub fn write_back_all(tags: [Tag; TAG_RECORDS], count: usize, cache: &[u8], memory: &mut [u8])
    ensures { memory.new ≡ lines_written tags count cache.now memory.old }
{
    if count <= TAG_RECORDS {
        for (k, t) in tags[..count].iter().enumerate() {
            write_back(*t, k, cache, memory);
        }
    }
}

// ---- stores

// At most 4 places from place at on lie in so many bytes.
fn places_inside(at: usize, width: u32, length: usize) -> bool
    ensures { result ≡ places_inside at width length }
{
    let n = width as usize;
    width <= MAX_WIDTH && n <= length && at <= length - n
}

// "Byte k of a value, lowest first, stands at address + k": the lowest bytes of the value, width of them, go to place at and the
// places after it.
pub fn put_store(bytes: &mut [u8], at: usize, width: u32, value: u32)
    ensures { bytes.new ≡ store_put at width value bytes.old }
{
    if places_inside(at, width, bytes.len()) {
        let n = width as usize;
        let low = value.to_le_bytes();
        bytes[at..at + n].copy_from_slice(&low[..n]);
    }
}

// A store is drained: with write-through its bytes go to memory.
pub fn write_through(policy: WritePolicy, s: StoreEntry, memory: &mut [u8])
    ensures { memory.new ≡ stored_through policy s memory.old }
{
    if policy == WritePolicy::WriteThrough {
        put_store(memory, s.address as usize, s.width, s.value);
    }
}

// ---- loads

// The byte at address a for load i: from the held stores, else from place p of the cache, if its line is there.
fn byte_at(
    stores: [StoreEntry; STORE_PLACES],
    i: u32,
    a: u32,
    cache: &[u8],
    p: usize,
    here: bool,
) -> Option<Loaded<u8>>
    requires { here ≡ true → p < length cache.now }
    ensures { result ≡ byte_or_line i a stores cache.now p here }
{
    match store_queue::forward(stores, i, a) {
        Some(value) => Some(Loaded {
            value,
            forwarded: true,
        }),
        None if here => Some(Loaded {
            value: cache[p],
            forwarded: false,
        }),
        None => None,
    }
}

// The width bytes from address a on, if none is lacking.
fn join_bytes(
    stores: [StoreEntry; STORE_PLACES],
    i: u32,
    a: u32,
    width: u32,
    cache: &[u8],
    p: usize,
    here: bool,
) -> Option<Loaded<u32>>
    requires { (width ≤ 4) × (a + width ≤ 65536) × (p ≤ 65536) × (here ≡ true → p + width ≤ length cache.now) }
    ensures { result ≡ read_of (all_forwarded i stores a width) (gather (byte_from i a stores cache.now p here) a width) }
{
    let mut bytes = [0; 4];
    let mut forwarded = true;
    for k in 0..width {
        let at = k as usize;
        let b = byte_at(stores, i, a + k, cache, p + at, here)?;
        bytes[at] = b.value;
        forwarded &= b.forwarded;
    }
    let value = u32::from_le_bytes(bytes);
    Some(Loaded { value, forwarded })
}

// The addresses lie in the largest memory, and the places in the cache if the line is there.
fn is_readable(a: u32, width: u32, p: usize, here: bool, length: usize) -> bool
    ensures { result ≡ readable a width p here length }
{
    places_inside(a as usize, width, MAX_MEMORY)
        && p <= MAX_MEMORY
        && (!here || places_inside(p, width, length))
}

// "Each byte comes from the youngest held store with a smaller number that covers it, else from the cached line": the width bytes
// from address a on, lowest first, for load i; the first of them stands at place p of the cache, if the line is there.
// (A place and a flag, no Option: `bytes_read` has it that nothing is read for a place too far, even where the line is not there.)
pub fn read_bytes(
    stores: [StoreEntry; STORE_PLACES],
    i: u32,
    a: u32,
    width: u32,
    cache: &[u8],
    p: usize,
    here: bool,
) -> Option<Loaded<u32>>
    ensures { result ≡ bytes_read i a width stores cache.now p here }
{
    if is_readable(a, width, p, here, cache.len()) {
        join_bytes(stores, i, a, width, cache, p, here)
    } else {
        None
    }
}
