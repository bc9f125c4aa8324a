// Whether the lines of a state are well formed: the figures and the lent lengths, then each record with its bytes.
// A public function takes any figures, records and buffers, and its answer is a definition of the rules.
#![tactic(auto)]

ghost use Rattle.std.specs.Prelude.{◌≡◌, true, not, [], ◌*◌, ◌<◌, length};
ghost use Rattle.lists.specs.Padded.{every};
ghost use Rattle.rules.specs.Shape.{figures_allowed, is_through, fits};
ghost use Rattle.rules.specs.WellFormed.{zero_tag, lines_formed};
ghost use Rattle.rules.specs.RefusalNumbers.{numbered};
ghost use Rattle.line_checks.specs.Refusal.{hierarchy, checked_lines};
ghost use Rattle.line_checks.specs.SlotTests.{marks_good, valid_good, invalid_good, record_good, same_age_or_line, set_good, sets_good};

use rules::{
    ALL_MARKS, Figures, LINE_LENGTH, LINE_WORDS, MAX_MEMORY, MAX_WAYS, MIN_MEMORY, NO_TAG, Refusal,
    TAG_RECORDS, Tag, WORD_LENGTH, WritePolicy,
};

// ---- figures and lengths

// The figures are allowed.
pub fn figures_allowed(figures: Figures, size: usize) -> bool
    ensures { result ≡ figures_allowed figures size }
{
    rules::sets_allowed(figures.sets)
        && (1..=MAX_WAYS).contains(&figures.ways)
        && size % LINE_LENGTH == 0
        && (MIN_MEMORY..=MAX_MEMORY).contains(&size)
}

// The figures are allowed, and the lent lengths agree with them.
pub fn is_fit(figures: Figures, size: u32, cache: &[u8], memory: &[u8]) -> bool
    ensures { result ≡ fits (hierarchy figures size [] cache.now memory.now) }
{
    let bytes = size as usize;
    figures_allowed(figures, bytes)
        && memory.len() == bytes
        && cache.len() == ((figures.sets * figures.ways) as usize) * LINE_LENGTH
}

// ---- a record and the 16 bytes of its slot, `line`; `home` are those of its line in memory. (That there are sets, four functions ask: a type
// for figures with sets would be made and opened for this one remainder. Figures, cache and memory are arguments of the definitions too.)

// With write-through no line is dirty.
fn allows_dirty(policy: WritePolicy) -> bool
    ensures { result ≡ not (is_through policy) }
{
    policy == WritePolicy::WriteBack
}

// A dirty line: no fifth mark is set (02, card 2: "four dirty marks"), and "A clean word must equal memory".
fn marks_good(marks: u8, line: &[u8; LINE_LENGTH], home: &[u8; LINE_LENGTH]) -> bool
    ensures { result ≡ marks_good marks line.now home.now }
{
    let words = line.as_chunks::<WORD_LENGTH>().0;
    let homes = home.as_chunks::<WORD_LENGTH>().0;
    marks <= ALL_MARKS
        && (0..LINE_WORDS).all(|n| dirty_words::is_dirty(marks, n) || words[n] == homes[n])
}

// A valid record t in set s: "a valid line lies in memory, is in its own set", clean words equal memory; with write-through "no line is
// dirty".
fn valid_good(
    t: Tag,
    s: u32,
    figures: Figures,
    line: &[u8; LINE_LENGTH],
    memory: &[[u8; LINE_LENGTH]],
) -> bool
    requires { 0 < figures.sets }
    ensures { result ≡ valid_good figures memory.now s line.now t }
{
    let Some(home) = memory.get(t.line as usize) else {
        return false;
    };
    if u32::from(t.line) % figures.sets != s {
        return false;
    }
    if t.dirty == 0 {
        return *line == *home;
    }
    allows_dirty(figures.policy) && marks_good(t.dirty, line, home)
}

// An invalid record t: "an invalid record is zero but for its age, with zero cache bytes".
fn invalid_good(t: Tag, line: &[u8; LINE_LENGTH]) -> bool
    ensures { result ≡ invalid_good line.now t }
{
    t.dirty == 0 && t.line == 0 && *line == [0; LINE_LENGTH]
}

// The record t, in set s, is well formed by itself.
fn record_good(
    t: Tag,
    s: u32,
    figures: Figures,
    line: &[u8; LINE_LENGTH],
    memory: &[[u8; LINE_LENGTH]],
) -> bool
    requires { 0 < figures.sets }
    ensures { result ≡ record_good figures memory.now s line.now t }
{
    if figures.ways <= u32::from(t.age) {
        return false;
    }
    if t.valid {
        return valid_good(t, s, figures, line, memory);
    }
    invalid_good(t, line)
}

// ---- the records of a set

// The records have the same age, or are valid with the same line. (No derived comparison: it is of some fields.)
fn alike(u: Tag, t: Tag) -> bool
    ensures { result ≡ same_age_or_line u t }
{
    u.age == t.age || t.valid && u.valid && u.line == t.line
}

// The records of set s with their lines: each is well formed by itself, and none is like one before it.
fn set_good(
    set: &[Tag],
    s: u32,
    figures: Figures,
    lines: &[[u8; LINE_LENGTH]],
    memory: &[[u8; LINE_LENGTH]],
) -> bool
    requires { (0 < figures.sets) × (length set.now ≡ length lines.now) }
    ensures { result ≡ set_good figures memory.now s set.now lines.now }
{
    for (w, t) in set.iter().enumerate() {
        if !record_good(*t, s, figures, &lines[w], memory) {
            return false;
        }
        if set[..w].iter().any(|u| alike(*u, *t)) {
            return false;
        }
    }
    true
}

// The records in use, set by set.
fn sets_good(
    tags: &[Tag],
    figures: Figures,
    cache: &[[u8; LINE_LENGTH]],
    memory: &[[u8; LINE_LENGTH]],
) -> bool
    requires { (0 < figures.sets) × (figures.sets * figures.ways ≡ length tags.now) × (figures.sets * figures.ways ≡ length cache.now) }
    ensures { result ≡ sets_good figures memory.now tags.now cache.now }
{
    let ways = figures.ways as usize;
    for s in 0..figures.sets {
        let first = s as usize * ways;
        let (set, lines) = (&tags[first..first + ways], &cache[first..first + ways]);
        if !set_good(set, s, figures, lines, memory) {
            return false;
        }
    }
    true
}

// "unused records are all zero"
fn unused_zero(tags: &[Tag]) -> bool
    ensures { result ≡ every zero_tag tags.now }
{
    tags.iter().all(|t| *t == NO_TAG)
}

// The clauses of the lines: all that well-formed asks of the records, the cache and memory.
fn lines_good(
    tags: [Tag; TAG_RECORDS],
    figures: Figures,
    size: u32,
    cache: &[u8],
    memory: &[u8],
) -> bool
    requires { fits (hierarchy figures size tags cache.now memory.now) ≡ true }
    ensures { result ≡ lines_formed (hierarchy figures size tags cache.now memory.now) }
{
    let count = (figures.sets * figures.ways) as usize;
    let (used, unused) = tags.split_at(count);
    let lines = cache.as_chunks::<LINE_LENGTH>().0;
    let homes = memory.as_chunks::<LINE_LENGTH>().0;
    unused_zero(unused) && sets_good(used, figures, lines, homes)
}

// Checks 1 and 10 of the lines: the figures and the lent lengths, then each clause.
pub fn check_lines(
    tags: [Tag; TAG_RECORDS],
    figures: Figures,
    size: u32,
    cache: &[u8],
    memory: &[u8],
) -> Result<(), Refusal>
    ensures { numbered result ≡ checked_lines (hierarchy figures size tags cache.now memory.now) }
{
    if !is_fit(figures, size, cache, memory) {
        return Err(Refusal::BadFigures);
    }
    if !lines_good(tags, figures, size, cache, memory) {
        return Err(Refusal::NotWellFormed);
    }
    Ok(())
}
