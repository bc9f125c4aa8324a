// The table of tag records, by value: the tag lookup, use, the victim, what a fill will do, and the changes of a record.
// A record is named by its slot, s × ways + w for way w of set s; a set's records stand from its first slot on.
// (The table and the figures are two parameters, as they are two fields of the state.)
// A public function takes any table and any places. Where the places it is given do not lie in the table, it answers slot 0, a miss or an empty preview, or
// leaves the records as they are; else its answer is a definition of the rules, or one of specs/Records that says the same of a set's slots.
#![tactic(auto)]

ghost use Rattle.std.specs.Prelude.{IsTrue, IfSome, length, take, drop, ◌≡◌, cond, not, true, ◌&&◌, ◌+◌, ◌*◌, ◌%◌, ◌<◌, ◌≤◌, ltb, leb, set, replicate};
ghost use Rattle.std.specs.List.{position_from};
ghost use Rattle.lists.specs.Padded.{first, filter, total};
ghost use Rattle.lists.specs.Counted.{greatest_from, each_from};
ghost use Rattle.rules.specs.Shape.{no_tag, no_load, tag_at, with_age};
ghost use Rattle.rules.specs.Lines.{holds_line, present, aged_at, words_of, dirty_after, marked};
ghost use Rattle.rules.specs.Calls.{uses_line_by, use_each, wants_line};
ghost use Rattle.rules.specs.Runs.{start_tags};
ghost use Rattle.records.specs.Records.{has_room, in_table, in_set, is_hit, lookup_in, tabled, used_tags, victim_in, preview_given, preview_in, no_preview, installed_in, flushed_tags};

use rules::{
    Figures, LINE_BYTES, LOAD_PLACES, LoadEntry, Lookup, MAX_WAYS, NO_LOAD, NO_TAG, Request,
    StoreEntry, TAG_RECORDS, Tag, WritePolicy,
};

// ---- places in the table

// There are sets and ways, and the table has a record for each way of each set.
#[tactic(auto, unfolding(crate::specs::Records::has_room))]
fn has_room(figures: Figures) -> bool
    ensures test { result ≡ has_room figures }
    ensures room { IsTrue result → (0 < figures.sets) × (0 < figures.ways) × (figures.sets * figures.ways ≤ 256) }
{
    0 < figures.sets && 0 < figures.ways && u64::from(figures.sets) * u64::from(figures.ways) <= 256
}

// The slots of a set: so many ways, from its first slot on. (Any numbers, which need not lie in the table.)
#[derive(Clone, Copy, PartialEq, Eq)]
pub struct SetSlots {
    pub first: usize,
    pub ways: usize,
}

impl SetSlots {
    // They lie in the table.
    #[tactic(auto, unfolding(crate::specs::Records::in_table))]
    fn in_table(self) -> bool
        ensures test { result ≡ in_table self.first self.ways }
        ensures within { IsTrue result → self.first + self.ways ≤ 256 }
    {
        self.ways <= TAG_RECORDS && self.first <= TAG_RECORDS - self.ways
    }

    // They lie in the table, and slot v is one of them.
    #[tactic(auto, unfolding(crate::specs::Records::in_set))]
    fn has(self, v: usize) -> bool
        ensures test { result ≡ in_set self.first self.ways v }
        ensures within { IsTrue result → (self.first + self.ways ≤ 256) × (self.first ≤ v) × (v < self.first + self.ways) }
    {
        self.in_table() && self.first <= v && v < self.first + self.ways
    }

    // Their records.
    fn records(self, tags: &[Tag; TAG_RECORDS]) -> &[Tag]
        requires { self.first + self.ways ≤ 256 }
        ensures slots { result.now ≡ take self.ways (drop self.first tags.now) }
        ensures count { length result.now ≡ self.ways }
    {
        &tags[self.first..self.first + self.ways]
    }
}

// The slots of the line's set: "Set = line number modulo sets." Where the table has no room for the figures, its first slot is 0.
pub fn set_of(figures: Figures, line: u32) -> SetSlots
    ensures first { result.first ≡ cond (has_room figures) ((line % figures.sets) * figures.ways) 0 }
    ensures ways { result.ways ≡ figures.ways }
{
    let ways = figures.ways as usize;
    if !has_room(figures) {
        return SetSlots { first: 0, ways };
    }
    let first = ((line % figures.sets) * figures.ways) as usize;
    SetSlots { first, ways }
}

// ---- the tag lookup

// A valid record that names the line.
#[tactic(auto, unfolding(rules::specs::Lines::holds_line))]
fn holds_line(t: Tag, line: u32) -> bool
    ensures { result ≡ holds_line line t }
{
    t.valid && u32::from(t.line) == line
}

// The way that has the line, of the records of a set.
fn way_of(set: &[Tag], line: u32) -> Option<usize>
    ensures first { result ≡ position_from (holds_line line) 0 set.now }
    ensures inside { IfSome result (λ w. w < length set.now) }
{
    set.iter().position(|t| holds_line(*t, line))
}

// 02, card 4: the tag lookup answers "present with its way, requested, or absent". `set` is the line's, and `request` the miss register. Who asks
// only whether the line is present, and where, hands it a free one.
pub fn lookup(tags: [Tag; TAG_RECORDS], set: SetSlots, request: Request, line: u32) -> Lookup
    ensures { result ≡ cond (in_table set.first set.ways) (lookup_in request tags set.first set.ways line) Lookup.Miss }
{
    if !set.in_table() {
        return Lookup::Miss;
    }
    match way_of(set.records(&tags), line) {
        Some(way) => Lookup::Hit(way),
        None if request == Request::Line(line) => Lookup::Pending,
        None => Lookup::Miss,
    }
}

// The lookup says present.
pub fn is_hit(found: Lookup) -> bool
    ensures { result ≡ is_hit found }
{
    matches!(found, Lookup::Hit(_))
}

// Whether the line is present: some way of its set has it, whatever the register names.
pub fn is_present(tags: [Tag; TAG_RECORDS], figures: Figures, line: u32) -> bool
    ensures { result ≡ (has_room figures && present (tabled figures tags) line) }
{
    has_room(figures) && is_hit(lookup(tags, set_of(figures, line), Request::Free, line))
}

// ---- use

// A record of a set in which a slot is used: that of the slot, or another; `age` is what the slot's age was.
fn aged(t: Tag, used: bool, age: u8) -> Tag
    ensures { result ≡ cond used (with_age 0 t) (cond (ltb t.age age) (with_age (t.age + 1) t) t) }
{
    if used {
        return Tag { age: 0, ..t };
    }
    if t.age < age {
        return Tag {
            age: t.age + 1,
            ..t
        };
    }
    t
}

// "Use gives a line age 0 and adds 1 to each smaller age in its set": slot v is used.
pub fn use_slot(tags: [Tag; TAG_RECORDS], set: SetSlots, v: usize) -> [Tag; TAG_RECORDS]
    ensures { result ≡ cond (in_set set.first set.ways v) (each_from (aged_at set.first set.ways v (tag_at tags v).age) 0 tags) tags }
{
    if !set.has(v) {
        return tags;
    }
    let mut out = tags;
    for k in set.first..set.first + set.ways {
        out[k] = aged(out[k], k == v, tags[v].age);
    }
    out
}

// "each using its line if the line is present": the line is used, if it is present.
pub fn use_line(tags: [Tag; TAG_RECORDS], figures: Figures, line: u32) -> [Tag; TAG_RECORDS]
    ensures { result ≡ cond (has_room figures) (used_tags figures line tags) tags }
{
    if !has_room(figures) {
        return tags;
    }
    let set = set_of(figures, line);
    let Lookup::Hit(way) = lookup(tags, set, Request::Free, line) else {
        return tags;
    };
    use_slot(tags, set, set.first + way)
}

// ---- the victim

// The lowest invalid way, of the records of a set.
fn invalid_way(set: &[Tag]) -> Option<usize>
    ensures first { result ≡ position_from (λ t. not t.valid) 0 set.now }
    ensures inside { IfSome result (λ w. w < length set.now) }
{
    set.iter().position(|t| !t.valid)
}

// The way of greatest age, the lowest of several, of the records of a set.
fn oldest_way(set: &[Tag]) -> usize
    requires { 0 < length set.now }
    ensures greatest { result ≡ greatest_from (λ k. (tag_at set.now k).age) 0 0 (length set.now) }
    ensures inside { result < length set.now }
{
    let mut best = 0;
    for (way, t) in set.iter().enumerate() {
        if set[best].age < t.age {
            best = way;
        }
    }
    best
}

// "the lowest invalid way of the set, else the way of greatest age"
pub fn victim(tags: [Tag; TAG_RECORDS], set: SetSlots) -> usize
    ensures { result ≡ cond (in_table set.first set.ways && ltb 0 set.ways) (victim_in tags set.first set.ways) 0 }
{
    if !set.in_table() || set.ways == 0 {
        return 0;
    }
    let records = set.records(&tags);
    match invalid_way(records) {
        Some(way) => set.first + way,
        None => set.first + oldest_way(records),
    }
}

// ---- what a fill will do (02, card 7)

// How many ages a preview has: one for each way that a set may have.
pub const AGES: usize = MAX_WAYS as usize;

// "the way, the line evicted if any, which of its four words are to be written back and the ages of that set after it"
#[derive(Clone, Copy, PartialEq, Eq)]
pub struct Preview {
    // from 0
    pub way: u32,
    // the line's number
    pub evicted: Option<u16>,
    // that of word n weighs 2 to the power n
    pub words: u8,
    // way by way; 0 for a way that the set has not
    pub ages: [u8; AGES],
}

// What is answered where there is no such set.
const NO_PREVIEW: Preview = Preview {
    way: 0,
    evicted: None,
    words: 0,
    ages: [0; AGES],
};

// The ages of the records of a set.
fn ages_of(set: &[Tag]) -> [u8; AGES]
    ensures { result ≡ each_from (λ k x. cond (ltb k (length set.now)) (tag_at set.now k).age x) 0 (replicate AGES 0) }
{
    let mut ages = [0; AGES];
    for way in 0..set.len().min(AGES) {
        ages[way] = set[way].age;
    }
    ages
}

// What the fill of a line of this set will do: the victim's slot is filled, and so used.
pub fn preview_fill(tags: [Tag; TAG_RECORDS], set: SetSlots) -> Preview
    ensures { preview_given result ≡ cond (in_table set.first set.ways && ltb 0 set.ways) (preview_in tags set.first set.ways) no_preview }
{
    if !set.in_table() || set.ways == 0 {
        return NO_PREVIEW;
    }
    let v = victim(tags, set);
    let old = tags[v];
    let used = use_slot(tags, set, v);
    Preview {
        way: (v - set.first) as u32,
        evicted: old.valid.then_some(old.line),
        words: old.dirty,
        ages: ages_of(set.records(&used)),
    }
}

// ---- changes of records

// "the record becomes valid and clean, is used": line in slot v, whose age stays until it is used.
pub fn install(tags: [Tag; TAG_RECORDS], set: SetSlots, v: usize, line: u32) -> [Tag; TAG_RECORDS]
    ensures { result ≡ cond (in_set set.first set.ways v && ltb line 65536) (installed_in set.first set.ways v line tags) tags }
{
    if !set.has(v) {
        return tags;
    }
    let Ok(line) = u16::try_from(line) else {
        return tags;
    };
    let mut out = tags;
    out[v] = Tag {
        valid: true,
        dirty: 0,
        line,
        ..out[v]
    };
    use_slot(out, set, v)
}

// The dirty marks after store s was written to the line; `dirty` is the marks before. Write-back marks the word, write-through leaves
// them.
fn marks_after(policy: WritePolicy, s: StoreEntry, dirty: u8) -> u8
    ensures { result ≡ dirty_after policy s dirty }
{
    match policy {
        WritePolicy::WriteBack => dirty_words::with_mark(dirty, s.address),
        WritePolicy::WriteThrough => dirty,
    }
}

// 02, card 2: "Write-back draining marks the word written": the record of slot v, when store s was written to its line.
pub fn mark_written(
    tags: [Tag; TAG_RECORDS],
    policy: WritePolicy,
    s: StoreEntry,
    v: usize,
) -> [Tag; TAG_RECORDS]
    ensures { result ≡ set tags v (marked policy s (tag_at tags v)) }
{
    if TAG_RECORDS <= v {
        return tags;
    }
    let mut out = tags;
    out[v].dirty = marks_after(policy, s, out[v].dirty);
    out
}

// ".. marks it clean": the records of the first count slots. "Ages stay."
pub fn clean_all(tags: [Tag; TAG_RECORDS], count: usize) -> [Tag; TAG_RECORDS]
    ensures { result ≡ cond (leb count 256) (flushed_tags count tags) tags }
{
    let mut out = tags;
    if TAG_RECORDS < count {
        return out;
    }
    for k in 0..count {
        out[k].dirty = 0;
    }
    out
}

// 02, card 2: "flush answers the count of words": how many words are dirty.
pub fn dirty_count(tags: [Tag; TAG_RECORDS]) -> u32
    ensures { result ≡ total words_of tags }
{
    tags.iter().map(|t| dirty_words::count(t.dirty)).sum()
}

// "gives way w age w, invalidates every record": slot s × ways + w has age w; the other records are zero.
pub fn start_tags(figures: Figures) -> [Tag; TAG_RECORDS]
    ensures { result ≡ cond (has_room figures) (start_tags figures) (replicate 256 no_tag) }
{
    let mut out = [NO_TAG; TAG_RECORDS];
    if !has_room(figures) {
        return out;
    }
    let count = (figures.sets * figures.ways) as usize;
    let n = figures.ways as usize;
    for k in 0..count {
        out[k].age = (k % n) as u8;
    }
    out
}

// ---- loads of the load queue

// A committed waiting load whose line is absent.
#[tactic(auto, unfolding(rules::specs::Calls::wants_line, rules::specs::Shape::line_of))]
fn wants_line(tags: [Tag; TAG_RECORDS], figures: Figures, h: u32, l: LoadEntry) -> bool
    requires { has_room figures ≡ true }
    ensures { result ≡ wants_line (tabled figures tags) h l }
{
    l.number != 0
        && l.number <= h
        && l.waiting
        && !is_present(tags, figures, l.address / LINE_BYTES)
}

// "some committed waiting load's line is absent: .. the lowest such number": that load, or a free place. h is the committed number.
pub fn lowest_wanting(
    tags: [Tag; TAG_RECORDS],
    figures: Figures,
    h: u32,
    loads: [LoadEntry; LOAD_PLACES],
) -> LoadEntry
    ensures { result ≡ cond (has_room figures) (first (wants_line (tabled figures tags) h) no_load loads) no_load }
{
    if !has_room(figures) {
        return NO_LOAD;
    }
    let mut all = loads.iter().copied();
    all.find(|l| wants_line(tags, figures, h, *l))
        .unwrap_or(NO_LOAD)
}

// "Answered loads numbered k or less leave the list in number order, each using its line if the line is present": the uses. 02, card 6: a load
// whose bytes all came from held stores uses none.
pub fn use_answered(
    tags: [Tag; TAG_RECORDS],
    figures: Figures,
    loads: [LoadEntry; LOAD_PLACES],
    k: u32,
) -> [Tag; TAG_RECORDS]
    ensures { result ≡ cond (has_room figures) (use_each (filter (uses_line_by k) loads) (tabled figures tags)).tags tags }
{
    let mut out = tags;
    if !has_room(figures) {
        return out;
    }
    for load in loads {
        if load_queue::uses_line_by(load, k) {
            let used = use_line(out, figures, load.address / LINE_BYTES);
            out = used;
        }
    }
    out
}
