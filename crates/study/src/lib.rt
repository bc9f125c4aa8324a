// Choosing the ways (02, card 5): the hits of a list of line numbers in tags of 1, 2, 3 and 4 ways, found in one pass.
// The scratch keeps for each set its last four lines in order of use, the latest first: line + 1, or 0 where there is none.
// An item hits exactly with the ways above the place of its line there, its stack distance.
#![tactic(auto)]

ghost use Rattle.std.specs.Prelude.{◌≡◌, true, ◌≤◌, length, replicate};
ghost use Rattle.study.specs.Study.{most_ways, most_items, items_allowed, study_allowed, rate_of, counted, studied, scratch_after};
ghost use Rattle.study.specs.Scratch.{Touched, OneMoreFits, CountGiven, CountLeft, added_hits};
ghost use Rattle.study.specs.Claims.{Inclusion, HitsByDistance, RatesNearest};
ghost use Rattle.study.specs.Examples.{Examples};

use rules::Refusal;
use std::mem;

// "for 1, 2, 3 and 4 ways"
pub const STUDY_WAYS: usize = 4;

// "The list has at most 65,536 items, each below 4,096."
pub const MAX_ITEMS: usize = 65536;

pub const LINE_LIMIT: u32 = 4096;

// "The lent scratch has exactly 640 numbers of 32 bits". (The stacks take four for each set, 256 at most; the others are only cleared.)
pub const SCRATCH_SIZE: usize = 640;

// What a study gives: the number of the refusal, 0 where it is accepted; the hits and the rates per thousand with 1, 2, 3 and 4 ways,
// zeros where it is refused. (No `Result`, and two lists side by side: the C interface returns it by value.)
#[repr(C)]
#[derive(Clone, Copy)]
pub struct StudyResult {
    pub refusal: u32,
    pub hits: [u32; STUDY_WAYS],
    pub rates: [u32; STUDY_WAYS],
}

// ---- the figures

// Each item is below 4,096.
fn items_allowed(items: &[u32]) -> bool
    ensures { result ≡ items_allowed items.now }
{
    items.iter().all(|l| *l < LINE_LIMIT)
}

// The list, its items, the set count and a scratch of so many numbers are allowed.
fn study_allowed(items: &[u32], sets: u32, size: usize) -> bool
    ensures { result ≡ study_allowed items.now sets size }
{
    items.len() <= MAX_ITEMS
        && items_allowed(items)
        && rules::sets_allowed(sets)
        && size == SCRATCH_SIZE
}

// ---- the stacks

// An entry (line + 1) comes first of the four numbers of its set. The numbers before its place move down by one, or, where it is not there,
// all four do and the last leaves. The answer is its place before, or 4.
fn touch(stack: &mut [u32], entry: u32) -> usize
    requires { length stack.old ≡ most_ways }
    ensures { Touched entry result stack.old stack.new }
{
    let mut carried = entry;
    for (d, place) in stack.iter_mut().enumerate() {
        mem::swap(place, &mut carried);
        if carried == entry {
            return d;
        }
    }
    STUDY_WAYS
}

// ---- the counts

// An item at distance d is counted: it hits with more than d ways.
fn add_hits(hits: &mut [u32; STUDY_WAYS], d: usize)
    requires { OneMoreFits hits.old }
    ensures { hits.new ≡ added_hits hits.old d }
{
    for (w, count) in hits.iter_mut().enumerate() {
        *count += u32::from(d <= w);
    }
}

// The hits of the items with 1, 2, 3 and 4 ways. The scratch begins as zeros, and is left with the stacks of the items.
fn count_hits(items: &[u32], sets: u32, scratch: &mut [u32]) -> [u32; STUDY_WAYS]
    requires { CountGiven items.now sets scratch.old }
    ensures { CountLeft items.now sets result scratch.old scratch.new }
{
    let mut hits = [0; STUDY_WAYS];
    for l in items {
        let first = STUDY_WAYS * ((l % sets) as usize);
        let d = touch(&mut scratch[first..first + STUDY_WAYS], l + 1);
        add_hits(&mut hits, d);
    }
    hits
}

// ---- the rates

const PER_THOUSAND: u32 = 1000;

// "rates per thousand, rounded half up; an empty list gives zeros"
fn rate(hits: u32, n: u32) -> u32
    requires { (hits ≤ most_items) × (n ≤ most_items) }
    ensures { result ≡ rate_of hits n }
{
    if n == 0 {
        return 0;
    }
    (2 * (PER_THOUSAND * hits) + n) / (2 * n)
}

// ---- the study

// An accepted study.
fn study_accepted(items: &[u32], sets: u32, scratch: &mut [u32]) -> StudyResult
    requires { study_allowed items.now sets (length scratch.old) ≡ true }
    ensures { (result ≡ counted sets items.now) × (scratch.new ≡ replicate (length scratch.old) 0) }
{
    scratch.fill(0); // "empty at first whatever the scratch holds"
    let hits = count_hits(items, sets, scratch);
    scratch.fill(0); // it "is zero afterwards"
    let n = items.len() as u32;
    StudyResult {
        refusal: 0,
        hits,
        rates: hits.map(|h| rate(h, n)),
    }
}

// The four hit counts and the four rates, and a scratch that is zero afterwards; or 22, and the scratch as it was.
pub fn study(items: &[u32], sets: u32, scratch: &mut [u32]) -> StudyResult
    ensures { (result ≡ studied items.now sets (length scratch.old)) × (scratch.new ≡ scratch_after items.now sets scratch.old) }
{
    if study_allowed(items, sets, scratch.len()) {
        return study_accepted(items, sets, scratch);
    }
    StudyResult {
        refusal: Refusal::BadStudy.number(),
        hits: [0; STUDY_WAYS],
        rates: [0; STUDY_WAYS],
    }
}

// ---- what is claimed of the study: functions that do nothing and promise it

// Every item that hits with some ways also hits with more.
pub fn inclusion()
    ensures { Inclusion }
{}

// An item hits exactly with the ways above the stack distance of its line.
pub fn hits_by_distance()
    ensures { HitsByDistance }
{}

// A rate is the nearest whole number, of two the greater; of no items it is 0.
pub fn rates_nearest()
    ensures { RatesNearest }
{}

// Examples, computed.
pub fn examples()
    ensures { Examples }
{}
