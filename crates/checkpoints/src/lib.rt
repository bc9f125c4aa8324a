// The checkpoints (02, card 3: the branch marks in force), by value.
// A public function takes any list, well formed or not, and its answer is a definition of the rules.
#![tactic(auto)]

ghost use Rattle.std.specs.Prelude.{◌≡◌, ◌<◌};
ghost use Rattle.lists.specs.Padded.{any, every};
ghost use Rattle.rules.specs.Shape.{checkpoint_places};
ghost use Rattle.rules.specs.Checkpoints.{name_allowed, named, in_use, number_of, at_most, rank_at, ranked, add_checkpoint, forget_above, forget_up_to, forget_from};
ghost use Rattle.rules.specs.WellFormed.{checkpoints_formed};
ghost use Rattle.checkpoints.specs.Good.{zero_checkpoint, checkpoint_good};

use lists::{placed, without};
use rules::{CHECKPOINT_NAMES, CHECKPOINT_PLACES, Checkpoint, NO_CHECKPOINT};

// ---- the mark of a name

// "A mark has a name 1 to 8"
pub fn is_name(name: u32) -> bool
    ensures { result ≡ name_allowed name }
{
    1 <= name && name <= CHECKPOINT_NAMES
}

// A mark of that name.
fn is_named(c: Checkpoint, name: u32) -> bool
    ensures { result ≡ named name c }
{
    c.number != 0 && c.name == name
}

// Whether one of the marks has the name.
fn is_used(marks: &[Checkpoint], name: u32) -> bool
    ensures { result ≡ any (named name) marks.now }
{
    marks.iter().any(|c| is_named(*c, name))
}

// Whether the name is in use.
pub fn in_use(checkpoints: [Checkpoint; CHECKPOINT_PLACES], name: u32) -> bool
    ensures { result ≡ in_use name checkpoints }
{
    is_used(&checkpoints, name)
}

// The number that the mark of that name remembers; 0 if the name is not in use.
pub fn number_of(checkpoints: [Checkpoint; CHECKPOINT_PLACES], name: u32) -> u32
    ensures { result ≡ number_of name checkpoints }
{
    checkpoints
        .iter()
        .copied()
        .find(|c| is_named(*c, name))
        .unwrap_or(NO_CHECKPOINT)
        .number
}

// ---- ranks

// The mark at place i, counted from 0, has rank i + 1; a free place stays.
fn rank_at(c: Checkpoint, i: usize) -> Checkpoint
    requires { i < checkpoint_places }
    ensures { result ≡ rank_at i c }
{
    if c.number == 0 {
        return c;
    }
    Checkpoint {
        rank: (i as u32) + 1,
        ..c
    }
}

// The marks, numbered 1, 2 and so on in order of setting.
fn rank_all(checkpoints: [Checkpoint; CHECKPOINT_PLACES]) -> [Checkpoint; CHECKPOINT_PLACES]
    ensures { result ≡ ranked checkpoints }
{
    let mut next = checkpoints;
    for (i, c) in next.iter_mut().enumerate() {
        *c = rank_at(*c, i);
    }
    next
}

// ---- a mark is set

// A mark of that name is set at that number: it comes last.
pub fn add(
    checkpoints: [Checkpoint; CHECKPOINT_PLACES],
    name: u32,
    number: u32,
) -> [Checkpoint; CHECKPOINT_PLACES]
    ensures { result ≡ add_checkpoint name number checkpoints }
{
    let mark = Checkpoint {
        name,
        number,
        rank: 0,
    };
    let with_mark = placed(checkpoints, mark, |c| c.number == 0);
    rank_all(with_mark)
}

// ---- marks are forgotten

// "A plain abort n forgets marks above n" (In place: `map` of an array makes it three times.)
pub fn forget_above(
    checkpoints: [Checkpoint; CHECKPOINT_PLACES],
    n: u32,
) -> [Checkpoint; CHECKPOINT_PLACES]
    ensures { result ≡ forget_above n checkpoints }
{
    let mut next = checkpoints;
    for c in next.iter_mut() {
        *c = if n < c.number { NO_CHECKPOINT } else { *c };
    }
    next
}

// A mark at k or below.
fn is_at_most(c: Checkpoint, k: u32) -> bool
    ensures { result ≡ at_most k c }
{
    c.number != 0 && c.number <= k
}

// "a commit forgets marks at or below h": they leave the list, and the others move up.
pub fn forget_up_to(
    checkpoints: [Checkpoint; CHECKPOINT_PLACES],
    k: u32,
) -> [Checkpoint; CHECKPOINT_PLACES]
    ensures { result ≡ forget_up_to k checkpoints }
{
    let rest = without(checkpoints, NO_CHECKPOINT, |c| is_at_most(c, k));
    rank_all(rest)
}

// A return "forgets that mark and all set later".
pub fn forget_from(
    checkpoints: [Checkpoint; CHECKPOINT_PLACES],
    name: u32,
) -> [Checkpoint; CHECKPOINT_PLACES]
    ensures { result ≡ forget_from name checkpoints }
{
    let mut next = checkpoints;
    if let Some(i) = checkpoints.iter().position(|c| is_named(*c, name)) {
        next[i..].fill(NO_CHECKPOINT);
    }
    next
}

// ---- well formed

// A mark at place i, by the number m of the mark before it (0 where there is none), h and last: every clause but that names are distinct.
fn is_good(c: Checkpoint, i: usize, m: u32, committed: u32, last: u32) -> bool
    requires i_lt_checkpoint_places { i < checkpoint_places }
    requires number_nonzero { 0 < c.number }
    ensures { result ≡ checkpoint_good committed last m i c }
{
    is_name(c.name)
        && m <= c.number
        && committed < c.number
        && c.number - 1 <= last
        && c.rank == (i as u32) + 1
}

// The places are free, and all zero.
fn are_zero(places: &[Checkpoint]) -> bool
    ensures { result ≡ every zero_checkpoint places.now }
{
    places.iter().all(|c| *c == NO_CHECKPOINT)
}

// Whether the checkpoints are well formed, by h and last: one pass over the marks, then free places.
pub fn are_formed(checkpoints: [Checkpoint; CHECKPOINT_PLACES], committed: u32, last: u32) -> bool
    ensures { result ≡ checkpoints_formed committed last checkpoints }
{
    let mut m: u32 = 0;
    for (i, c) in checkpoints.iter().enumerate() {
        if c.number == 0 {
            return are_zero(&checkpoints[i..]);
        }
        if !is_good(*c, i, m, committed, last) {
            return false;
        }
        if is_used(&checkpoints[i + 1..], c.name) {
            return false;
        }
        m = c.number;
    }
    true
}
