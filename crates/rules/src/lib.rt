// The declared types of the load/store model: figures, a tag record, an entry of each queue, a checkpoint, the miss register, what the tag
// lookup answers, and the refusals; the numbers that every crate names, and the test of a set count. The rules over them stand in specs/, and what is
// claimed of the rules is promised here by functions that do nothing.
#![tactic(auto)]

ghost use Rattle.std.specs.Prelude.{◌≡◌};
ghost use Rattle.rules.specs.Shape.{sets_allowed};
ghost use Rattle.rules.specs.RefusalNumbers.{refusal_number};
ghost use Rattle.rules.specs.Claims.{RefusedCallsKeep, RefusalsExact, RefusalTableHolds, NumbersGiven, DroppedStretches, RestoredStretches, CheckpointsAreExact, KeptWellFormed, ValuesAreRight, WaitsAreExact, WaitStatusIsExact, LookupIsExact, ForwardingIsExact, PreviewIsExact, FlushesAreExact, FlatMemoryIsKept, WordsAreExact};

// The figures of a store that a start chooses. (02, card 1: "A start may choose this profile.")
#[derive(Clone, Copy, PartialEq, Eq)]
pub struct Figures {
    pub sets: u32,
    pub ways: u32,
    pub policy: WritePolicy,
}

// The write policy (02, card 1: the write profile): write-back with write-allocate, or write-through without it.
#[derive(Clone, Copy, PartialEq, Eq)]
pub enum WritePolicy {
    WriteBack,
    WriteThrough,
}

// A tag record: one way of one set. (Memory has at most 4,096 lines, and an age is at most 3. `valid` is no Option around the others: a
// call must take, and refuse with 10, an invalid record that is not "zero but for its age".)
#[derive(Clone, Copy, PartialEq, Eq)]
pub struct Tag {
    pub valid: bool,
    // the dirty marks of the line's four words (02, card 2): that of word n weighs 2 to the power n
    pub dirty: u8,
    pub line: u16,
    pub age: u8,
}

// An entry of the store queue (01: a held store). A free place is all zero. (Laid out as in C, like a checkpoint.)
#[repr(C)]
#[derive(Clone, Copy, PartialEq, Eq)]
pub struct StoreEntry {
    pub number: u32,
    pub address: u32,
    pub width: u32,
    pub value: u32,
}

// An entry of the load queue (01: a listed load). A free place is all zero. (Its two truth values are no flags of a value beside them.)
#[derive(Clone, Copy, PartialEq, Eq)]
pub struct LoadEntry {
    pub number: u32,
    pub address: u32,
    pub width: u32,
    pub waiting: bool,
    // it has its answer, and each byte came from a held store (02, card 6: "fed from held stores")
    pub forwarded: bool,
}

// A checkpoint (02, card 3: a branch mark): its name, the next operation number when it was set, and its rank by order of setting, from 1.
// A free place is all zero. (It is laid out as in C, without padding: the image of a state has it as it is.)
#[repr(C)]
#[derive(Clone, Copy, PartialEq, Eq)]
pub struct Checkpoint {
    pub name: u32,
    pub number: u32,
    pub rank: u32,
}

// The miss register (01: the request register): free, or the line that it names. (An enum of its own: 01 names the form.)
#[derive(Clone, Copy, PartialEq, Eq)]
pub enum Request {
    Free,
    Line(u32),
}

// What the tag lookup answers of a line (02, card 4: "present with its way, requested, or absent").
#[derive(Clone, Copy, PartialEq, Eq)]
pub enum Lookup {
    // present: the way of its set that has it, from 0
    Hit(usize),
    // requested: it is absent, and the miss register names it
    Pending,
    // absent, and the register does not name it
    Miss,
}

// ---- numbers (specs/Shape.antt has the same for the rules)

// "A line is 16 bytes." As a number of 32 bits, and as a length of lent bytes.
pub const LINE_BYTES: u32 = 16;

pub const LINE_LENGTH: usize = 16;

// 02, card 2: "four dirty marks, one per aligned 4-byte word". The bytes of a word, as a number of
// 32 bits and as a length; the words of a line; the marks with every word dirty.
pub const WORD_BYTES: u32 = 4;

pub const WORD_LENGTH: usize = 4;

pub const LINE_WORDS: usize = 4;

pub const ALL_MARKS: u8 = 15;

// "Sets: 1, 2, 4, 8, 16, 32 or 64. Ways: 1 to 4." "Memory: .. 16 to 65,536."
pub const MAX_SETS: u32 = 64;

pub const MAX_WAYS: u32 = 4;

pub const MIN_MEMORY: usize = 16;

pub const MAX_MEMORY: usize = 65536;

// The most bytes that a cache has: sets × ways × 16.
pub const MAX_CACHE: usize = 4096;

// "Tag records fill a fixed table of 256"
pub const TAG_RECORDS: usize = 256;

// "At most 16 held stores and 8 listed loads"
pub const STORE_PLACES: usize = 16;

pub const LOAD_PLACES: usize = 8;

// 02, card 3: "A mark has a name 1 to 8": the greatest name, and a place for each.
pub const CHECKPOINT_NAMES: u32 = 8;

pub const CHECKPOINT_PLACES: usize = 8;

// The last operation number of 32 bits.
pub const TOP_NUMBER: u32 = 4294967295;

// ---- refusals

// The refusals, each with the papers' number.
#[derive(Clone, Copy, PartialEq, Eq)]
pub enum Refusal {
    // sets, ways, memory or cache length is not allowed, or a lent length disagrees with the state
    BadFigures = 1,
    // width is not 1, 2 or 4
    BadWidth = 2,
    // address is not a multiple of width
    Misaligned = 3,
    // address + width exceeds memory length
    OutsideMemory = 4,
    // a stored value is 256 to the power width or more
    ValueTooLarge = 5,
    // script line malformed, or a call before an accepted G
    MalformedLine = 6,
    // state not well formed
    NotWellFormed = 10,
    // store: 16 are held
    StoreQueueFull = 11,
    // load: 8 are listed
    LoadQueueFull = 12,
    // load or store: last is 4294967295
    NumbersUsedUp = 13,
    // inquiry: no waiting load of that number
    NoWaitingLoad = 14,
    // commit: k is below h or above last
    BadCommit = 15,
    // abort: n is at most h or above last + 1
    BadAbort = 16,
    // reply: register free
    NothingRequested = 17,
    // flush: a committed store is held
    CommittedStoreHeld = 18,
    // 02, card 3: name outside 1 to 8
    BadName = 19,
    // set, name in use
    NameInUse = 20,
    // return, name not in use, or set when last is 4294967295
    CheckpointUnavailable = 21,
    // 02, card 5: list, item, set count or scratch outside the figures of the study
    BadStudy = 22,
}

impl Refusal {
    // The papers' number.
    pub fn number(self) -> u32
        ensures { result ≡ refusal_number self }
    {
        self as u32
    }
}

// ---- free places, unused records: "all zero" (as 01 has it; no place is an Option)

pub const NO_STORE: StoreEntry = StoreEntry {
    number: 0,
    address: 0,
    width: 0,
    value: 0,
};

pub const NO_LOAD: LoadEntry = LoadEntry {
    number: 0,
    address: 0,
    width: 0,
    waiting: false,
    forwarded: false,
};

pub const NO_CHECKPOINT: Checkpoint = Checkpoint {
    name: 0,
    number: 0,
    rank: 0,
};

pub const NO_TAG: Tag = Tag {
    valid: false,
    dirty: 0,
    line: 0,
    age: 0,
};

// Figures of no store.
pub const NO_FIGURES: Figures = Figures {
    sets: 0,
    ways: 0,
    policy: WritePolicy::WriteBack,
};

// ---- the figures

// The set count is one of 01's: "Sets: 1, 2, 4, 8, 16, 32 or 64."
pub fn sets_allowed(n: u32) -> bool
    ensures { result ≡ sets_allowed n }
{
    matches!(n, 1 | 2 | 4 | 8 | 16 | 32 | MAX_SETS)
}

// ---- the claims about the rules: functions that do nothing and promise them

// A refused call changes nothing: every call, every world.
pub fn refused_calls_keep()
    ensures { RefusedCallsKeep }
{}

// Each refusal is given exactly when its condition holds and no condition before it, in 01's order, does.
pub fn refusals_exact()
    ensures { RefusalsExact }
{}

// The table of refusals: states and calls that give each refusal, beside neighbours that do not, and which comes first.
pub fn refusal_table()
    ensures { RefusalTableHolds }
{}

// The next operation number is 1 after a start, rises by 1 with each accepted load or store, and becomes n with an accepted abort n
// or return to a mark that remembers n.
pub fn numbers_given()
    ensures { NumbersGiven }
{}

// Demand 3: a dropped stretch leaves no trace.
pub fn dropped_stretches()
    ensures { DroppedStretches }
{}

// 02, card 3: a stretch from setting a mark to the accepted return to it leaves no trace, when its set and return calls are struck too.
pub fn restored_stretches()
    ensures { RestoredStretches }
{}

// 02, card 3: a setting adds a mark with the next operation number and the next rank; a return does what the abort at its number does,
// and forgets it and all set later; an abort n forgets the marks above n; a commit those at or below h, and lowers the ranks of the
// others by their number. No other call touches a mark, and one function ranks them after each change.
pub fn checkpoints_exact()
    ensures { CheckpointsAreExact }
{}

// An accepted start leaves a well-formed state, and every call on a well-formed state leaves one; so no call of a run after a start
// is refused with 1 or 10.
pub fn kept_well_formed()
    ensures { KeptWellFormed }
{}

// Demand 2: each value that a load or an inquiry answers is what flat memory holds, at its time.
pub fn values_right()
    ensures { ValuesAreRight }
{}

// Demand 2: an accepted load or inquiry answers "waits" or "waits-requested" exactly if some byte of it is in no older held store and
// its line is absent.
pub fn waits_exact()
    ensures { WaitsAreExact }
{}

// 02, card 4: of the two words it is "waits-requested" exactly if the miss register names the load's line. Whichever it says, a load is
// listed as waiting, and an inquiry changes nothing; no other call says either.
pub fn wait_status_exact()
    ensures { WaitStatusIsExact }
{}

// 02, card 4: the tag lookup answers present with the way that has the line; where none has it, requested if the miss register names the
// line, else absent.
pub fn lookup_exact()
    ensures { LookupIsExact }
{}

// 02, card 6: an accepted load that answers a value is forwarded exactly if each of its bytes is in an older held store then, and no other
// call sets or changes that while the load is listed. An inquiry that answers a value reads the load's line, and uses it by 01's rule. A
// commit leaves lines and ages as if forwarded loads were not listed, and uses the lines of the other answered loads as 01 says.
pub fn forwarding_exact()
    ensures { ForwardingIsExact }
{}

// 02, card 7: a preview gives the way where the reply then puts its line, the line that is lost by it, the words of that line that it writes
// back, and the ages of the set after it. It is refused as the reply is, and changes nothing; no other call gives one.
pub fn preview_exact()
    ensures { PreviewIsExact }
{}

// Demand 2: after an accepted flush memory holds exactly the committed stores, and its count is the number of dirty words before it.
pub fn flush_exact()
    ensures { FlushesAreExact }
{}

// Demand 2: flat memory of a state changes by accepted stores, aborts and returns alone.
pub fn flat_memory_kept()
    ensures { FlatMemoryIsKept }
{}

// 02, card 2: a drain with write-back marks the word that it writes, and no call another one; a line comes without marks; eviction and
// flush write marked words only.
pub fn words_exact()
    ensures { WordsAreExact }
{}
