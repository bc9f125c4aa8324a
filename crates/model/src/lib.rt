// The load/store unit: its state by value, and its calls as methods.
// Each call takes any state, buffers of any length and numbers of any size, refuses what is bad by the paper's number and then
// changes nothing. `answer_of` in specs/State.antt gives the paper's number and values for each answer.
// (A method of a call that leaves the lent bytes alone tests the state and then makes its step, in the same lines: one function for them would
// take the step as a closure, and promise of the closure what each method promises plainly. The others go through `step`. Cache and memory
// are two parameters of each, as 01 lends them.)
#![tactic(auto)]

use records::Preview;
use rules::{
    CHECKPOINT_PLACES, Checkpoint, Figures, LOAD_PLACES, LoadEntry, Refusal, Request, STORE_PLACES,
    StoreEntry, TAG_RECORDS, Tag,
};

mod abort;
mod checkpoint;
mod checks;
mod commit;
mod flush;
mod idle;
mod load;
mod preview;
mod read;
mod reply;
mod restore;
mod retry;
mod show_line;
mod start;
mod steps;
mod store;

// The state. A free place of a list and an unused record are all zero. (It has no invariant: every call takes any state. What holds of a
// well-formed one, with its cache and memory, is said by the words `Shaped`, `Sound` and `Formed` where a private function asks for it: a
// type of its own would hold the lent bytes too, and be opened and closed around each step.)
#[derive(Clone, Copy, PartialEq, Eq)]
pub struct State {
    // sets and ways
    pub figures: Figures,
    // the memory length
    pub size: u32,
    // the last number given
    pub last: u32,
    // the committed number, 01's h
    pub committed: u32,
    // the miss register (01: the request register)
    pub request: Request,
    // the store queue (01: the held stores)
    pub stores: [StoreEntry; STORE_PLACES],
    // the load queue (01: the list of loads)
    pub loads: [LoadEntry; LOAD_PLACES],
    // the checkpoints (02, card 3: the marks in force), in order of setting
    pub checkpoints: [Checkpoint; CHECKPOINT_PLACES],
    pub tags: [Tag; TAG_RECORDS],
}

// What a start hands back: ready or its refusal, and the state, which is all zero after a refusal. (The state is not in the Result: `Starts` says
// what it is after a refusal too.)
#[derive(Clone, Copy, PartialEq, Eq)]
pub struct Started {
    pub answer: Result<(), Refusal>,
    pub state: State,
}

// What a call answers, with the paper's numbers.
#[derive(Clone, Copy, PartialEq, Eq)]
pub enum Answer {
    // the refusal's number (`Refusal` of `rules` names each; a number here, since `write_answer` of `script_text` takes any answer)
    Refused(u32),
    // the operation number
    Stored(u32),
    // the operation number and the value
    Value(u32, u32),
    // the operation number: a byte is lacking, and its line is not requested
    Waits(u32),
    // the operation number: a byte is lacking, and its line is requested (02, card 4: "waits-requested")
    WaitsRequested(u32),
    // the committed number h now in force
    Committed(u32),
    // the last operation number now in force
    Kept(u32),
    // idle (a): the operation number of the store that was written
    Drained(u32),
    // idle (b) and (c): the first address of the requested line
    Requested(u32),
    // idle (d): nothing was done
    Idled,
    // the first address of the line that was filled
    Filled(u32),
    // how many words were written
    Flushed(u32),
    // the place and the length of the part of the cache: 16 bytes, or place 0 and length 0
    Shown(usize, usize),
    // the operation number that the mark remembers
    Checkpointed(u32),
    // what the reply will do (02, card 7)
    Previewed(Preview),
}

// What a call hands back: its answer and the next state.
#[derive(Clone, Copy, PartialEq, Eq)]
pub struct Step {
    pub answer: Answer,
    pub next: State,
}

// The calls of a run. (An enum and no closures: a call is data, which a line of a script or a number from C names.)
#[derive(Clone, Copy, PartialEq, Eq)]
pub enum Call {
    // address, width
    Load(u32, u32),
    // address, width, value
    Store(u32, u32, u32),
    // 01: inquiry, about an operation number
    Retry(u32),
    // k, the number to commit up to
    Commit(u32),
    // n, the first number to drop
    Abort(u32),
    Idle,
    // the memory reply
    Reply,
    Flush,
    // 01: show line, by an address in the line
    Show(u32),
    // 02, card 3: set a mark of that name
    Checkpoint(u32),
    // return to it
    Restore(u32),
    // 02, card 7: preview of a reply
    Preview,
}
