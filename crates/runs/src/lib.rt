// What is claimed of runs of the code: every demand, said of what `State::start` and `State::step` answered, handed back and left in the
// lent bytes. Each claim is the contract of a function that does nothing; the first two functions make the calls, and promise of them what
// the claims take them to promise.
#![tactic(auto)]

ghost use Rattle.runs.specs.Machines.{AsPromised, StartPromised};
ghost use Rattle.runs.specs.Values.{ValuesOfCode, WaitsOfCode, WaitStatusOfCode, FlushesOfCode, FlatMemoryOfCode};
ghost use Rattle.runs.specs.Kept.{KeptOfCode, AdmittedOfCode};
ghost use Rattle.runs.specs.Refusals.{RefusalsOfCode, RefusedOfCode};
ghost use Rattle.runs.specs.Numbers.{NumbersOfCode};
ghost use Rattle.runs.specs.Dropped.{DroppedOfCode, RestoredOfCode};

use model::{Call, Started, State, Step};
use rules::Figures;

// ---- the calls that the claims are about

// A call of `step` is as the claims take it.
pub fn step_as_promised(state: State, call: Call, cache: &mut [u8], memory: &mut [u8]) -> Step
    ensures { AsPromised (record { state = state; cache = cache.old; memory = memory.old }) (record { call = call; gave = result; cache = cache.new; memory = memory.new }) }
{
    state.step(call, cache, memory)
}

// A call of `start` is as the claims take it.
pub fn start_as_promised(figures: Figures, cache: &mut [u8], memory: &[u8]) -> Started
    ensures { StartPromised (record { figures = figures; found = cache.old; memory = memory.now; gave = result; cache = cache.new }) }
{
    State::start(figures, cache, memory)
}

// ---- demand 2

// Each value that the code answers is what flat memory holds, at its time.
pub fn values_of_code()
    ensures { ValuesOfCode }
{}

// An accepted load or inquiry answers "waits" or "waits-requested" exactly if some byte of it is in no older held store and its line is
// absent.
pub fn waits_of_code()
    ensures { WaitsOfCode }
{}

// 02, card 4: of the two words it is "waits-requested" exactly if the miss register names the load's line; no other call says either.
pub fn wait_status_of_code()
    ensures { WaitStatusOfCode }
{}

// An accepted flush answers the number of dirty words before it and leaves in memory exactly the committed stores.
pub fn flushes_of_code()
    ensures { FlushesOfCode }
{}

// Flat memory changes by accepted stores, aborts and returns alone.
pub fn flat_memory_of_code()
    ensures { FlatMemoryOfCode }
{}

// ---- demand 3

// A dropped stretch leaves no trace.
pub fn dropped_of_code()
    ensures { DroppedOfCode }
{}

// 02, card 3: a stretch from setting a mark to the accepted return to it leaves no trace, when its set and return calls are struck too.
pub fn restored_of_code()
    ensures { RestoredOfCode }
{}

// ---- the state, refusals and numbers

// An accepted start leaves a well-formed state, and every call and every run on one leaves one.
pub fn kept_of_code()
    ensures { KeptOfCode }
{}

// No call of a run after an accepted start is refused with 1 or 10.
pub fn admitted_of_code()
    ensures { AdmittedOfCode }
{}

// Each refusal is given exactly when its condition holds and no condition before it, in 01's order, does.
pub fn refusals_of_code()
    ensures { RefusalsOfCode }
{}

// A refused call changes nothing.
pub fn refused_of_code()
    ensures { RefusedOfCode }
{}

// The next operation number is 1 after a start, rises by 1 with each accepted load or store, and becomes n with an accepted abort n
// or return to a mark that remembers n.
pub fn numbers_of_code()
    ensures { NumbersOfCode }
{}
