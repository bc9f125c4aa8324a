// A start and a call on a lent state: "the lent state is updated where the bench stores it". Each calls the function by value, stores
// what that handed back where the state stood, and answers what it answered.
#![tactic(auto)]

ghost use Rattle.std.specs.Prelude.{◌≡◌};
ghost use Rattle.model.specs.State.{world_of, call_of, Does};
ghost use Rattle.lent.specs.Starts.{StartsIn, ran_of, start_then};

use model::{Answer, Call, State};
use rules::{Figures, Refusal};

// Start: an accepted one stores the started state; a refused one leaves the state, the cache and the memory as they were.
pub fn start_in(
    state: &mut State,
    figures: Figures,
    cache: &mut [u8],
    memory: &[u8],
) -> Result<(), Refusal>
    ensures { StartsIn figures (world_of state.old cache.old memory.now) (record { answer = result; state = state.new }) cache.new memory.now }
{
    let r = State::start(figures, cache, memory);
    r.answer?;
    *state = r.state;
    Ok(())
}

// Any other call: the next state is stored, which after a refusal is the same as before.
pub fn step_in(state: &mut State, call: Call, cache: &mut [u8], memory: &mut [u8]) -> Answer
    ensures { Does (call_of call) (world_of state.old cache.old memory.old) (record { answer = result; next = state.new }) cache.new memory.new }
{
    let r = state.step(call, cache, memory);
    *state = r.next;
    r.answer
}

// The answers of a start and of a call after it.
#[derive(Clone, Copy, PartialEq, Eq)]
pub struct StartAndStep {
    pub started: Result<(), Refusal>,
    pub answer: Answer,
}

// A start and then a call, on a state that stands here and is lent to both.
pub fn start_then_step(
    figures: Figures,
    call: Call,
    cache: &mut [u8],
    memory: &mut [u8],
) -> StartAndStep
    ensures { ran_of result cache.new memory.new ≡ start_then figures (call_of call) cache.old memory.old }
{
    let mut state = State::unstarted();
    let started = start_in(&mut state, figures, cache, memory);
    let answer = step_in(&mut state, call, cache, memory);
    StartAndStep { started, answer }
}
