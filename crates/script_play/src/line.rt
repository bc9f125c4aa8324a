// What a line of a script asks for: a start or a call on the run, at the front of the lent bytes. (`LINE_LENGTH` is of a cache line.)
ghost use Rattle.std.specs.Prelude.{◌≡◌, ◌+◌, ◌≤◌, length, Some, Option};
ghost use Rattle.std.specs.Option.{option_or};
ghost use Rattle.model.specs.declared.State.{State};
ghost use Rattle.std.proofs.Math.Option.{some};
ghost use Rattle.rules.specs.RefusalNumbers.{refusal_number};
ghost use Rattle.model.specs.State.{call_of};
ghost use Rattle.script.specs.Commands.{start};
ghost use Rattle.script.specs.Words.{refused_line};
ghost use Rattle.script_text.specs.Written.{Wrote, line_room};
ghost use Rattle.script_play.specs.Player.{largest_cache, largest_memory, cache_used, memory_used, run_of, run_formed, lent_of, run_at, RoomForLine, PlaysCommand, MakesCall};

use model::{Answer, Call, State, Step};
use rules::{Figures, LINE_LENGTH, MAX_MEMORY, MAX_SETS, MAX_WAYS, Refusal};
use script_text::writer;

// The run that a start begins, where it is accepted, and where the output ends.
#[derive(Clone, Copy)]
pub struct AfterLine {
    pub run: Option<State>,
    pub at: usize,
}

// How much of the lent cache a run uses.
pub(crate) fn cache_used(figures: Figures) -> usize
    ensures { (result ≡ cache_used figures) × (result ≤ largest_cache) }
{
    if MAX_SETS < figures.sets || MAX_WAYS < figures.ways {
        return 0;
    }
    ((figures.sets * figures.ways) as usize) * LINE_LENGTH
}

// How much of the lent memory a run uses.
pub(crate) fn memory_used(size: u32) -> usize
    ensures { (result ≡ memory_used size) × (result ≤ largest_memory) }
{
    let length = size as usize;
    if MAX_MEMORY < length {
        return 0;
    }
    length
}

// Whether the run, if there is one, is well formed: tested once for a chunk, since every line keeps it so. (That the lent bytes are long
// enough, `is_roomy` tests once for the three functions that ask it.)
pub(crate) fn run_formed(run: Option<State>, cache: &[u8], memory: &[u8]) -> bool
    requires { (largest_cache ≤ length cache.now) × (largest_memory ≤ length memory.now) }
    ensures { result ≡ run_formed (run_of run cache.now memory.now) }
{
    let Some(state) = run else { return true };
    let c = cache_used(state.figures);
    let m = memory_used(state.size);
    state.is_formed(&cache[..c], &memory[..m])
}

// A call on a run that is not known to be well formed: checks 1 and 10 are made.
pub(crate) fn make_call(state: State, call: Call, cache: &mut [u8], memory: &mut [u8]) -> Step
    requires { (largest_cache ≤ length cache.old) × (largest_memory ≤ length memory.old) }
    ensures { MakesCall (call_of call) (run_of (Some state) cache.old memory.old)
        (lent_of cache.old memory.old) result (lent_of cache.new memory.new) }
{
    let c = cache_used(state.figures);
    let m = memory_used(state.size);
    state.step(call, &mut cache[..c], &mut memory[..m])
}

// Writes the line that answers a refused line.
pub(crate) fn refuse_line(refusal: Refusal, out: &mut [u8], at: usize) -> usize
    requires { at + line_room ≤ length out.old }
    ensures { Wrote at (refused_line (refusal_number refusal)) out.old out.new result }
{
    writer::write_answer(out, at, Answer::Refused(refusal.number()))
}

// A start, with memory zeroed where it is accepted; a refused one leaves the run as it was.
pub(crate) fn play_start(
    figures: Figures,
    size: u32,
    cache: &mut [u8],
    memory: &mut [u8],
    out: &mut [u8],
    at: usize,
) -> AfterLine
    requires { RoomForLine cache.old memory.old out.old at }
    ensures { (run : Option State) → PlaysCommand (some (start figures size))
        (run_at run cache.old memory.old out.old at)
        (run_at (option_or result.run run) cache.new memory.new out.new result.at) }
{
    let c = cache_used(figures);
    let m = memory_used(size);
    let s = State::start(figures, &mut cache[..c], &memory[..m]);
    match s.answer {
        Ok(()) => {
            memory[..m].fill(0);
            AfterLine {
                run: Some(s.state),
                at: writer::write_ready(out, at),
            }
        }
        Err(why) => AfterLine {
            run: None,
            at: writer::write_answer(out, at, Answer::Refused(why.number())),
        },
    }
}
