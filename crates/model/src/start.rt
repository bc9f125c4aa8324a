// Start.
ghost use Rattle.std.specs.Prelude.{◌≡◌};
ghost use Rattle.model.specs.State.{no_state};
ghost use Rattle.model.specs.Starts.{Starts};

use crate::{Started, State};
use rules::{
    CHECKPOINT_PLACES, Figures, LINE_LENGTH, LOAD_PLACES, NO_CHECKPOINT, NO_FIGURES, NO_LOAD,
    NO_STORE, NO_TAG, Refusal, Request, STORE_PLACES, TAG_RECORDS,
};

impl State {
    // The state that is all zero: a refused start hands it back, and every call on it is refused with 1.
    pub fn unstarted() -> State
        ensures { result ≡ no_state }
    {
        State {
            figures: NO_FIGURES,
            size: 0,
            last: 0,
            committed: 0,
            request: Request::Free,
            stores: [NO_STORE; STORE_PLACES],
            loads: [NO_LOAD; LOAD_PLACES],
            checkpoints: [NO_CHECKPOINT; CHECKPOINT_PLACES],
            tags: [NO_TAG; TAG_RECORDS],
        }
    }

    // "Start zeroes the cache bytes, gives way w age w, invalidates every record and leaves memory as found." A refused start leaves
    // the cache as it was.
    pub fn start(figures: Figures, cache: &mut [u8], memory: &[u8]) -> Started
        ensures { Starts figures cache.old memory.now result cache.new }
    {
        let size = memory.len();
        let none = State::unstarted();
        if !line_checks::figures_allowed(figures, size)
            || cache.len() != ((figures.sets * figures.ways) as usize) * LINE_LENGTH
        {
            return Started {
                answer: Err(Refusal::BadFigures),
                state: none,
            };
        }
        cache.fill(0);
        Started {
            answer: Ok(()),
            state: State {
                figures,
                size: size as u32,
                tags: records::start_tags(figures),
                ..none
            },
        }
    }
}
