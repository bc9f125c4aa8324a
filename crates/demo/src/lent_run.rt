// A start and a call on a state that is lent to both.
use crate::report;
use model::{Answer, Call};
use rules::{Figures, Refusal, WritePolicy};
use std::io;
use std::io::Print;

// So many sets of two ways, write-back.
fn two_ways(sets: u32) -> Figures {
    Figures {
        sets,
        ways: 2,
        policy: WritePolicy::WriteBack,
    }
}

// After an accepted start the first store has number 1; after a refused one every call is refused with 1.
pub(crate) fn lent_part(rt: &impl Print) -> io::Result<()> {
    let mut cache = [7u8; 64];
    let mut memory = [0u8; 256];
    let r = lent::start_then_step(two_ways(2), Call::Store(0, 1, 9), &mut cache, &mut memory);
    report(rt, b"a lent state is started", r.started.is_ok())?;
    report(rt, b"and stepped", r.answer == Answer::Stored(1))?;
    let refused = lent::start_then_step(two_ways(3), Call::Store(0, 1, 9), &mut cache, &mut memory);
    report(
        rt,
        b"3 sets are refused",
        refused.started == Err(Refusal::BadFigures),
    )?;
    report(
        rt,
        b"and so is the call",
        refused.answer == Answer::Refused(1),
    )?;
    Ok(())
}
