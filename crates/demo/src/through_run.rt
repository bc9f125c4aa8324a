// A drain with write-through: a store to an absent line goes to memory at once. (The line would stand in slot 2, from place 32 on.)
use crate::{ADDRESS, report};
use model::{Answer, State};
use rules::{Figures, WritePolicy};
use std::io;
use std::io::Print;

// The start, on a cache of other bytes.
fn start_part(rt: &impl Print, cache: &mut [u8], memory: &[u8]) -> io::Result<State> {
    let figures = Figures {
        sets: 2,
        ways: 2,
        policy: WritePolicy::WriteThrough,
    };
    let r = State::start(figures, cache, memory);
    report(rt, b"start with write-through", r.answer.is_ok())?;
    Ok(r.state)
}

// A store, committed and drained.
fn drain_part(rt: &impl Print, s: State, cache: &mut [u8], memory: &mut [u8]) -> io::Result<()> {
    let a = s.store(cache, memory, ADDRESS, 1, 9);
    report(rt, b"store", a.answer == Answer::Stored(1))?;
    let b = a.next.commit(cache, memory, 1);
    report(rt, b"commit 1", b.answer == Answer::Committed(1))?;
    let c = b.next.idle(cache, memory);
    report(
        rt,
        b"idle drains it with no line present",
        c.answer == Answer::Drained(1),
    )?;
    Ok(())
}

pub(crate) fn through_part(rt: &impl Print) -> io::Result<()> {
    let mut cache = [7u8; 64];
    let mut memory = [0u8; 256];
    let s = start_part(rt, &mut cache, &memory)?;
    drain_part(rt, s, &mut cache, &mut memory)?;
    report(rt, b"memory has the byte", memory.get(50) == Some(&9))?;
    report(
        rt,
        b"its place in the cache has not",
        cache.get(34) == Some(&0),
    )?;
    Ok(())
}
