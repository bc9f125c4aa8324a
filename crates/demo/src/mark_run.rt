// A branch that is marked: two loads and a store follow the mark, and the return to it leaves none of them.
use crate::{ADDRESS, report};
use model::{Answer, State};
use std::io;
use std::io::Print;

// The branch: a load of the stored byte, a store over it, and a load that sees that store.
fn branch_part(rt: &impl Print, s: State, cache: &[u8], memory: &[u8]) -> io::Result<State> {
    let a = s.load(cache, memory, ADDRESS, 1);
    report(
        rt,
        b"a load after the mark",
        a.answer == Answer::Value(3, 200),
    )?;
    let b = a.next.store(cache, memory, ADDRESS, 1, 7);
    report(rt, b"a store after the mark", b.answer == Answer::Stored(4))?;
    let c = b.next.load(cache, memory, ADDRESS, 1);
    report(
        rt,
        b"a load sees that store",
        c.answer == Answer::Value(5, 7),
    )?;
    Ok(c.next)
}

// Mark 6 is set where the next number is 3, and the return makes 2 the last number again.
pub(crate) fn mark_part(rt: &impl Print, s: State, cache: &[u8], memory: &[u8]) -> io::Result<()> {
    let a = s.checkpoint(cache, memory, 6);
    report(
        rt,
        b"mark 6 is set at 3",
        a.answer == Answer::Checkpointed(3),
    )?;
    let branched = branch_part(rt, a.next, cache, memory)?;
    let b = branched.restore(cache, memory, 6);
    report(rt, b"the return keeps up to 2", b.answer == Answer::Kept(2))?;
    let c = b.next.restore(cache, memory, 6);
    report(rt, b"mark 6 is forgotten", c.answer == Answer::Refused(21))?;
    let d = b.next.load(cache, memory, ADDRESS, 1);
    report(
        rt,
        b"the next load is number 3",
        d.answer == Answer::Value(3, 200),
    )?;
    Ok(())
}
