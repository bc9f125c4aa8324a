// A run of the model on 2 sets of 2 ways and 256 bytes of memory. Each check writes a line: its name, then `ok` or `wrong`. (The parts look
// alike, being calls and what they must answer: a table of them would hide how a call is made.)
#![tactic(auto)]

use model::{Answer, Call, State};
use records::Preview;
use rules::{Figures, WritePolicy};
use std::io;
use std::io::Print;

mod lent_run;
mod mark_run;
mod through_run;

// The address of the run: byte 2 of the line at 48, which is line 3, in set 1.
const ADDRESS: u32 = 50;

// Bytes of absent lines, both of set 0: line 4 and line 6.
const OLDER: u32 = 65;

const YOUNGER: u32 = 100;

// Writes the name of a check and whether it holds.
fn report(rt: &impl Print, name: &[u8], ok: bool) -> io::Result<()> {
    rt.write_all(name)?;
    if ok {
        rt.write_all(b": ok\n")
    } else {
        rt.write_all(b": wrong\n")
    }
}

// Byte i of memory becomes i.
fn fill(memory: &mut [u8]) {
    for (i, byte) in memory.iter_mut().enumerate() {
        *byte = (i % 256) as u8;
    }
}

// A load of an absent line waits; idle requests the line, and then the load says so.
fn load_part(rt: &impl Print, s: State, cache: &mut [u8], memory: &mut [u8]) -> io::Result<State> {
    let a = s.load(cache, memory, ADDRESS, 1);
    report(rt, b"load waits", a.answer == Answer::Waits(1))?;
    let b = a.next.commit(cache, memory, 1);
    report(rt, b"commit 1", b.answer == Answer::Committed(1))?;
    let c = b.next.idle(cache, memory);
    report(rt, b"idle requests", c.answer == Answer::Requested(48))?;
    let d = c.next.retry(cache, memory, 1);
    report(
        rt,
        b"retry finds the line requested",
        d.answer == Answer::WaitsRequested(1),
    )?;
    Ok(d.next)
}

// A preview tells what the reply will do; the reply fills the line, and a retry gives the value.
fn fill_part(rt: &impl Print, s: State, cache: &mut [u8], memory: &mut [u8]) -> io::Result<State> {
    let p = s.preview(cache, memory);
    report(
        rt,
        b"way 0 will be filled",
        matches!(
            p.answer,
            Answer::Previewed(Preview {
                way: 0,
                words: 0,
                ..
            })
        ),
    )?;
    let a = p.next.reply(cache, memory);
    report(rt, b"reply fills", a.answer == Answer::Filled(48))?;
    let b = a.next.retry(cache, memory, 1);
    report(
        rt,
        b"retry gives the value",
        b.answer == Answer::Value(1, 50),
    )?;
    Ok(b.next)
}

// A store is committed and drains into the cache.
fn store_part(rt: &impl Print, s: State, cache: &mut [u8], memory: &mut [u8]) -> io::Result<State> {
    let a = s.store(cache, memory, ADDRESS, 1, 200);
    report(rt, b"store", a.answer == Answer::Stored(2))?;
    let b = a.next.commit(cache, memory, 2);
    report(rt, b"commit 2", b.answer == Answer::Committed(2))?;
    let c = b.next.idle(cache, memory);
    report(rt, b"idle drains", c.answer == Answer::Drained(2))?;
    Ok(c.next)
}

// The line's bytes: the stored one and the others as in memory.
fn check_bytes(rt: &impl Print, line: &[u8]) -> io::Result<()> {
    report(rt, b"line length", line.len() == 16)?;
    let bytes = b"\x30\x31\xc8\x33\x34\x35\x36\x37\x38\x39\x3a\x3b\x3c\x3d\x3e\x3f";
    report(rt, b"line bytes", line == bytes.as_slice())?;
    Ok(())
}

// The line stands in way 0 of set 1: slot 2.
fn show_part(rt: &impl Print, s: State, cache: &mut [u8], memory: &mut [u8]) -> io::Result<State> {
    check_bytes(rt, s.show_line(cache, memory, ADDRESS))?;
    let a = s.step(Call::Show(ADDRESS), cache, memory);
    report(rt, b"line place", a.answer == Answer::Shown(32, 16))?;
    Ok(a.next)
}

// Memory has the stored byte after the flush alone.
fn flush_part(rt: &impl Print, s: State, cache: &mut [u8], memory: &mut [u8]) -> io::Result<State> {
    report(rt, b"memory before the flush", memory.get(50) == Some(&50))?;
    let a = s.flush(cache, memory);
    report(rt, b"flush", a.answer == Answer::Flushed(1))?;
    report(rt, b"memory after the flush", memory.get(50) == Some(&200))?;
    Ok(a.next)
}

// A refused load takes no number.
fn refusal_part(rt: &impl Print, s: State, cache: &mut [u8], memory: &mut [u8]) -> io::Result<()> {
    let a = s.load(cache, memory, ADDRESS, 3);
    report(rt, b"width 3 is refused", a.answer == Answer::Refused(2))?;
    report(rt, b"the last number stays", a.next.last == s.last)?;
    Ok(())
}

// The start, on a cache of other bytes.
fn start_part(rt: &impl Print, cache: &mut [u8], memory: &[u8]) -> io::Result<State> {
    let figures = Figures {
        sets: 2,
        ways: 2,
        policy: WritePolicy::WriteBack,
    };
    let r = State::start(figures, cache, memory);
    report(rt, b"start is ready", r.answer.is_ok())?;
    report(rt, b"the cache is zeroed", cache.get(63) == Some(&0))?;
    Ok(r.state)
}

// A load of another absent line is committed, and idle requests its line: what is in flight before the abort.
fn request_part(
    rt: &impl Print,
    s: State,
    cache: &mut [u8],
    memory: &mut [u8],
) -> io::Result<State> {
    let a = s.load(cache, memory, OLDER, 1);
    report(rt, b"an older load misses", a.answer == Answer::Waits(3))?;
    let b = a.next.commit(cache, memory, 3);
    report(rt, b"commit 3", b.answer == Answer::Committed(3))?;
    let c = b.next.idle(cache, memory);
    report(
        rt,
        b"its line is requested",
        c.answer == Answer::Requested(64),
    )?;
    Ok(c.next)
}

// A younger load misses, gets no request and is aborted.
fn abort_part(rt: &impl Print, s: State, cache: &mut [u8], memory: &mut [u8]) -> io::Result<State> {
    let a = s.load(cache, memory, YOUNGER, 1);
    report(rt, b"a younger load misses", a.answer == Answer::Waits(4))?;
    let b = a.next.idle(cache, memory);
    report(rt, b"no request for it", b.answer == Answer::Idled)?;
    let c = b.next.abort(cache, memory, 4);
    report(rt, b"it is aborted", c.answer == Answer::Kept(3))?;
    Ok(c.next)
}

// The older load gets its value, and number 4 goes to the next load.
fn later_loads(rt: &impl Print, s: State, cache: &[u8], memory: &[u8]) -> io::Result<State> {
    let a = s.retry(cache, memory, 3);
    report(
        rt,
        b"  retry gives the value",
        a.answer == Answer::Value(3, 65),
    )?;
    let b = a.next.load(cache, memory, ADDRESS, 1);
    report(
        rt,
        b"  the next load is number 4",
        b.answer == Answer::Value(4, 200),
    )?;
    Ok(b.next)
}

// The calls that follow: the reply fills the line of the older load.
fn later_part(rt: &impl Print, s: State, cache: &mut [u8], memory: &mut [u8]) -> io::Result<State> {
    let a = s.reply(cache, memory);
    report(rt, b"  reply fills", a.answer == Answer::Filled(64))?;
    later_loads(rt, a.next, cache, memory)
}

// What both runs left: nothing of the aborted load.
fn compare_states(rt: &impl Print, with: State, without: State) -> io::Result<()> {
    report(rt, b"the same last number", with.last == without.last)?;
    report(
        rt,
        b"the same committed number",
        with.committed == without.committed,
    )?;
    report(rt, b"the same lines and ages", with.tags == without.tags)?;
    Ok(())
}

// The same calls after the aborted load and without it, each on its own copy of cache and memory: nothing is left of that load.
fn trace_part(rt: &impl Print, s: State, cache: [u8; 64], memory: [u8; 256]) -> io::Result<()> {
    let mut cache_with = cache;
    let mut memory_with = memory;
    let aborted = abort_part(rt, s, &mut cache_with, &mut memory_with)?;
    rt.write_all(b"after the abort\n")?;
    let with = later_part(rt, aborted, &mut cache_with, &mut memory_with)?;
    let mut cache_without = cache;
    let mut memory_without = memory;
    rt.write_all(b"without that load\n")?;
    let without = later_part(rt, s, &mut cache_without, &mut memory_without)?;
    report(rt, b"the same cache", cache_with == cache_without)?;
    report(rt, b"the same memory", memory_with == memory_without)?;
    compare_states(rt, with, without)?;
    Ok(())
}

fn main(rt: HostRuntime) -> io::Result<()> {
    let mut cache = [7u8; 64];
    let mut memory = [0u8; 256];
    fill(&mut memory);
    let s = start_part(&rt, &mut cache, &memory)?;
    let loaded = load_part(&rt, s, &mut cache, &mut memory)?;
    let filled = fill_part(&rt, loaded, &mut cache, &mut memory)?;
    let drained = store_part(&rt, filled, &mut cache, &mut memory)?;
    let shown = show_part(&rt, drained, &mut cache, &mut memory)?;
    let flushed = flush_part(&rt, shown, &mut cache, &mut memory)?;
    refusal_part(&rt, flushed, &mut cache, &mut memory)?;
    mark_run::mark_part(&rt, flushed, &cache, &memory)?;
    let requested = request_part(&rt, flushed, &mut cache, &mut memory)?;
    trace_part(&rt, requested, cache, memory)?;
    lent_run::lent_part(&rt)?;
    through_run::through_part(&rt)?;
    Ok(())
}
