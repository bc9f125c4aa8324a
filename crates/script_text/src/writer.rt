// The line that answers, written into a lent buffer. (A buffer and a place in it go to each function, and the place behind comes back, as the
// public ones promise it: a cursor would be made of the two and taken apart again at each of them. That a line has room, they test once.)
ghost use Rattle.std.specs.Prelude.{◌≡◌, [], ◌∷◌, ◌+◌, ◌≤◌, ◌<◌, leb, length};
ghost use Rattle.script.specs.Commands.{space};
ghost use Rattle.script.specs.Words.{printed, said, value_word, answer_line, ready_line};
ghost use Rattle.model.specs.State.{answer_of};
ghost use Rattle.script_text.specs.Written.{Wrote, longest_word, spaced_room, line_room, in_room};

use crate::{LINE_FEED, LINE_ROOM};
use model::Answer;

// A byte at a place.
fn put_byte(out: &mut [u8], at: usize, b: u8) -> usize
    requires { at < length out.old }
    ensures { Wrote at (b ∷ []) out.old out.new result }
{
    out[at] = b;
    at + 1
}

// A word.
fn put_word(out: &mut [u8], at: usize, word: &[u8]) -> usize
    requires { at + length word.now ≤ length out.old }
    ensures { Wrote at word.now out.old out.new result }
{
    let end = at + word.len();
    out[at..end].copy_from_slice(word);
    end
}

// A number in decimal. (By hand: `Display` writes to a formatter, and one over a lent buffer would be longer than this.)
fn put_number(out: &mut [u8], at: usize, n: u32) -> usize
    requires { at + length (printed n) ≤ length out.old }
    ensures { Wrote at (printed n) out.old out.new result }
{
    if n < 10 {
        return put_byte(out, at, b'0' + (n as u8));
    }
    let to = put_number(out, at, n / 10);
    put_byte(out, to, b'0' + ((n % 10) as u8))
}

// A space and a number.
fn put_spaced(out: &mut [u8], at: usize, n: u32) -> usize
    requires { at + spaced_room ≤ length out.old }
    ensures { Wrote at (space ∷ printed n) out.old out.new result }
{
    let to = put_byte(out, at, b' ');
    put_number(out, to, n)
}

// A line of a word alone.
fn say_none(out: &mut [u8], at: usize, word: &[u8]) -> usize
    requires { (at + line_room ≤ length out.old) × (length word.now ≤ longest_word) }
    ensures { Wrote at (said word.now []) out.old out.new result }
{
    let to = put_word(out, at, word);
    put_byte(out, to, LINE_FEED)
}

// A line of a word and a number.
fn say_one(out: &mut [u8], at: usize, word: &[u8], n: u32) -> usize
    requires { (at + line_room ≤ length out.old) × (length word.now ≤ longest_word) }
    ensures { Wrote at (said word.now (n ∷ [])) out.old out.new result }
{
    let to = put_word(out, at, word);
    let end = put_spaced(out, to, n);
    put_byte(out, end, LINE_FEED)
}

// The line of a value: its load's number, then the value.
fn say_value(out: &mut [u8], at: usize, i: u32, v: u32) -> usize
    requires { at + line_room ≤ length out.old }
    ensures { Wrote at (said value_word (i ∷ v ∷ [])) out.old out.new result }
{
    let to = put_word(out, at, b"value");
    let next = put_spaced(out, to, i);
    let end = put_spaced(out, next, v);
    put_byte(out, end, LINE_FEED)
}

// The line that answers a call.
#[tactic(auto, using(crate::proofs::Writing::wrote_none), unfolding(script::specs::Words::answer_line))]
fn say(out: &mut [u8], at: usize, a: Answer) -> usize
    requires { at + line_room ≤ length out.old }
    ensures { Wrote at (answer_line (answer_of a [])) out.old out.new result }
{
    match a {
        Answer::Refused(k) => say_one(out, at, b"refused", k),
        Answer::Stored(i) => say_one(out, at, b"stored", i),
        Answer::Value(i, v) => say_value(out, at, i, v),
        Answer::Waits(i) => say_one(out, at, b"waits", i),
        Answer::WaitsRequested(i) => say_one(out, at, b"waits-requested", i),
        Answer::Committed(k) => say_one(out, at, b"committed", k),
        Answer::Kept(k) => say_one(out, at, b"kept", k),
        Answer::Drained(i) => say_one(out, at, b"drained", i),
        Answer::Requested(address) => say_one(out, at, b"request", address),
        Answer::Idled => say_none(out, at, b"idle"),
        Answer::Filled(address) => say_one(out, at, b"filled", address),
        Answer::Flushed(n) => say_one(out, at, b"flushed", n),
        Answer::Shown(_, _) | Answer::Checkpointed(_) | Answer::Previewed(_) => at,
    }
}

// Whether a line has room from a place on in so many bytes.
fn has_room(length: usize, at: usize) -> bool
    ensures { result ≡ leb (at + line_room) length }
{
    LINE_ROOM <= length.saturating_sub(at)
}

// Writes the line that answers a call at a place, and hands back the place behind it; writes nothing where there is less room than
// 32 bytes, which every line fits in.
pub fn write_answer(out: &mut [u8], at: usize, a: Answer) -> usize
    ensures { Wrote at (in_room at out.old (answer_line (answer_of a []))) out.old out.new result }
{
    if !has_room(out.len(), at) {
        return at;
    }
    say(out, at, a)
}

// The same for the line that answers an accepted start.
pub fn write_ready(out: &mut [u8], at: usize) -> usize
    ensures { Wrote at (in_room at out.old ready_line) out.old out.new result }
{
    if !has_room(out.len(), at) {
        return at;
    }
    say_none(out, at, b"ready")
}
