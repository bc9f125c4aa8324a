// Calls and answers by numbers.
ghost use Rattle.std.specs.Prelude.{◌≡◌, [], option_map};
ghost use Rattle.records.specs.Records.{preview_given};
ghost use Rattle.model.specs.State.{answer_of, call_of};
ghost use Rattle.nicoisetarn.specs.Answers.{call_numbered, coded, coded_preview, imaged_answer, PartSmall};

use crate::{
    AnswerImage, CALL_ABORT, CALL_CHECKPOINT, CALL_COMMIT, CALL_FLUSH, CALL_IDLE, CALL_LOAD,
    CALL_PREVIEW, CALL_REPLY, CALL_RESTORE, CALL_RETRY, CALL_SHOW_LINE, CALL_STORE,
    KIND_CHECKPOINTED, KIND_COMMITTED, KIND_DRAINED, KIND_FILLED, KIND_FLUSHED, KIND_IDLE,
    KIND_KEPT, KIND_NO_SUCH_CALL, KIND_PREVIEWED, KIND_REFUSED, KIND_REQUEST, KIND_SHOWN,
    KIND_STORED, KIND_VALUE, KIND_WAITS, KIND_WAITS_REQUESTED,
};
use model::{Answer, Call};
use records::Preview;

// The call of a number, if there is one.
#[tactic(auto, unfolding(crate::specs::Answers::call_numbered))]
pub(crate) fn call_numbered(call: u32, x: u32, y: u32, z: u32) -> Option<Call>
    ensures { option_map call_of result ≡ call_numbered call x y z }
{
    match call {
        CALL_LOAD => Some(Call::Load(x, y)),
        CALL_STORE => Some(Call::Store(x, y, z)),
        CALL_RETRY => Some(Call::Retry(x)),
        CALL_COMMIT => Some(Call::Commit(x)),
        CALL_ABORT => Some(Call::Abort(x)),
        CALL_IDLE => Some(Call::Idle),
        CALL_REPLY => Some(Call::Reply),
        CALL_FLUSH => Some(Call::Flush),
        CALL_SHOW_LINE => Some(Call::Show(x)),
        CALL_CHECKPOINT => Some(Call::Checkpoint(x)),
        CALL_RESTORE => Some(Call::Restore(x)),
        CALL_PREVIEW => Some(Call::Preview),
        _ => None,
    }
}

// An answer with at most two numbers beside its kind.
pub(crate) fn coded(kind: u32, first: u32, second: u32) -> AnswerImage
    ensures { result ≡ coded kind first second }
{
    AnswerImage {
        kind,
        first,
        second,
        third: 0,
        fourth: 0,
        fifth: 0,
    }
}

// The answer to a number that no call has.
pub(crate) const NO_SUCH_CALL: AnswerImage = AnswerImage {
    kind: KIND_NO_SUCH_CALL,
    first: 0,
    second: 0,
    third: 0,
    fourth: 0,
    fifth: 0,
};

// A preview by its five numbers, for C.
fn coded_preview(p: Preview) -> AnswerImage
    ensures { result ≡ coded_preview (preview_given p) }
{
    AnswerImage {
        kind: KIND_PREVIEWED,
        first: p.way,
        second: u32::from(p.evicted.is_some()),
        third: u32::from(p.evicted.unwrap_or(0)),
        fourth: u32::from(p.words),
        fifth: u32::from_le_bytes(p.ages),
    }
}

// The image of an answer. A part of the cache goes by its place and its length, which have 32 bits. (No `From`: it asks that they are small.)
pub(crate) fn answer_image(a: Answer) -> AnswerImage
    requires { PartSmall (answer_of a []) }
    ensures { result ≡ imaged_answer (answer_of a []) }
{
    match a {
        Answer::Refused(k) => coded(KIND_REFUSED, k, 0),
        Answer::Stored(i) => coded(KIND_STORED, i, 0),
        Answer::Value(i, v) => coded(KIND_VALUE, i, v),
        Answer::Waits(i) => coded(KIND_WAITS, i, 0),
        Answer::WaitsRequested(i) => coded(KIND_WAITS_REQUESTED, i, 0),
        Answer::Committed(k) => coded(KIND_COMMITTED, k, 0),
        Answer::Kept(k) => coded(KIND_KEPT, k, 0),
        Answer::Drained(i) => coded(KIND_DRAINED, i, 0),
        Answer::Requested(at) => coded(KIND_REQUEST, at, 0),
        Answer::Idled => coded(KIND_IDLE, 0, 0),
        Answer::Filled(at) => coded(KIND_FILLED, at, 0),
        Answer::Flushed(k) => coded(KIND_FLUSHED, k, 0),
        Answer::Shown(start, n) => coded(KIND_SHOWN, start as u32, n as u32),
        Answer::Checkpointed(n) => coded(KIND_CHECKPOINTED, n, 0),
        Answer::Previewed(p) => coded_preview(p),
    }
}
