// A batch: a list of calls by numbers, made one after the other on an image that is opened and tested once.
ghost use Rattle.std.specs.Prelude.{◌≡◌, true, ◌&&◌, ◌+◌, ◌*◌, ◌/◌, ◌%◌, ◌≤◌, eqb, length, drop, option_map};
ghost use Rattle.std.proofs.lemmas.List.Edits.{sets};
ghost use Rattle.rules.specs.RefusalNumbers.{refusal_number};
ghost use Rattle.model.specs.State.{call_of, world_of, Formed};
ghost use Rattle.nicoisetarn.specs.Batch.{call_stride, answer_stride, call_listed, calls_listed, numbers_of, batch_refusals, batch_fits, batch_left_of, ran, MakesCalls, listed_refusal};

use crate::answers::NO_SUCH_CALL;
use crate::{ANSWER_STRIDE, AnswerImage, CALL_STRIDE, ImageStep, KIND_RAN, answers, steps};
use images::Image;
use model::{Call, State};
use rules::Refusal;

// ---- the lists

// The call at a place of the list.
fn listed_call(calls: &[u32], at: usize) -> Option<Call>
    requires { at + call_stride ≤ length calls.now }
    ensures { option_map call_of result ≡ call_listed (drop at calls.now) }
{
    let &[call, x, y, z, 0, 0] = &calls[at..at + CALL_STRIDE] else {
        return None;
    };
    answers::call_numbered(call, x, y, z)
}

// The numbers of an answer, at a place of the answers.
fn put_answer(answers: &mut [u32], at: usize, a: AnswerImage)
    requires { at + answer_stride ≤ length answers.old }
    ensures { answers.new ≡ sets answers.old at (numbers_of a) }
{
    answers[at..at + ANSWER_STRIDE].copy_from_slice(&[
        a.kind, a.first, a.second, a.third, a.fourth, a.fifth,
    ]);
}

// ---- checks 1 and 10 refuse

// What a call of the list answers where they refuse.
fn refused_answer(call: Option<Call>, refusal: Refusal) -> AnswerImage
    ensures { result ≡ listed_refusal (refusal_number refusal) (option_map call_of call) }
{
    match call {
        Some(call) => steps::refused_with(call, refusal),
        None => NO_SUCH_CALL,
    }
}

// Answers n calls so.
fn refuse_calls(refusal: Refusal, n: usize, calls: &[u32], answers: &mut [u32])
    requires { (length calls.now ≡ call_stride * n) × (length answers.old ≡ answer_stride * n) }
    ensures { answers.new ≡ batch_refusals (refusal_number refusal) (calls_listed n calls.now) }
{
    for i in 0..n {
        let call = listed_call(calls, CALL_STRIDE * i);
        let a = refused_answer(call, refusal);
        put_answer(answers, ANSWER_STRIDE * i, a);
    }
}

// ---- checks 1 and 10 pass

// Makes n calls on a well-formed state, and hands back the state that they leave. It is well formed after each of them, so that
// checks 1 and 10 are not made again.
fn make_calls(
    state: State,
    n: usize,
    calls: &[u32],
    answers: &mut [u32],
    cache: &mut [u8],
    memory: &mut [u8],
) -> State
    requires { (length calls.now ≡ call_stride * n) × (length answers.old ≡ answer_stride * n) × Formed state cache.old memory.old }
    ensures { MakesCalls (calls_listed n calls.now) (world_of state cache.old memory.old)
        (world_of result cache.new memory.new) answers.new }
{
    let mut at = state;
    for i in 0..n {
        let a = match listed_call(calls, CALL_STRIDE * i) {
            Some(call) => {
                let r = at.step_formed(call, cache, memory);
                at = r.next;
                answers::answer_image(r.answer)
            }
            None => NO_SUCH_CALL,
        };
        put_answer(answers, ANSWER_STRIDE * i, a);
    }
    at
}

// ---- on an image

// A batch whose lengths fit.
fn run_fitting(
    image: Image,
    calls: &[u32],
    answers: &mut [u32],
    cache: &mut [u8],
    memory: &mut [u8],
) -> ImageStep
    requires { batch_fits calls.now answers.old ≡ true }
    ensures { batch_left_of result answers.new cache.new memory.new ≡ ran calls.now answers.old image cache.old memory.old }
{
    let n = calls.len() / CALL_STRIDE;
    let used = images::used_records(image);
    if images::stands(image, used) {
        let state = images::opened(image, used);
        if state.is_formed(cache, memory) {
            let end = make_calls(state, n, calls, answers, cache, memory);
            return ImageStep {
                answer: answers::coded(KIND_RAN, 0, 0),
                next: images::imaged(end),
            };
        }
    }
    let refusal = steps::image_refusal(image, cache, memory);
    refuse_calls(refusal, n, calls, answers);
    ImageStep {
        answer: answers::coded(KIND_RAN, 0, 0),
        next: image,
    }
}

// Whether lists of these lengths fit.
fn batch_fits(calls: usize, answers: usize) -> bool
    ensures { result ≡ (eqb (calls % call_stride) 0 && eqb answers (answer_stride * (calls / call_stride))) }
{
    calls % CALL_STRIDE == 0 && answers == ANSWER_STRIDE * (calls / CALL_STRIDE)
}

// A batch by its lists; where their lengths do not fit nothing is looked at.
pub(crate) fn run_image(
    image: Image,
    calls: &[u32],
    answers: &mut [u32],
    cache: &mut [u8],
    memory: &mut [u8],
) -> ImageStep
    ensures { batch_left_of result answers.new cache.new memory.new ≡ ran calls.now answers.old image cache.old memory.old }
{
    if !batch_fits(calls.len(), answers.len()) {
        return ImageStep {
            answer: NO_SUCH_CALL,
            next: image,
        };
    }
    run_fitting(image, calls, answers, cache, memory)
}
