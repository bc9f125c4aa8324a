// A start, a call and a look on an image, by value.
ghost use Rattle.std.specs.Prelude.{◌≡◌, true};
ghost use Rattle.rules.specs.RefusalNumbers.{refusal_number};
ghost use Rattle.rules.specs.Runs.{refusal as refusal_of};
ghost use Rattle.model.specs.State.{call_of};
ghost use Rattle.images.specs.Images.{used_records, stands_for};
ghost use Rattle.nicoisetarn.specs.Answers.{imaged_answer};
ghost use Rattle.nicoisetarn.specs.Steps.{left_of, started_with, started, image_refusal, called, stepped, line_shown, changes_records, next_image};

use crate::answers::NO_SUCH_CALL;
use crate::{AnswerImage, ImageStep, KIND_READY, KIND_REFUSED, KIND_SHOWN, answers};
use images::Image;
use model::{Call, State};
use rules::{Figures, Refusal};

// ---- start

// A start with these figures.
fn start_figures(image: Image, figures: Figures, cache: &mut [u8], memory: &[u8]) -> ImageStep
    ensures { left_of result cache.new memory.now ≡ started_with figures image cache.old memory.now }
{
    let r = State::start(figures, cache, memory);
    match r.answer {
        Ok(()) => ImageStep {
            answer: answers::coded(KIND_READY, 0, 0),
            next: images::imaged(r.state),
        },
        Err(why) => ImageStep {
            answer: answers::coded(KIND_REFUSED, why.number(), 0),
            next: image,
        },
    }
}

// A start by numbers.
pub(crate) fn start_image(
    image: Image,
    sets: u32,
    ways: u32,
    profile: u32,
    cache: &mut [u8],
    memory: &[u8],
) -> ImageStep
    ensures { left_of result cache.new memory.now ≡ started sets ways profile image cache.old memory.now }
{
    if images::is_profile(profile) {
        let figures = images::figures_with(sets, ways, profile);
        return start_figures(image, figures, cache, memory);
    }
    ImageStep {
        answer: NO_SUCH_CALL,
        next: image,
    }
}

// ---- a call

// A call that may change records.
fn changes_records(call: Call) -> bool
    ensures { result ≡ changes_records (call_of call) }
{
    matches!(
        call,
        Call::Retry(_) | Call::Commit(_) | Call::Idle | Call::Reply | Call::Flush
    )
}

// The image after a call. A call that changes no record keeps the images of the records.
fn next_image(image: Image, call: Call, next: State) -> Image
    ensures { result ≡ next_image (call_of call) image next }
{
    if changes_records(call) {
        images::imaged(next)
    } else {
        images::imaged_with(image.tags, next)
    }
}

// A call on an image that stands for a state.
fn step_state(
    image: Image,
    used: usize,
    call: Call,
    cache: &mut [u8],
    memory: &mut [u8],
) -> ImageStep
    requires { (stands_for image ≡ true) × (used ≡ used_records image) }
    ensures { left_of result cache.new memory.new ≡ called (Some (call_of call)) image cache.old memory.old }
{
    let state = images::opened(image, used);
    let r = state.step(call, cache, memory);
    ImageStep {
        answer: answers::answer_image(r.answer),
        next: next_image(image, call, r.next),
    }
}

// Why a call on an image that stands for no state is refused.
pub(crate) fn image_refusal(image: Image, cache: &[u8], memory: &[u8]) -> Refusal
    ensures { refusal_number result ≡ image_refusal image cache.now memory.now }
{
    let figures = images::figures_with(image.sets, image.ways, image.profile);
    if line_checks::is_fit(figures, image.size, cache, memory) {
        Refusal::NotWellFormed
    } else {
        Refusal::BadFigures
    }
}

// A call that is refused; show line names no refusal.
pub(crate) fn refused_with(call: Call, refusal: Refusal) -> AnswerImage
    ensures { result ≡ imaged_answer (refusal_of (call_of call) (refusal_number refusal)) }
{
    match call {
        Call::Show(_) => answers::coded(KIND_SHOWN, 0, 0),
        _ => answers::coded(KIND_REFUSED, refusal.number(), 0),
    }
}

// A call by its number.
pub(crate) fn step_image(
    image: Image,
    call: u32,
    x: u32,
    y: u32,
    z: u32,
    cache: &mut [u8],
    memory: &mut [u8],
) -> ImageStep
    ensures { left_of result cache.new memory.new ≡ stepped call x y z image cache.old memory.old }
{
    let Some(call) = answers::call_numbered(call, x, y, z) else {
        return ImageStep {
            answer: NO_SUCH_CALL,
            next: image,
        };
    };
    let used = images::used_records(image);
    if images::stands(image, used) {
        return step_state(image, used, call, cache, memory);
    }
    ImageStep {
        answer: refused_with(call, image_refusal(image, cache, memory)),
        next: image,
    }
}

// ---- show line, on bytes that are only read

pub(crate) fn show_image(image: Image, address: u32, cache: &[u8], memory: &[u8]) -> AnswerImage
    ensures { result ≡ line_shown address image cache.now memory.now }
{
    let used = images::used_records(image);
    if !images::stands(image, used) {
        return answers::coded(KIND_SHOWN, 0, 0);
    }
    let r = images::opened(image, used).show(cache, memory, address);
    answers::answer_image(r.answer)
}
