// The boundary for C and Rust: functions that start an image of the state where the caller stores it, step it by one call or by a list of
// calls, and look at it; and the ways study, which has no image.
// An image that stands for no state is refused and never repaired. Calls and answers go by numbers.
#![tactic(auto)]

ghost use Rattle.std.specs.Prelude.{◌≡◌, length};
ghost use Rattle.study.specs.Study.{studied, scratch_after};
ghost use Rattle.nicoisetarn.specs.Steps.{left_of, started, stepped, line_shown};
ghost use Rattle.nicoisetarn.specs.Batch.{batch_left_of, ran};
ghost use Rattle.nicoisetarn.specs.Claims.{RefusedImagesKept, UnknownCallsKept, LooksKept, BatchesAreRuns};

use images::Image;
use study::StudyResult;

mod answers;
mod batch;
mod steps;

// ---- calls by numbers, each with its operands (specs/Answers.antt). Numbers and no enum: the C interface, over which any number may come.

// address, width
pub const CALL_LOAD: u32 = 0;
// address, width, value
pub const CALL_STORE: u32 = 1;
// number
pub const CALL_RETRY: u32 = 2;
// number
pub const CALL_COMMIT: u32 = 3;
// number
pub const CALL_ABORT: u32 = 4;

pub const CALL_IDLE: u32 = 5;

pub const CALL_REPLY: u32 = 6;

pub const CALL_FLUSH: u32 = 7;
// address
pub const CALL_SHOW_LINE: u32 = 8;
// name (02, card 3: set a mark)
pub const CALL_CHECKPOINT: u32 = 9;
// name (02, card 3: return to a mark)
pub const CALL_RESTORE: u32 = 10;

// 02, card 7: preview of a reply
pub const CALL_PREVIEW: u32 = 11;

// ---- answers by numbers: the C interface

// An answer: its kind and the papers' numbers, the others 0.
#[repr(C)]
#[derive(Clone, Copy)]
pub struct AnswerImage {
    pub kind: u32,
    pub first: u32,
    pub second: u32,
    pub third: u32,
    pub fourth: u32,
    pub fifth: u32,
}

// the refusal's number
pub const KIND_REFUSED: u32 = 0;
// the store's number
pub const KIND_STORED: u32 = 1;
// the load's number, the value
pub const KIND_VALUE: u32 = 2;
// the load's number: a byte is lacking, and its line is not requested
pub const KIND_WAITS: u32 = 3;
// the committed number in force
pub const KIND_COMMITTED: u32 = 4;
// the last number in force
pub const KIND_KEPT: u32 = 5;
// the drained store's number
pub const KIND_DRAINED: u32 = 6;
// the requested line's first address
pub const KIND_REQUEST: u32 = 7;
// idle had nothing to do
pub const KIND_IDLE: u32 = 8;
// the filled line's first address
pub const KIND_FILLED: u32 = 9;
// the words written
pub const KIND_FLUSHED: u32 = 10;
// the part's place in the cache, its length
pub const KIND_SHOWN: u32 = 11;
// an accepted start
pub const KIND_READY: u32 = 12;
// the number that a mark remembers
pub const KIND_CHECKPOINTED: u32 = 13;
// the load's number: a byte is lacking, and its line is requested
pub const KIND_WAITS_REQUESTED: u32 = 14;
// the way; 1 if a line is evicted, else 0; its number, else 0; its words to be written back (that of word n weighs 2 to the power n); the
// ages of the set after the reply, that of way w in byte w
pub const KIND_PREVIEWED: u32 = 15;
// A batch was made: the boundary's own, as the next. Kinds from 16 to 253 are free for answers to come.
pub const KIND_RAN: u32 = 254;
// There is no such call, or no such profile, or the lengths of a batch do not fit: the boundary's own, no answer of 01.
pub const KIND_NO_SUCH_CALL: u32 = 255;

// ---- lists of calls and of answers (specs/Batch.antt)

// How many numbers a call has in its list: its number, three operands, and two that no call has yet, which are 0.
pub const CALL_STRIDE: usize = 6;
// How many numbers an answer has in its list: all six.
pub const ANSWER_STRIDE: usize = 6;

// What a call hands back by value: its answer and the next image.
#[derive(Clone, Copy)]
pub struct ImageStep {
    pub answer: AnswerImage,
    pub next: Image,
}

// ---- the functions that `nicoisetarn_c` exports

// Start, with a profile by its number (`images` has the numbers): an accepted one stores the image of the started state, a refused one
// leaves image and cache as they were. Where there is no such profile the answer is that of an unknown call, and nothing is looked at.
// Its name has the length of the image and that of an answer, in bytes, so that an object file made for other lengths does not link; those of
// the next three functions have the length of an answer.
pub fn nicoisetarn_start_2048_24_in(
    image: &mut Image,
    sets: u32,
    ways: u32,
    profile: u32,
    cache: &mut [u8],
    memory: &[u8],
) -> AnswerImage
    ensures { left_of (record { answer = result; next = image.new }) cache.new memory.now ≡ started sets ways profile image.old cache.old memory.now }
{
    let r = steps::start_image(*image, sets, ways, profile, cache, memory);
    *image = r.next;
    r.answer
}

// Any other call, by its number, with up to three operands. For a number that no call has the answer says so, and nothing is looked at.
pub fn nicoisetarn_step_24_in(
    image: &mut Image,
    call: u32,
    x: u32,
    y: u32,
    z: u32,
    cache: &mut [u8],
    memory: &mut [u8],
) -> AnswerImage
    ensures { left_of (record { answer = result; next = image.new }) cache.new memory.new ≡ stepped call x y z image.old cache.old memory.old }
{
    let r = steps::step_image(*image, call, x, y, z, cache, memory);
    *image = r.next;
    r.answer
}

// A batch: the calls of a list, one after the other, and the list of their answers. The image is opened, tested and made once. Where the
// lengths do not fit the answer is that of an unknown call, and nothing is looked at.
pub fn nicoisetarn_run_24_in(
    image: &mut Image,
    calls: &[u32],
    answers: &mut [u32],
    cache: &mut [u8],
    memory: &mut [u8],
) -> AnswerImage
    ensures { batch_left_of (record { answer = result; next = image.new }) answers.new cache.new memory.new ≡ ran calls.now answers.old image.old cache.old memory.old }
{
    let r = batch::run_image(*image, calls, answers, cache, memory);
    *image = r.next;
    r.answer
}

// Show line on bytes that are only read: what call number 8 answers.
pub fn nicoisetarn_show_line_24_in(
    image: &Image,
    address: u32,
    cache: &[u8],
    memory: &[u8],
) -> AnswerImage
    ensures { result ≡ line_shown address image.now cache.now memory.now }
{
    steps::show_image(*image, address, cache, memory)
}

// The ways study (02, card 5): no image and no call on one. The four hit counts and the four rates, and a scratch that is zero afterwards;
// or the number of the refusal, zeros, and the scratch as it was.
pub fn nicoisetarn_study_ways(items: &[u32], sets: u32, scratch: &mut [u32]) -> StudyResult
    ensures { (result ≡ studied items.now sets (length scratch.old)) × (scratch.new ≡ scratch_after items.now sets scratch.old) }
{
    study::study(items, sets, scratch)
}

// ---- what is claimed of images: functions that do nothing and promise it

// A start or a call that is refused leaves the image, the cache and the memory as they were.
pub fn refused_images_kept()
    ensures { RefusedImagesKept }
{}

// "No such call" is answered exactly to the numbers that no call has, and to a start exactly where no profile has its number; and
// everything stays as it was.
pub fn unknown_calls_kept()
    ensures { UnknownCallsKept }
{}

// Show line and preview leave everything as it was; call number 8 and the look on shared bytes are one.
pub fn looks_kept()
    ensures { LooksKept }
{}

// A batch on an image that stands for a state is the rules' run; on one that is refused every call is, and where the lengths do not fit
// there is no such call: then everything stays as it was.
pub fn batches_are_runs()
    ensures { BatchesAreRuns }
{}
