// The exports for C and Rust: the functions of `nicoisetarn` under C's names, with their contracts, in the static library `libnicoisetarn.a`.
#![tactic(auto)]

ghost use Rattle.std.specs.Prelude.{◌≡◌, length};
ghost use Rattle.study.specs.Study.{studied, scratch_after};
ghost use Rattle.nicoisetarn.specs.Steps.{left_of, started, stepped, line_shown};
ghost use Rattle.nicoisetarn.specs.Batch.{batch_left_of, ran};

use images::Image;
use nicoisetarn::AnswerImage;
use study::StudyResult;

// Start, with a profile by its number (`images` has the numbers): an accepted one stores the image of the started state, a refused one
// leaves image and cache as they were. Where there is no such profile the answer is that of an unknown call, and nothing is looked at.
// Its name has the length of the image and that of an answer, in bytes, so that an object file made for other lengths does not link; those of
// the next three functions have the length of an answer.
#[unsafe(no_mangle)]
pub extern "C" fn nicoisetarn_start_2048_24_in(
    image: &mut Image,
    sets: u32,
    ways: u32,
    profile: u32,
    cache: &mut [u8],
    memory: &[u8],
) -> AnswerImage
    ensures { left_of (record { answer = result; next = image.new }) cache.new memory.now ≡ started sets ways profile image.old cache.old memory.now }
{
    nicoisetarn::nicoisetarn_start_2048_24_in(image, sets, ways, profile, cache, memory)
}

// Any other call, by its number, with up to three operands. For a number that no call has the answer says so, and nothing is looked at.
#[unsafe(no_mangle)]
pub extern "C" fn nicoisetarn_step_24_in(
    image: &mut Image,
    call: u32,
    x: u32,
    y: u32,
    z: u32,
    cache: &mut [u8],
    memory: &mut [u8],
) -> AnswerImage
    ensures { left_of (record { answer = result; next = image.new }) cache.new memory.new ≡ stepped call x y z image.old cache.old memory.old }
{
    nicoisetarn::nicoisetarn_step_24_in(image, call, x, y, z, cache, memory)
}

// A batch: the calls of a list, one after the other, and the list of their answers. The image is opened, tested and made once. Where the
// lengths do not fit the answer is that of an unknown call, and nothing is looked at.
#[unsafe(no_mangle)]
pub extern "C" fn nicoisetarn_run_24_in(
    image: &mut Image,
    calls: &[u32],
    answers: &mut [u32],
    cache: &mut [u8],
    memory: &mut [u8],
) -> AnswerImage
    ensures { batch_left_of (record { answer = result; next = image.new }) answers.new cache.new memory.new ≡ ran calls.now answers.old image.old cache.old memory.old }
{
    nicoisetarn::nicoisetarn_run_24_in(image, calls, answers, cache, memory)
}

// Show line on bytes that are only read: what call number 8 answers.
#[unsafe(no_mangle)]
pub extern "C" fn nicoisetarn_show_line_24_in(
    image: &Image,
    address: u32,
    cache: &[u8],
    memory: &[u8],
) -> AnswerImage
    ensures { result ≡ line_shown address image.now cache.now memory.now }
{
    nicoisetarn::nicoisetarn_show_line_24_in(image, address, cache, memory)
}

// The ways study (02, card 5): no image and no call on one. The four hit counts and the four rates, and a scratch that is zero afterwards;
// or the number of the refusal, zeros, and the scratch as it was.
#[unsafe(no_mangle)]
pub extern "C" fn nicoisetarn_study_ways(
    items: &[u32],
    sets: u32,
    scratch: &mut [u32],
) -> StudyResult
    ensures { (result ≡ studied items.now sets (length scratch.old)) × (scratch.new ≡ scratch_after items.now sets scratch.old) }
{
    nicoisetarn::nicoisetarn_study_ways(items, sets, scratch)
}
