// Images of the state: numbers in place of its truth values, its write policy and its miss register, so that any bytes are an image. A state is
// opened from its image, and an image made of a state; which images stand for a state.
#![tactic(auto)]

ghost use Rattle.std.specs.Prelude.{◌≡◌};
ghost use Rattle.images.specs.Images.{opened_profile, profile_of, is_profile, figures_with, used_records, opened_first, imaged_with, imaged_of, stands_first};
ghost use Rattle.images.specs.Claims.{ImagesStandForStates};

use model::State;
use rules::{
    CHECKPOINT_PLACES, Checkpoint, Figures, LOAD_PLACES, STORE_PLACES, StoreEntry, TAG_RECORDS,
    WritePolicy,
};

mod queues;
mod tags;

// ---- profiles by numbers: the C interface, over which any number may come

pub const PROFILE_WRITE_BACK: u32 = 0;

pub const PROFILE_WRITE_THROUGH: u32 = 1;

// ---- the image

// An entry of the load queue. No struct here has padding.
#[repr(C)]
#[derive(Clone, Copy)]
pub struct LoadImage {
    pub number: u32,
    pub address: u32,
    pub width: u32,
    // 0 or 1
    pub waiting: u16,
    // 0 or 1
    pub forwarded: u16,
}

// A tag record.
#[repr(C)]
#[derive(Clone, Copy, PartialEq, Eq)]
pub struct TagImage {
    // 0 or 1
    pub valid: u8,
    // the dirty marks, any number; 16 and more is not well formed
    pub dirty: u8,
    pub line: u16,
    pub age: u8,
    // 0
    pub unused: u8,
}

// The image of a state.
#[repr(C)]
#[derive(Clone, Copy)]
pub struct Image {
    // the figures, one after the other
    pub sets: u32,
    pub ways: u32,
    // the number of the profile
    pub profile: u32,
    // the memory length
    pub size: u32,
    // the last number given, and the committed number
    pub last: u32,
    pub committed: u32,
    // 0: the miss register is free; 1: it names a line
    pub requested: u32,
    // that line; 0 where the register is free
    pub line: u32,
    // the store queue, whose entries have nothing but numbers
    pub stores: [StoreEntry; STORE_PLACES],
    pub loads: [LoadImage; LOAD_PLACES],
    // the checkpoints, which have nothing but numbers either
    pub checkpoints: [Checkpoint; CHECKPOINT_PLACES],
    pub tags: [TagImage; TAG_RECORDS],
}

// ---- from an image to a state, and back: field by field, since the types differ (so with a load and a record)

// How many records need a look: those that the figures ask for, if all others are zero.
#[tactic(auto, unfolding(crate::specs::Images::used_records, crate::specs::Images::used_of))]
pub fn used_records(image: Image) -> usize
    ensures { result ≡ used_records image }
{
    let n = tags::figured(image.sets, image.ways);
    if tags::zero_from(image.tags, n) {
        n
    } else {
        TAG_RECORDS
    }
}

// The write policy of a profile's number; write-back for a number that no profile has.
fn open_profile(profile: u32) -> WritePolicy
    ensures { result ≡ opened_profile profile }
{
    match profile {
        PROFILE_WRITE_THROUGH => WritePolicy::WriteThrough,
        _ => WritePolicy::WriteBack,
    }
}

// Figures by their numbers; with write-back where no profile has the number.
pub fn figures_with(sets: u32, ways: u32, profile: u32) -> Figures
    ensures { result ≡ figures_with sets ways profile }
{
    Figures {
        sets,
        ways,
        policy: open_profile(profile),
    }
}

// A number that stands for a profile.
pub fn is_profile(profile: u32) -> bool
    ensures { result ≡ is_profile profile }
{
    profile <= PROFILE_WRITE_THROUGH
}

// The image stands for a state, as far as its first n records tell.
#[tactic(auto, unfolding(crate::specs::Images::stands_first, crate::specs::Images::stands_with))]
pub fn stands(image: Image, n: usize) -> bool
    ensures { result ≡ stands_first n image }
{
    is_profile(image.profile)
        && queues::request_stands(image.requested, image.line)
        && queues::loads_stand(image.loads)
        && tags::tags_stand(image.tags, n)
}

// The state of an image, with its first n records.
#[tactic(auto, unfolding(crate::specs::Images::opened_first, crate::specs::Images::opened_with))]
pub fn opened(image: Image, n: usize) -> State
    ensures { result ≡ opened_first n image }
{
    let stores = image.stores;
    let checkpoints = image.checkpoints;
    State {
        figures: figures_with(image.sets, image.ways, image.profile),
        size: image.size,
        last: image.last,
        committed: image.committed,
        request: queues::open_request(image.requested, image.line),
        stores,
        loads: queues::open_loads(image.loads),
        checkpoints,
        tags: tags::open_tags(image.tags, n),
    }
}

// ---- from a state to an image

// The number of a write policy's profile.
fn profile_of(policy: WritePolicy) -> u32
    ensures { result ≡ profile_of policy }
{
    match policy {
        WritePolicy::WriteBack => PROFILE_WRITE_BACK,
        WritePolicy::WriteThrough => PROFILE_WRITE_THROUGH,
    }
}

// The image of a state, with these images of its records.
#[tactic(auto, unfolding(crate::specs::Images::imaged_with))]
pub fn imaged_with(images: [TagImage; TAG_RECORDS], state: State) -> Image
    ensures { result ≡ imaged_with images state }
{
    let stores = state.stores;
    let checkpoints = state.checkpoints;
    Image {
        sets: state.figures.sets,
        ways: state.figures.ways,
        profile: profile_of(state.figures.policy),
        size: state.size,
        last: state.last,
        committed: state.committed,
        requested: queues::requested(state.request),
        line: queues::line_named(state.request),
        stores,
        loads: queues::image_loads(state.loads),
        checkpoints,
        tags: images,
    }
}

// The image of a state.
#[tactic(auto, unfolding(crate::specs::Images::imaged_of))]
pub fn imaged(state: State) -> Image
    ensures { result ≡ imaged_of state }
{
    imaged_with(tags::image_tags(state.tags), state)
}

// ---- what is claimed of images: a function that does nothing and promises it

// The image of a state stands for that state, and an image that stands for a state is the image of that state.
pub fn images_stand_for_states()
    ensures { ImagesStandForStates }
{}
