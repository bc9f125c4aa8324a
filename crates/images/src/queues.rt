// The miss register and the load queue: their images and what these stand for.
ghost use Rattle.std.specs.Prelude.{◌≡◌, map};
ghost use Rattle.lists.specs.Padded.{every};
ghost use Rattle.images.specs.Images.{opened_request, requested_of, line_named, request_stands, opened_load, imaged_load, load_stands};

use crate::LoadImage;
use rules::{LOAD_PLACES, LoadEntry, Request};

// ---- the miss register: in the image two numbers, a flag and the line, for the C interface

pub(crate) fn open_request(requested: u32, line: u32) -> Request
    ensures { result ≡ opened_request requested line }
{
    if requested == 1 {
        Request::Line(line)
    } else {
        Request::Free
    }
}

pub(crate) fn requested(r: Request) -> u32
    ensures { result ≡ requested_of r }
{
    match r {
        Request::Free => 0,
        Request::Line(_) => 1,
    }
}

pub(crate) fn line_named(r: Request) -> u32
    ensures { result ≡ line_named r }
{
    match r {
        Request::Free => 0,
        Request::Line(line) => line,
    }
}

pub(crate) fn request_stands(requested: u32, line: u32) -> bool
    ensures { result ≡ request_stands requested line }
{
    matches!((requested, line), (0, 0) | (1, _))
}

// ---- the load queue

impl From<LoadImage> for LoadEntry {
    ghost from_gives = { λ l e. e ≡ opened_load l };

    #[tactic(auto, unfolding(crate::specs::Images::opened_load))]
    fn from(l: LoadImage) -> LoadEntry {
        LoadEntry {
            number: l.number,
            address: l.address,
            width: l.width,
            waiting: l.waiting == 1,
            forwarded: l.forwarded == 1,
        }
    }
}

impl From<LoadEntry> for LoadImage {
    ghost from_gives = { λ e l. l ≡ imaged_load e };

    #[tactic(auto, unfolding(crate::specs::Images::imaged_load))]
    fn from(e: LoadEntry) -> LoadImage {
        LoadImage {
            number: e.number,
            address: e.address,
            width: e.width,
            waiting: u16::from(e.waiting),
            forwarded: u16::from(e.forwarded),
        }
    }
}

pub(crate) fn open_loads(loads: [LoadImage; LOAD_PLACES]) -> [LoadEntry; LOAD_PLACES]
    ensures { result ≡ map opened_load loads }
{
    loads.map(|l| LoadEntry::from(l))
}

pub(crate) fn image_loads(loads: [LoadEntry; LOAD_PLACES]) -> [LoadImage; LOAD_PLACES]
    ensures { result ≡ map imaged_load loads }
{
    loads.map(|e| LoadImage::from(e))
}

impl LoadImage {
    // Its flags are 0 or 1.
    #[tactic(auto, unfolding(crate::specs::Images::load_stands))]
    fn stands(self) -> bool
        ensures { result ≡ load_stands self }
    {
        self.waiting <= 1 && self.forwarded <= 1
    }
}

pub(crate) fn loads_stand(loads: [LoadImage; LOAD_PLACES]) -> bool
    ensures { result ≡ every load_stands loads }
{
    loads.iter().all(|l| l.stands())
}
