// The tag records: their images and what these stand for.
ghost use Rattle.std.specs.Prelude.{◌≡◌, map, ◌≤◌, length, take, drop};
ghost use Rattle.lists.specs.Padded.{every};
ghost use Rattle.images.specs.Images.{opened_tag, imaged_tag, tag_stands, zero_image, figured, opened_tags};

use crate::TagImage;
use rules::{NO_TAG, TAG_RECORDS, Tag};
use std::array;

// an unused record, all zero
const FREE_TAG: TagImage = TagImage {
    valid: 0,
    dirty: 0,
    line: 0,
    age: 0,
    unused: 0,
};

// ---- from images

impl From<TagImage> for Tag {
    ghost from_gives = { λ i t. t ≡ opened_tag i };

    #[tactic(auto, unfolding(crate::specs::Images::opened_tag))]
    fn from(i: TagImage) -> Tag {
        Tag {
            valid: i.valid == 1,
            dirty: i.dirty,
            line: i.line,
            age: i.age,
        }
    }
}

// The records from n on are all zero; there are 256.
pub(crate) fn zero_from(tags: [TagImage; TAG_RECORDS], n: usize) -> bool
    requires { n ≤ 256 }
    ensures { (result ≡ every zero_image (drop n tags)) × (length tags ≡ 256) }
{
    tags[n..].iter().all(|t| *t == FREE_TAG)
}

// As many records as the figures ask for, or all.
pub(crate) fn figured(sets: u32, ways: u32) -> usize
    ensures { (result ≡ figured sets ways) × (result ≤ 256) }
{
    (u64::from(sets) * u64::from(ways)).min(256) as usize
}

// The first n records; the others are unused. (By `array::from_fn`, with the test of n inside, the proof did not close.)
pub(crate) fn open_tags(tags: [TagImage; TAG_RECORDS], n: usize) -> [Tag; TAG_RECORDS]
    ensures { result ≡ opened_tags n tags }
{
    let mut out = [NO_TAG; TAG_RECORDS];
    for i in 0..n.min(TAG_RECORDS) {
        out[i] = Tag::from(tags[i]);
    }
    out
}

impl TagImage {
    // Its flag is 0 or 1, and the unused byte is 0.
    #[tactic(auto, unfolding(crate::specs::Images::tag_stands))]
    fn stands(self) -> bool
        ensures { result ≡ tag_stands self }
    {
        self.valid <= 1 && self.unused == 0
    }
}

// The first n records stand for some.
pub(crate) fn tags_stand(tags: [TagImage; TAG_RECORDS], n: usize) -> bool
    ensures { result ≡ every tag_stands (take n tags) }
{
    tags[..n.min(TAG_RECORDS)].iter().all(|t| t.stands())
}

// ---- to images

impl From<Tag> for TagImage {
    ghost from_gives = { λ t i. i ≡ imaged_tag t };

    #[tactic(auto, unfolding(crate::specs::Images::imaged_tag))]
    fn from(t: Tag) -> TagImage {
        TagImage {
            valid: u8::from(t.valid),
            dirty: t.dirty,
            line: t.line,
            age: t.age,
            unused: 0,
        }
    }
}

// (`tags.map(..)` took 1.5 microseconds more in a call that takes 0.7 and more.)
pub(crate) fn image_tags(tags: [Tag; TAG_RECORDS]) -> [TagImage; TAG_RECORDS]
    ensures { result ≡ map imaged_tag tags }
{
    array::from_fn(|i| TagImage::from(tags[i]))
}
