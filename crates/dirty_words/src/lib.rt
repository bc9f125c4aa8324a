// The dirty marks of a record, one for each aligned 4-byte word of its line: that of word n weighs 2 to the power n.
// A public function takes any marks and any numbers.
#![tactic(auto)]

ghost use Rattle.std.specs.Prelude.{◌≡◌, ◌&&◌, ◌≤◌, ltb};
ghost use Rattle.rules.specs.Lines.{word_of, is_dirty_word, with_mark, mark_count};

use rules::{ALL_MARKS, LINE_BYTES, LINE_WORDS, WORD_BYTES};

// Whether word n of the line is dirty.
pub fn is_dirty(marks: u8, n: usize) -> bool
    ensures { result ≡ (ltb n 4 && is_dirty_word marks n) }
{
    n < LINE_WORDS && (marks >> n) & 1 == 1
}

// The marks with that of the word in which the address stands.
pub fn with_mark(marks: u8, address: u32) -> u8
    ensures { result ≡ with_mark (word_of address) marks }
{
    let n = address % LINE_BYTES / WORD_BYTES;
    marks | 1 << n
}

// How many of the four marks are set.
pub fn count(marks: u8) -> u32
    ensures { (result ≡ mark_count marks) × (result ≤ 4) }
{
    (marks & ALL_MARKS).count_ones()
}
