// A line of a script read, and the line that answers written.
// Every public function takes any bytes and numbers, and none stops at bad ones.
#![tactic(auto)]

use model::Call;
use rules::Figures;

pub mod reader;
pub mod writer;

// "Lines end with LF and have at most 64 bytes before it."
pub const LINE_FEED: u8 = b'\n';

pub const LONGEST_LINE: usize = 64;

// What is held of a line: one byte more than the longest has, which tells that it is longer.
pub const HELD_BYTES: usize = 65;

// Room for the longest line of output, with some to spare.
pub const LINE_ROOM: usize = 32;

// What a line asks for that is not malformed.
#[derive(Clone, Copy)]
pub enum Command {
    // G: the figures, and the memory length
    Start(Figures, u32),
    // any other letter
    Make(Call),
}
