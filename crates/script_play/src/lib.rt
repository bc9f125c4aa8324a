// Scripts played on the load/store unit: the player between two chunks of its input, and what a chunk does.
#![tactic(auto)]

ghost use Rattle.script_play.specs.Player.{ChunksPlayed};

use model::State;
use script_text::HELD_BYTES;

mod input;
mod line;

// A player: its run, once a start was accepted, and the line so far.
#[derive(Clone, Copy)]
pub struct Player {
    pub run: Option<State>,
    pub line: HeldLine,
}

// What is held of a line: all its bytes, or as many as tell that it is too long. (A buffer with a length beside it: there is no heap.)
#[derive(Clone, Copy)]
pub struct HeldLine {
    pub bytes: [u8; HELD_BYTES],
    pub length: usize,
}

// What playing a chunk of the input hands back.
#[derive(Clone, Copy)]
pub struct Played {
    pub player: Player,
    // how many bytes were played: all, or none where a buffer is too short
    pub read: usize,
    // how many bytes of output stand at the front of the buffer
    pub written: usize,
}

// Wherever an input is cut into chunks, playing them one after the other is playing it whole.
pub fn chunks_played()
    ensures { ChunksPlayed }
{}
