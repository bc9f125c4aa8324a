// A chunk of the input played, line by line.
ghost use Rattle.std.specs.Prelude.{◌≡◌, ◌&&◌, List, [], ◌++◌, leb, ℕ, ◌*◌, ◌/◌, ◌≤◌, length};
ghost use Rattle.script.specs.Commands.{held_bytes, command_of};
ghost use Rattle.script.specs.Play.{new_player, at_end};
ghost use Rattle.script_text.specs.Reader.{asked_of};
ghost use Rattle.script_text.specs.Written.{Wrote, line_room, in_room};
ghost use Rattle.script_play.specs.Player.{largest_cache, largest_memory, held_of, player_of, player_at, after_chunk, Plays, Holds, PlaysChunk};

use crate::{HeldLine, Played, Player, line};
use model::{Answer, State};
use rules::{MAX_CACHE, MAX_MEMORY, Refusal};
use script_text::{Command, HELD_BYTES, LINE_FEED, LINE_ROOM, reader, writer};

impl HeldLine {
    // Holds more bytes behind those that are held, as far as there is room.
    fn hold(self, more: &[u8]) -> HeldLine
        requires { self.length ≤ held_bytes }
        ensures { Holds self more.now result }
    {
        let n = (HELD_BYTES - self.length).min(more.len());
        let end = self.length + n;
        let mut bytes = self.bytes;
        bytes[self.length..end].copy_from_slice(&more[..n]);
        HeldLine { bytes, length: end }
    }

    // What the line asks for that goes on with these bytes and ends there. A line of which nothing is held is read where it stands.
    fn command(self, rest: &[u8]) -> Option<Command>
        requires { self.length ≤ held_bytes }
        ensures { asked_of result ≡ command_of (held_of self ++ rest.now) }
    {
        if self.length == 0 {
            return reader::command(rest);
        }
        let HeldLine { bytes, length } = self.hold(rest);
        reader::command(&bytes[..length])
    }
}

// Plays an input line by line, and holds the line that is cut by its end. A line that does not change the run copies nothing of it. A
// call on a run that is known to be well formed is made here, and not in a function of its own, which would copy the state once more.
fn play_lines(
    player: Player,
    input: &[u8],
    cache: &mut [u8],
    memory: &mut [u8],
    out: &mut [u8],
) -> Played
    requires { (player.line.length ≤ held_bytes) × (largest_cache ≤ length cache.old) × (largest_memory ≤ length memory.old)
        × (line_room * length input.now ≤ length out.old) }
    ensures { (result.read ≡ length input.now) × Plays input.now
        (player_at player cache.old memory.old out.old 0)
        (after_chunk result cache.new memory.new out.new) }
{
    let formed = line::run_formed(player.run, cache, memory);
    // The run, as a flag and a state: of an `Option` each call copies the 2 KB once more (6 % of the time of a mixed script).
    let mut started = player.run.is_some();
    let mut state = player.run.unwrap_or(State::unstarted());
    let mut line = player.line;
    let mut at: usize = 0;
    for piece in input.split_inclusive(|b| *b == LINE_FEED) {
        let [rest @ .., LINE_FEED] = piece else {
            line = line.hold(piece);
            continue;
        };
        match line.command(rest) {
            Some(Command::Start(figures, size)) => {
                let r = line::play_start(figures, size, cache, memory, out, at);
                if let Some(begun) = r.run {
                    started = true;
                    state = begun;
                }
                at = r.at;
            }
            Some(Command::Make(call)) if started => {
                let r = if formed {
                    let c = line::cache_used(state.figures);
                    let m = line::memory_used(state.size);
                    state.step_formed(call, &mut cache[..c], &mut memory[..m])
                } else {
                    line::make_call(state, call, cache, memory)
                };
                state = r.next;
                at = writer::write_answer(out, at, r.answer);
            }
            _ => at = line::refuse_line(Refusal::MalformedLine, out, at),
        }
        line.length = 0;
    }
    Played {
        player: Player {
            run: started.then_some(state),
            line,
        },
        read: input.len(),
        written: at,
    }
}

// Whether the buffers are long enough.
fn is_roomy(input: usize, cache: usize, memory: usize, out: usize) -> bool
    ensures { result ≡ (leb largest_cache cache && (leb largest_memory memory && leb input (out / line_room))) }
{
    MAX_CACHE <= cache && MAX_MEMORY <= memory && input <= out / LINE_ROOM
}

impl Player {
    // A player before its first byte.
    pub fn new() -> Player
        ensures { (cache memory : List ℕ) → player_of result cache memory ≡ new_player }
    {
        Player {
            run: None,
            line: HeldLine {
                bytes: [0; HELD_BYTES],
                length: 0,
            },
        }
    }

    // The same player, whose length is that of the bytes that it holds.
    fn bounded(self) -> Player
        ensures { (result.line.length ≤ held_bytes) × ((cache memory : List ℕ) → player_of result cache memory ≡ player_of self cache memory) }
    {
        let line = HeldLine {
            length: self.line.length.min(HELD_BYTES),
            ..self.line
        };
        Player { line, ..self }
    }

    // Plays a chunk of the input, wherever it is cut, and writes what its lines print to the front of out. The run's cache and memory
    // stand at the front of the lent ones. Nothing is played where the cache is shorter than 4,096 bytes, the memory shorter than
    // 65,536, or out shorter than 32 bytes for each byte of input.
    pub fn play(self, input: &[u8], cache: &mut [u8], memory: &mut [u8], out: &mut [u8]) -> Played
        ensures { PlaysChunk input.now
            (player_at self cache.old memory.old out.old 0)
            (after_chunk result cache.new memory.new out.new) result.read }
    {
        if is_roomy(input.len(), cache.len(), memory.len(), out.len()) {
            return play_lines(self.bounded(), input, cache, memory, out);
        }
        Played {
            player: self,
            read: 0,
            written: 0,
        }
    }

    // At the end of the input: a last line without LF is refused. Nothing is written where there is less room than 32 bytes from
    // place at on.
    pub fn end(self, out: &mut [u8], at: usize) -> usize
        ensures { Wrote at (in_room at out.old (at_end (player_of self [] [])))
            out.old out.new result }
    {
        if self.line.length == 0 {
            return at;
        }
        writer::write_answer(out, at, Answer::Refused(Refusal::MalformedLine.number()))
    }
}
