// Plays a script: standard input to standard output. All that a script means is in `script_play`; this reads and writes.
#![tactic(auto)]

ghost use Rattle.std.specs.Prelude.{◌≤◌, length, IfOk};

use script_play::Player;
use std::io;
use std::io::{Print, Read};

// The most bytes of input that are read at once: they print at most 65,536 bytes, 32 for each.
const CHUNK_BYTES: usize = 2048;

// The largest cache.
const CACHE_BYTES: usize = 4096;

// The largest memory, and what a chunk prints at most.
const LARGE_BYTES: usize = 65536;

// Writes the first n bytes.
fn write_front(rt: &impl Print, out: &[u8], n: usize) -> io::Result<()> {
    if n <= out.len() {
        rt.write_all(&out[..n])?;
    }
    Ok(())
}

// Reads once and answers how many bytes came: none at the end of the input.
fn read_some(rt: &HostRuntime, input: &mut [u8]) -> io::Result<usize>
    ensures { IfOk result (λ n. n ≤ length input.new) }
{
    rt.stdin().read(input)
}

// Plays what comes and writes what it prints, until a read gives nothing. A proved loop ends, and nothing says that the input does: no
// run makes so many reads.
fn run(
    rt: &HostRuntime,
    input: &mut [u8],
    cache: &mut [u8],
    memory: &mut [u8],
    out: &mut [u8],
) -> io::Result<Player> {
    let mut player = Player::new();
    for _ in 0..u64::MAX {
        let n = read_some(rt, input)?;
        if n == 0 {
            break;
        }
        let r = player.play(&input[..n], cache, memory, out);
        write_front(rt, out, r.written)?;
        player = r.player;
    }
    Ok(player)
}

// Lends the player its buffers, and writes what the end of the input prints. A read or a write that fails ends the program.
fn main(rt: HostRuntime) -> io::Result<()> {
    let mut input = [0u8; CHUNK_BYTES];
    let mut cache = [0u8; CACHE_BYTES];
    let mut memory = [0u8; LARGE_BYTES];
    let mut out = [0u8; LARGE_BYTES];
    let p = run(&rt, &mut input, &mut cache, &mut memory, &mut out)?;
    let n = p.end(&mut out, 0);
    write_front(&rt, &out, n)
}
