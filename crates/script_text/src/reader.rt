// A line taken apart, byte by byte. A malformed line is `None`.
ghost use Rattle.std.specs.Prelude.{◌≡◌, ◌≤◌};
ghost use Rattle.script.specs.Commands.{first_digit, last_digit, command_of};
ghost use Rattle.script_text.specs.Reader.{asked_of, space_read, digit_read, scan_byte, no_number, scanned, named_by};

use crate::{Command, LONGEST_LINE};
use model::Call;
use rules::{Figures, WritePolicy};

// between two words
const SPACE: u8 = b' ';

const FIRST_DIGIT: u8 = b'0';

const LAST_DIGIT: u8 = b'9';

// the most numbers that a line has
const MOST_NUMBERS: u32 = 3;

// The numbers of a line so far. (Three by name, no list: a command names them.)
#[derive(Clone, Copy)]
pub struct Scan {
    // how many numbers are whole, and the last three of them
    count: u32,
    x: u32,
    y: u32,
    z: u32,
    // the number that is being read, once it has a digit
    value: Option<u32>,
}

// Nothing is read yet.
const NO_NUMBER: Scan = Scan {
    count: 0,
    x: 0,
    y: 0,
    z: 0,
    value: None,
};

// A space ends a number; there are at most three.
fn read_space(s: Scan) -> Option<Scan>
    ensures { result ≡ space_read s }
{
    let z = s.value?;
    if MOST_NUMBERS <= s.count {
        return None;
    }
    Some(Scan {
        count: s.count + 1,
        x: s.y,
        y: s.z,
        z,
        value: None,
    })
}

// A digit more; a number has 32 bits.
fn read_digit(s: Scan, b: u8) -> Option<Scan>
    requires { (first_digit ≤ b) × (b ≤ last_digit) }
    ensures { result ≡ digit_read b s }
{
    let tens = s.value.unwrap_or(0).checked_mul(10)?;
    let value = tens.checked_add(u32::from(b - FIRST_DIGIT))?;
    Some(Scan {
        value: Some(value),
        ..s
    })
}

// A byte more.
fn scan_byte(s: Scan, b: u8) -> Option<Scan>
    ensures { result ≡ scan_byte b s }
{
    match b {
        SPACE => read_space(s),
        FIRST_DIGIT..=LAST_DIGIT => read_digit(s, b),
        _ => None,
    }
}

// The numbers that stand in these bytes.
fn scan_all(bytes: &[u8]) -> Option<Scan>
    ensures { result ≡ scanned bytes.now no_number }
{
    bytes.iter().try_fold(NO_NUMBER, |s, b| scan_byte(s, *b))
}

// A letter with its numbers. The player keeps to write-back.
fn named(letter: u8, s: Scan) -> Option<Command>
    ensures { asked_of result ≡ named_by letter s }
{
    let call = match (s.count, letter) {
        (0, b'I') => Call::Idle,
        (0, b'R') => Call::Reply,
        (0, b'F') => Call::Flush,
        (1, b'A') => Call::Retry(s.z),
        (1, b'C') => Call::Commit(s.z),
        (1, b'X') => Call::Abort(s.z),
        (2, b'L') => Call::Load(s.y, s.z),
        (3, b'S') => Call::Store(s.x, s.y, s.z),
        (3, b'G') => {
            let figures = Figures {
                sets: s.x,
                ways: s.y,
                policy: WritePolicy::WriteBack,
            };
            return Some(Command::Start(figures, s.z));
        }
        _ => return None,
    };
    Some(Command::Make(call))
}

// What a line asks for, its bytes before the LF given; `None` where it is malformed.
pub fn command(line: &[u8]) -> Option<Command>
    ensures { asked_of result ≡ command_of line.now }
{
    if LONGEST_LINE < line.len() {
        return None;
    }
    match line {
        [letter] => named(*letter, NO_NUMBER),
        [letter, SPACE, numbers @ ..] => named(*letter, read_space(scan_all(numbers)?)?),
        _ => None,
    }
}
