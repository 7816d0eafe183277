// Shows what the sheet does not show, for tests and measurements. Standard input has a mode, a count in four bytes, little
// endian, and a feed; the modes:
//     i    the inside text: readings, counts and sets after each event, and what every call answers to a damaged wallet
//     m    the minimum after the last event, worked out so many times over, and its number of payments
//     s    the length of the feed's sheet, worked out so many times over
// Anything else is an unknown mode.
#![tactic(auto)]

ghost use Rattle.std.specs.Prelude.{◌≤◌, IfOk, length};

use inside::print_inside;
use std::io;
use std::io::Read;
use times::{print_length, print_minimum};

mod answers;
mod damage;
mod events;
mod inside;
mod times;

// The head, and one byte more than the longest feed, which tells a longer one.
const MOST_INPUT: usize = 65_542;

// What a mode asks for.
fn answer(rt: &impl Print, mode: u8, count: u32, feed: &[u8]) -> io::Result<()> {
    match mode {
        b's' => print_length(rt, feed, count),
        b'i' | b'm' if !feed::rows::check(feed) => println!(rt; "feed refused 1"),
        b'i' => print_inside(rt, feed),
        b'm' => print_minimum(rt, feed, count),
        _ => println!(rt; "unknown mode"),
    }
}

fn answer_input(rt: &impl Print, input: &[u8]) -> io::Result<()> {
    let [mode, a, b, c, d, feed @ ..] = input else {
        return println!(rt; "unknown mode");
    };
    answer(rt, *mode, u32::from_le_bytes([*a, *b, *c, *d]), feed)
}

// Reads until the buffer is full or the input ends, and says how many bytes stand at its start. Each read is lent the whole
// rest of the buffer: of a socket's message all is lost that was not asked for. In each program: a library's function would
// be public, and no contract of one can say what an input gives.
fn read_full(input: &mut impl Read, buffer: &mut [u8]) -> io::Result<usize>
    ensures { IfOk result (λ n. n ≤ length buffer.new) }
{
    let mut done = 0;
    while done < buffer.len() {
        let n = input.read(&mut buffer[done..])?;
        if n == 0 {
            break;
        }
        done += n;
    }
    Ok(done)
}

fn main(rt: HostRuntime) -> io::Result<()> {
    let mut buffer = [0u8; MOST_INPUT];
    let n = read_full(&mut rt.stdin(), &mut buffer)?;
    answer_input(&rt, &buffer[..n])
}
