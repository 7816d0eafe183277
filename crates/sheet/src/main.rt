// Reads a feed on standard input and writes its sheet on standard output.
#![tactic(auto)]

ghost use Rattle.std.specs.Prelude.{◌≡◌, ◌≤◌, IfOk, suc, length};
ghost use Rattle.format.specs.Feed.{most_bytes};
ghost use Rattle.lines.specs.Lengths.{most_sheet};

use lines::MOST_SHEET;
use std::io;
use std::io::{Read, Write};

// One byte more than the longest feed, so that a longer one is seen to be too long.
const MOST_INPUT: usize = 65_537;

// Zeros to read into, and to write a sheet into. Each `ensures` ties the size to the definition's.
fn input() -> [u8; MOST_INPUT]
    ensures { suc most_bytes ≡ length result }
{
    [0; MOST_INPUT]
}

fn output() -> [u8; MOST_SHEET]
    ensures { most_sheet ≡ length result }
{
    [0; MOST_SHEET]
}

// Reads until the buffer is full or the input ends, and says how many bytes stand at its start. Each read is lent the whole
// rest of the buffer: of a socket's message all is lost that was not asked for. In each program: a library's function would
// be public, and no contract of one can say what an input gives.
fn read_full(input: &mut impl Read, buffer: &mut [u8]) -> io::Result<usize>
    ensures { IfOk result (λ n. n ≤ length buffer.new) }
{
    let mut done = 0;
    while done < buffer.len() {
        let n = input.read(&mut buffer[done..])?;
        if n == 0 {
            break;
        }
        done += n;
    }
    Ok(done)
}

fn main(rt: HostRuntime) -> io::Result<()> {
    let mut feed = input();
    let size = read_full(&mut rt.stdin(), &mut feed)?;
    let mut sheet = output();
    let written = lines::sheet_of(&feed[..size], &mut sheet);
    rt.stdout().write_all(&sheet[..written.length])
}
