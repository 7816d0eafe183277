// The paper's readings, both sides of every size, refusals and wallets that are not sound, run through the steps and the
// queries. The cases stand on standard input, one line a step or a check, so that a further case needs no further proof. Each
// check writes a line: what was asked, what came, and `ok` or `WRONG`. Transactions are written as in a list of events:
//     own 10 11                              a wallet is opened
//     block                                  a block; its transactions are the indented lines that follow (build.rt)
//       100: 1.0 -> 0=10:60 1=11:40          number, inputs, arrow, outputs as INDEX=ADDRESS:AMOUNT
//     pay 200: 100.0 -> 0=99:25 ; 1 9        a payment; behind a semicolon, other counts of inputs and outputs
//     roll back
//     keep 3                                 the wallet is kept in a place
//     from 3                                 and goes on from there
//     with entry 0 100.0=10:60 1 0           the wallet is changed by hand, to a sound one or not (hand.rt)
//     ? done 0 -60 | reading 7: a payment    a check: what is wanted, and what its line says first (checks.rt)
//     # a comment
// The first letter of a word decides; the others are for the reader.
#![tactic(auto)]

ghost use Rattle.std.specs.Prelude.{◌≤◌, IfOk, length};

use desk::Desk;
use line::Lines;
use std::io;
use std::io::Read;

mod build;
mod calls;
mod checks;
mod desk;
mod hand;
mod line;

const MOST_INPUT: usize = 65_536;

// All lines, one after another, each on what the one before it left.
fn run(rt: &impl Print, text: &[u8]) -> io::Result<()> {
    let mut desk = Desk::start();
    for line in Lines(text) {
        desk.follow(rt, line)?;
    }
    Ok(())
}

// Reads until the buffer is full or the input ends, and says how many bytes stand at its start. Each read is lent the whole
// rest of the buffer: of a socket's message all is lost that was not asked for. In each program: a library's function would
// be public, and no contract of one can say what an input gives.
fn read_full(input: &mut impl Read, buffer: &mut [u8]) -> io::Result<usize>
    ensures { IfOk result (λ n. n ≤ length buffer.new) }
{
    let mut done = 0;
    while done < buffer.len() {
        let n = input.read(&mut buffer[done..])?;
        if n == 0 {
            break;
        }
        done += n;
    }
    Ok(done)
}

fn main(rt: HostRuntime) -> io::Result<()> {
    let mut buffer = [0u8; MOST_INPUT];
    let n = read_full(&mut rt.stdin(), &mut buffer)?;
    run(&rt, &buffer[..n])
}
