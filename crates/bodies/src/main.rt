// Prints how bodies are read: for each of a list on standard input its kind, its length, the paper's answer and the place of
// the fault. An item of the list is a kind, a mark, a length in two bytes, little endian, and the body; with mark 1 every
// cut of the body is read, the empty one first, with mark 0 the whole body alone.
#![tactic(auto)]

ghost use Rattle.std.specs.Prelude.{◌≤◌, IfOk, length};

use feed::bodies::Body;
use std::io;
use std::io::Read;

// So many bytes of standard input are looked at, at most.
const MOST_BYTES: usize = 65_536;

// One body's line: the kind is document 01's number, the paper's answer is 1 for a fault and else 0, the place of none is 0.
fn line(rt: &impl Print, kind: u8, bytes: &[u8]) -> io::Result<()> {
    let (answer, place) = match feed::bodies::read_body(kind, bytes).body {
        Body::Fault(place) => (1, place),
        _ => (0, 0),
    };
    let length = bytes.len();
    println!(rt; "{kind} {length} {answer} {place}")
}

// The lines of every cut of a body, the whole body last.
fn cuts(rt: &impl Print, kind: u8, bytes: &[u8]) -> io::Result<()> {
    for end in 0..=bytes.len() {
        line(rt, kind, &bytes[..end])?;
    }
    Ok(())
}

// The lines of one item of the list.
fn item(rt: &impl Print, kind: u8, mark: u8, bytes: &[u8]) -> io::Result<()> {
    if mark == 1 {
        cuts(rt, kind, bytes)
    } else {
        line(rt, kind, bytes)
    }
}

// The lines of a list, item by item, as far as it goes.
fn items(rt: &impl Print, list: &[u8]) -> io::Result<()> {
    let mut rest = list;
    while let [kind, mark, low, high, behind @ ..] = rest {
        let length = usize::from(u16::from_le_bytes([*low, *high]));
        let Some((body, next)) = behind.split_at_checked(length) else {
            return Ok(());
        };
        item(rt, *kind, *mark, body)?;
        rest = next;
    }
    Ok(())
}

// Reads until the buffer is full or the input ends, and says how many bytes stand at its start. Each read is lent the whole
// rest of the buffer: of a socket's message all is lost that was not asked for. In each program: a library's function would
// be public, and no contract of one can say what an input gives.
fn read_full(input: &mut impl Read, buffer: &mut [u8]) -> io::Result<usize>
    ensures { IfOk result (λ n. n ≤ length buffer.new) }
{
    let mut done = 0;
    while done < buffer.len() {
        let n = input.read(&mut buffer[done..])?;
        if n == 0 {
            break;
        }
        done += n;
    }
    Ok(done)
}

fn main(rt: HostRuntime) -> io::Result<()> {
    let mut buffer = [0u8; MOST_BYTES];
    let n = read_full(&mut rt.stdin(), &mut buffer)?;
    items(&rt, &buffer[..n])
}
