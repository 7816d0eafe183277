// The wallet on the desk, the steps that it takes, and the wallets that are kept.
ghost use Rattle.std.specs.Prelude.{◌<◌};

use crate::build::{block_below, transaction_in};
use crate::checks::check;
use crate::hand::by_hand;
use crate::line::Line;
use std::io;
use wallet::{Step, Wallet};

// One own address more than a wallet takes.
const MOST_NAMED: usize = 33;

// How many wallets can be kept.
const PLACES: usize = 8;

// What came of the last step, the wallet before it, and the wallets that are kept.
#[derive(Clone, Copy)]
pub(crate) struct Desk {
    pub last: Step,
    pub before: Wallet,
    // an array: memory is fixed, and each place can be written at any time
    kept: [Wallet; PLACES],
}

// The place that a line names; the first for any that there is not.
fn place_in(line: Line) -> usize
    ensures { result < 8 }
{
    let place = line.number(0) as usize;
    if place < PLACES { place } else { 0 }
}

// A wallet with the own addresses that a line names; those behind the most are left out.
fn opened(line: Line) -> Step {
    let own = line
        .numbers::<MOST_NAMED>(0)
        .map(|n| u32::try_from(n).unwrap_or(0));
    Wallet::open(&own[..line.count().min(MOST_NAMED)])
}

// A line that begins with no word that there is.
fn print_strange(rt: &impl Print, line: Line) -> io::Result<()> {
    print!(rt; "WRONG: ")?;
    rt.write_all(line.before(b'\n'))?;
    println!(rt;)
}

impl Desk {
    pub fn start() -> Desk {
        let last = Wallet::open(&[]);
        Desk {
            last,
            before: last.wallet,
            kept: [last.wallet; PLACES],
        }
    }

    // The wallet kept in the place that a line names.
    pub fn there(&self, line: Line) -> Wallet {
        self.kept[place_in(line)]
    }

    // A wallet that no step has touched.
    fn hold(&mut self, w: Wallet) {
        self.before = w;
        self.last = Step {
            wallet: w,
            answer: 0,
            movement: 0,
        };
    }

    fn take(&mut self, step: Step) {
        self.before = self.last.wallet;
        self.last = step;
    }

    // What a line says, by the letter that its word begins with.
    pub fn follow(&mut self, rt: &impl Print, line: Line) -> io::Result<()> {
        let w = self.last.wallet;
        match line.letter(0) {
            b'o' => self.take(opened(line)),
            b'b' => self.take(w.block(block_below(line))),
            b'p' => self.take(w.pay(transaction_in(line, 0))),
            b'r' => self.take(w.roll_back()),
            b'k' => self.kept[place_in(line)] = w,
            b'f' => self.hold(self.there(line)),
            b'w' => self.hold(by_hand(w, line)),
            b'?' => check(rt, line, self)?,
            b' ' | b'#' | b'\n' => {}
            _ => print_strange(rt, line)?,
        }
        Ok(())
    }
}
