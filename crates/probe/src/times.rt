// The same work many times over, for measuring. No turn can be left out: what each works on hangs on the answer before it.
ghost use Rattle.std.specs.Prelude.{◌≡◌, length};
ghost use Rattle.lines.specs.Lengths.{most_sheet};

use crate::events::{last_wallet, unopened};
use lines::MOST_SHEET;
use minimum::Least;
use std::io;
use wallet::{Refusal, Wallet};

// The minimum so many times over. A sound wallet is never refused as not sound.
fn asked(sound: Wallet, count: u32) -> Least {
    let mut w = sound;
    let mut least = Least::default();
    for _ in 0..count {
        least = minimum::minimum(w);
        if least.answer == Refusal::NotSound.number() {
            w = unopened();
        }
    }
    least
}

// The minimum after the last event of a feed that was checked, and its payments.
pub(crate) fn print_minimum(rt: &impl Print, feed: &[u8], count: u32) -> io::Result<()> {
    let least = asked(last_wallet(feed), count);
    println!(rt; "{} {}", least.amount, least.payments)
}

// Zeros to write a sheet into. The `ensures` ties the size to the definition's.
fn blank() -> [u8; MOST_SHEET]
    ensures { most_sheet ≡ length result }
{
    [0; MOST_SHEET]
}

// The length of a feed's sheet, written so many times over. The next turn takes all of the feed, unless the buffer was too
// short, which it never is.
fn written(feed: &[u8], count: u32) -> usize {
    let mut out = blank();
    let mut part = feed;
    let mut length = 0;
    for _ in 0..count {
        let sheet = lines::sheet_of(part, &mut out);
        length = sheet.length;
        if sheet.answer == 10 {
            part = &[];
        }
    }
    length
}

pub(crate) fn print_length(rt: &impl Print, feed: &[u8], count: u32) -> io::Result<()> {
    let length = written(feed, count);
    println!(rt; "{length}")
}
