// The sheet's text: from a feed's bytes to the sheet's bytes.
#![tactic(auto)]

ghost use Rattle.std.specs.Prelude.{◌≡◌};
ghost use Rattle.fixed.specs.Filled.{filled_of};
ghost use Rattle.lines.specs.Sheet.{sheet};
ghost use Rattle.lines.specs.Lengths.{most_sheet};
ghost use Rattle.lines.specs.Contract.{buffer_after, written_of};

use crate::events::put_events;
use fixed::Filled;

mod events;
mod text;

// Every sheet fits this: a head line of 48 bytes and at most 256 lines of at most 94.
pub const MOST_SHEET: usize = 24_112;

// A text that every sheet fits.
type Text = Filled<u8, MOST_SHEET>;

// A line of the sheet: the event's row from 1, its kind, the answer, the three balances after it, the movement. Kind and
// answer are document 01's numbers, as the definition `line_text` writes them.
#[derive(Clone, Copy, Debug, PartialEq, Eq)]
pub struct Line {
    pub row: usize,
    pub kind: u8,
    pub answer: u32,
    pub available: u64,
    pub total: u64,
    pub minimum: u64,
    pub movement: i64,
}

// What `sheet_of` hands back: 0 and how many bytes it wrote; 10 and 0 for a buffer that is too short (`written_of`).
#[derive(Clone, Copy, Debug, PartialEq, Eq)]
pub struct Written {
    pub answer: u32,
    pub length: usize,
}

// A feed's whole sheet. Every sheet fits.
fn sheet_text(feed: &[u8]) -> Text
    ensures { result ≡ filled_of most_sheet 0 (sheet feed.now) }
{
    let mut text = Text::none(0);
    if feed::rows::check(feed) {
        text.extend(b"event kind answer available total minimum moved\n");
        put_events(feed, &mut text);
    } else {
        text.extend(b"feed refused 1\n");
    }
    text
}

// Writes a feed's sheet at the start of a buffer; what stands behind it stays. A buffer that is too short stays as it was.
// `MOST_SHEET` bytes are enough for every feed.
pub fn sheet_of(feed: &[u8], out: &mut [u8]) -> Written
    ensures value { result ≡ written_of (sheet feed.now) out.old }
    ensures out_after { out.new ≡ buffer_after (sheet feed.now) out.old }
{
    let text = sheet_text(feed);
    let sheet = text.as_slice();
    let length = sheet.len();
    if out.len() < length {
        return Written {
            answer: 10,
            length: 0,
        };
    }
    out[..length].copy_from_slice(sheet);
    Written { answer: 0, length }
}
