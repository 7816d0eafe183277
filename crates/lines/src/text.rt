// Writers: each puts its bytes behind what stands in a text already.
ghost use Rattle.std.specs.Prelude.{◌≡◌, [], ◌∷◌, ◌++◌};
ghost use Rattle.fixed.specs.Filled.{with_items};
ghost use Rattle.lines.specs.Sheet.{decimal, kind_word, line_text, signed};

use crate::{Line, Text};

// A number and a byte behind it.
fn put_number(text: &mut Text, n: u64, behind: u8)
    ensures { text.new ≡ with_items text.old (decimal n ++ behind ∷ []) }
{
    let mut digits = [0u8; 20];
    let k = io::decimal(n, &mut digits);
    text.extend(&digits[..k]);
    text.push(behind);
}

// A signed number and a line feed.
fn put_signed(text: &mut Text, m: i64)
    ensures { text.new ≡ with_items text.old (signed m ++ 10 ∷ []) }
{
    if m < 0 {
        text.push(b'-');
    }
    put_number(text, m.unsigned_abs(), b'\n');
}

// A kind's word and a space; the kind is document 01's number.
fn put_kind(text: &mut Text, kind: u8)
    ensures { text.new ≡ with_items text.old (kind_word kind ++ 32 ∷ []) }
{
    match kind {
        1 => text.extend(b"own "),
        2 => text.extend(b"block "),
        3 => text.extend(b"pay "),
        _ => text.extend(b"back "),
    }
}

// A whole line.
pub(crate) fn put_line(text: &mut Text, line: Line)
    ensures { text.new ≡ with_items text.old (line_text line) }
{
    put_number(text, line.row as u64, b' ');
    put_kind(text, line.kind);
    put_number(text, line.answer as u64, b' ');
    put_number(text, line.available, b' ');
    put_number(text, line.total, b' ');
    put_number(text, line.minimum, b' ');
    put_signed(text, line.movement);
}
