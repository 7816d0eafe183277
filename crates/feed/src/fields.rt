// Fields: numbers of some bytes, little endian, each with a rule that it has to keep. Bytes and place are passed apart, since
// a reading hands on the next place as a number.
ghost use Rattle.std.specs.Prelude.{ℕ, Bool, ◌≡◌, ◌&&◌, ◌+◌, ◌^◌, ◌<◌, ◌≤◌, leb, ltb, get_or, T, IfOk, IfErr};
ghost use Rattle.rules.specs.Sizes.{fewest_inputs, most_inputs};
ghost use Rattle.format.specs.Fields.{any_number, field, follows, number_at};
ghost use Rattle.format.specs.Bodies.{address_width, count_width, index_width, input_index_follows, input_number_follows, number_follows, number_of, number_width, output_index_follows};
ghost use Rattle.feed.specs.Answers.{ReadsField, before, field_read, numbered};

use chain::{before_number, same_number};
use rules::{FEWEST_INPUTS, MOST_INPUTS, Number, Output, Reference};

// Widths, in bytes.
pub(crate) const COUNT_WIDTH: usize = 1;

pub(crate) const INDEX_WIDTH: usize = 2;

pub(crate) const ADDRESS_WIDTH: usize = 4;

pub(crate) const AMOUNT_WIDTH: usize = 8;

pub(crate) const NUMBER_WIDTH: usize = 8;

// Where a field is cut short or breaks its rule, or where the first byte left over stands.
#[derive(Clone, Copy, Debug, PartialEq, Eq)]
pub struct Fault {
    pub place: usize,
}

// A field's reading: a number with the next place, or a fault's place.
pub type Field = Result<(u64, usize), Fault>;

// The byte at a place; 0 behind the end.
fn byte_at(bytes: &[u8], place: usize) -> u8
    ensures { result ≡ get_or bytes.now place 0 }
{
    bytes.get(place).copied().unwrap_or(0)
}

// The number of some bytes at a place, from the highest byte down; a byte behind the end counts as 0.
#[tactic(auto, using(crate::specs::Numbers::from_room))]
pub(crate) fn number_at(bytes: &[u8], place: usize, width: usize) -> u64
    requires { (width ≤ 8) × (place + width < 2 ^ 64) }
    ensures { (result ≡ number_at width bytes.now place) × (result < 256 ^ width) }
{
    let mut value = 0;
    for i in (0..width).rev() {
        let low = u64::from(byte_at(bytes, place + i));
        value = value * 256 + low;
    }
    value
}

// A field of some width, with any number in it. Cut short, it faults at its start. It is read from the slice from its place
// on: by that slice's length the compiler knows its bytes to be there.
#[tactic(auto, using(crate::specs::Fields::field_cut, crate::specs::Fields::field_whole))]
pub(crate) fn number(bytes: &[u8], place: usize, width: usize) -> Field
    requires { width ≤ 8 }
    ensures { ReadsField width any_number bytes.now place result }
{
    if bytes.len() < place || bytes.len() - place < width {
        return Err(Fault { place });
    }
    let rest = &bytes[place..];
    Ok((number_at(rest, 0, width), place + width))
}

// A field with a rule: a number that breaks it faults at the field's start too.
fn ruled<F: Fn(u64) -> bool>(bytes: &[u8], place: usize, width: usize, rule: F) -> Field
    requires width { width ≤ 8 }
    requires rule { F.IsAlwaysCallable rule }
    ensures reading { (test : ℕ → Bool) → ((n : ℕ) (b : Bool) → F.post rule n b → b ≡ test n) → field_read result ≡ field width test bytes.now place }
    ensures kept { (test : ℕ → Bool) → ((n : ℕ) (b : Bool) → F.post rule n b → b ≡ test n) → IfOk result (λ x. T (test x.0)) }
    ensures fits { IfOk result (λ x. x.0 < 256 ^ width) }
    ensures start { IfErr result (λ f. f.place ≡ place) }
{
    let Ok((n, next)) = number(bytes, place, width) else {
        return Err(Fault { place });
    };
    if rule(n) {
        Ok((n, next))
    } else {
        Err(Fault { place })
    }
}

// A number up to a limit: a count, or an amount.
pub(crate) fn up_to(bytes: &[u8], place: usize, width: usize, most: u64) -> Field
    requires { width ≤ 8 }
    ensures { ReadsField width (λ n. leb n most) bytes.now place result }
{
    ruled(bytes, place, width, |n| n <= most)
}

// How many inputs: at least one.
pub(crate) fn input_count(bytes: &[u8], place: usize) -> Field
    ensures { ReadsField count_width (λ k. leb fewest_inputs k && leb k most_inputs) bytes.now place result }
{
    ruled(
        bytes,
        place,
        COUNT_WIDTH,
        |k| FEWEST_INPUTS as u64 <= k && k <= MOST_INPUTS as u64,
    )
}

// An own address: higher than the one before.
pub(crate) fn address(bytes: &[u8], place: usize, last: Option<u32>) -> Field
    ensures { ReadsField address_width (follows ltb (before last)) bytes.now place result }
{
    ruled(
        bytes,
        place,
        ADDRESS_WIDTH,
        |n| last.is_none_or(|last| u64::from(last) < n),
    )
}

// The transaction number that stands in a field.
#[tactic(auto, unfolding(format::specs::Bodies::number_of))]
pub(crate) fn number_of(serial: u64) -> Number
    ensures { result ≡ number_of serial }
{
    Number { serial }
}

// A transaction's number: higher than that of the transaction before.
pub(crate) fn transaction_number(bytes: &[u8], place: usize, last: Option<Number>) -> Field
    ensures { ReadsField number_width (follows number_follows (numbered (before last))) bytes.now place result }
{
    ruled(
        bytes,
        place,
        NUMBER_WIDTH,
        |n| last.is_none_or(|last| before_number(last, number_of(n))),
    )
}

// An input's number: not below that of the input before.
pub(crate) fn input_number(bytes: &[u8], place: usize, last: Option<Reference>) -> Field
    ensures { ReadsField number_width (follows input_number_follows (before last)) bytes.now place result }
{
    ruled(
        bytes,
        place,
        NUMBER_WIDTH,
        |n| last.is_none_or(|last| !before_number(number_of(n), last.number)),
    )
}

// An input's index: under the number of the input before, higher than its index.
pub(crate) fn input_index(bytes: &[u8], place: usize, n: u64, last: Option<Reference>) -> Field
    ensures { ReadsField index_width (follows (input_index_follows n) (before last)) bytes.now place result }
{
    ruled(
        bytes,
        place,
        INDEX_WIDTH,
        |i| last.is_none_or(|last| {
            !same_number(number_of(n), last.number) || u64::from(last.index) < i
        }),
    )
}

// An output's index: higher than that of the output before.
pub(crate) fn output_index(bytes: &[u8], place: usize, last: Option<Output>) -> Field
    ensures { ReadsField index_width (follows output_index_follows (before last)) bytes.now place result }
{
    ruled(
        bytes,
        place,
        INDEX_WIDTH,
        |i| last.is_none_or(|last| u64::from(last.index) < i),
    )
}
