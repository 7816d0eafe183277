// The feed: head, table of rows, bodies. It is well formed or refused with 1 as a whole. Rows count from 1.
ghost use Rattle.std.specs.Prelude.{◌≡◌, ◌+◌, ◌*◌, ◌^◌, ◌<◌, ◌≤◌, eqb, drop, take};
ghost use Rattle.format.specs.Fields.{number_at};
ghost use Rattle.format.specs.Bodies.{body_answer, own_kind, read_body};
ghost use Rattle.format.specs.Feed.{body_in, count_in, head_bytes, is_row, kind_fits, kind_in, length_in, offset_in, row_body, row_bytes, row_count, row_kind, row_place, row_right, rows_right, well_formed};
ghost use Rattle.feed.specs.Rows.{row_found};

use crate::bodies::{BACK_KIND, BLOCK_KIND, OWN_KIND, read_own};
use crate::fields::number_at;

const MOST_BYTES: usize = 65_536;

const FEED_VERSION: u64 = 1;

const FEWEST_ROWS: usize = 1;

const MOST_ROWS: usize = 256;

const HEAD_BYTES: usize = 4;

const ROW_BYTES: usize = 8;

// Row: kind u8, zero u8, body length u16, body offset u32. A field of it, so many bytes behind the row's start; 0 for a row
// that is not in the bytes.
fn row_field(feed: &[u8], n: usize, skip: usize, width: usize) -> u64
    requires { (skip ≤ 4) × (width ≤ 4) }
    ensures { (result ≡ number_at width feed.now (row_place n + skip)) × (result < 256 ^ width) }
{
    let before = n.saturating_sub(1);
    if feed.len() / ROW_BYTES < before {
        return 0;
    }
    number_at(feed, HEAD_BYTES + ROW_BYTES * before + skip, width)
}

// What the table says of a row, right or wrong: for a caller that has checked the feed once and goes on by rows' numbers.
pub fn kind_in(feed: &[u8], n: usize) -> u8
    ensures { result ≡ kind_in feed.now n }
{
    row_field(feed, n, 0, 1) as u8
}

pub(crate) fn length_in(feed: &[u8], n: usize) -> usize
    ensures { (result ≡ length_in feed.now n) × (result < 2 ^ 16) }
{
    row_field(feed, n, 2, 2) as usize
}

pub(crate) fn offset_in(feed: &[u8], n: usize) -> usize
    ensures { result ≡ offset_in feed.now n }
{
    row_field(feed, n, 4, 4) as usize
}

// What the head says: how many rows.
pub fn count_in(feed: &[u8]) -> usize
    ensures { result ≡ count_in feed.now }
{
    number_at(feed, 2, 2) as usize
}

// So many bytes of the feed from a place on, as far as they are there.
fn part<'a>(feed: &'a [u8], from: usize, long: usize) -> &'a [u8]
    ensures { result.now ≡ take long (drop from feed.now) }
{
    let rest = &feed[from.min(feed.len())..];
    &rest[..long.min(rest.len())]
}

// The part of the feed that a row names, right or wrong.
pub fn body_in<'a>(feed: &'a [u8], n: usize) -> &'a [u8]
    ensures { result.now ≡ body_in feed.now n }
{
    part(feed, offset_in(feed, n), length_in(feed, n))
}

// The first row is the own list, and no other row is.
fn kind_fits(n: usize, kind: u8) -> bool
    ensures { result ≡ kind_fits n kind }
{
    if n == 1 {
        kind == OWN_KIND
    } else {
        (BLOCK_KIND..=BACK_KIND).contains(&kind)
    }
}

// A row is right when its body starts at a place: where the body before it ended.
#[tactic(auto, unfolding(format::specs::Feed::row_right))]
fn row_right(feed: &[u8], n: usize, place: usize) -> bool
    ensures { result ≡ row_right feed.now n place }
{
    kind_fits(n, kind_in(feed, n)) && row_field(feed, n, 1, 1) == 0 && offset_in(feed, n) == place
}

// All rows are right, the bodies without gaps behind the table, the last ending with the feed.
#[tactic(auto, using(crate::specs::Rows::rows_turn))]
fn rows_right(feed: &[u8], count: usize, table: usize) -> bool
    requires { (count < 2 ^ 16) × (table < 2 ^ 20) }
    ensures { result ≡ rows_right feed.now count 1 table }
{
    let mut place = table;
    for n in 1..=count {
        if !row_right(feed, n, place) {
            return false;
        }
        place += length_in(feed, n);
    }
    place == feed.len()
}

// The first row's body reads as an own list.
fn own_right(feed: &[u8]) -> bool
    ensures { result ≡ eqb (body_answer (read_body own_kind (body_in feed.now 1))) 0 }
{
    read_own(body_in(feed, 1)).answer.is_ok()
}

// Where the table of so many rows ends.
fn table_end(count: usize) -> usize
    requires { count < 2 ^ 16 }
    ensures { result ≡ head_bytes + row_bytes * count }
{
    HEAD_BYTES + ROW_BYTES * count
}

// Whether a feed is well formed. One pass over the rows, and the own list.
#[tactic(auto, unfolding(format::specs::Feed::well_formed))]
pub fn check(feed: &[u8]) -> bool
    ensures { result ≡ well_formed feed.now }
{
    let size = feed.len();
    let count = count_in(feed);
    size <= MOST_BYTES
        && HEAD_BYTES <= size
        && number_at(feed, 0, 2) == FEED_VERSION
        && FEWEST_ROWS <= count
        && count <= MOST_ROWS
        && table_end(count) <= size
        && rows_right(feed, count, table_end(count))
        && own_right(feed)
}

// How many rows a feed has; none if it is refused.
#[tactic(auto, using(crate::specs::Rows::count_formed, crate::specs::Rows::count_refused))]
pub fn rows(feed: &[u8]) -> usize
    ensures { result ≡ row_count feed.now }
{
    if check(feed) { count_in(feed) } else { 0 }
}

// Whether a row is there: rows count from 1.
fn is_row(feed: &[u8], n: usize) -> bool
    ensures { result ≡ is_row feed.now n }
{
    (1..=rows(feed)).contains(&n)
}

// A row's kind, document 01's number; 0 for a row that is not there.
#[tactic(auto, unfolding(format::specs::Feed::row_kind))]
pub fn kind(feed: &[u8], n: usize) -> u8
    ensures { result ≡ row_kind feed.now n }
{
    if is_row(feed, n) { kind_in(feed, n) } else { 0 }
}

// A row's body, as a part of the feed, and in the lent number whether it was found. Of a refused feed, or for a row that is
// not there, the empty part. Part and number are what `row_determined` fixes.
#[tactic(auto, unfolding(format::specs::Feed::row_body, format::specs::Feed::found))]
pub fn row<'a>(feed: &'a [u8], n: usize, found: &mut u8) -> &'a [u8]
    ensures result_value { result.now ≡ row_body feed.now n }
    ensures found_after { found.new ≡ row_found feed.now n }
{
    let there = is_row(feed, n);
    *found = u8::from(there);
    if there { body_in(feed, n) } else { &feed[..0] }
}
