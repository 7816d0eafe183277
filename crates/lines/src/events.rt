// Events: a row's body read and stepped, and the line that tells of it.
ghost use Rattle.std.specs.Prelude.{◌≡◌, [], T, take};
ghost use Rattle.format.specs.Bodies.{read_body};
ghost use Rattle.format.specs.Feed.{body_in, count_in, well_formed};
ghost use Rattle.wallet.specs.Contract.{Reads, is_sound, viewed};
ghost use Rattle.rules.specs.States as States;
ghost use Rattle.rules.specs.Steps.{opening};
ghost use Rattle.lines.specs.Sheet.{event_line, event_step};
ghost use Rattle.lines.specs.Events.{OwnFits, Told, step_of};
ghost use Rattle.fixed.specs.Filled.{with_items};
ghost use Rattle.lines.specs.Rows.{text_to};

use crate::text::put_line;
use crate::{Line, Text};
use feed::bodies::{Body, Own};
use minimum::balances;
use wallet::{Step, Wallet};

// An own list that was read opens a wallet.
fn opened(own: Own) -> Step
    requires { OwnFits own }
    ensures { Reads result (opening (take own.count own.addresses)) }
{
    Wallet::open(&own.addresses[..own.count])
}

// An event's step; the kind is document 01's number. A fault in its body is answer 1: the wallet as it was, and movement 0.
fn event(w: Wallet, kind: u8, bytes: &[u8]) -> Step
    requires { T (is_sound w) }
    ensures { Told (event_step (viewed w) (read_body kind bytes.now)) result }
{
    let read = feed::bodies::read_body(kind, bytes);
    match read.body {
        Body::Own => opened(read.own),
        Body::Block => w.block(read.block),
        Body::Payment => w.pay(read.payment),
        Body::Rollback => w.roll_back(),
        Body::Fault(_) => Step {
            wallet: w,
            answer: 1,
            movement: 0,
        },
    }
}

// The step of the event in a row.
pub(crate) fn row_step(feed: &[u8], n: usize, kind: u8, w: Wallet) -> Step
    requires { T (is_sound w) }
    ensures { Told (event_step (viewed w) (read_body kind (body_in feed.now n))) result }
{
    event(w, kind, feed::rows::body_in(feed, n))
}

// The line of an event: the balances are those after it.
pub(crate) fn line_of(row: usize, kind: u8, step: Step) -> Line
    requires { T (is_sound step.wallet) }
    ensures { result ≡ event_line row kind (step_of step) }
{
    let b = balances(step.wallet);
    Line {
        row,
        kind,
        answer: step.answer,
        available: b.available,
        total: b.total,
        minimum: b.minimum,
        movement: step.movement,
    }
}

// The wallet before the first event: no own address, nothing held.
fn unopened() -> Wallet
    ensures { T (is_sound result) × (viewed result ≡ States.opened []) }
{
    Wallet::open(&[]).wallet
}

// The lines of a feed that was checked, put one behind the other, each on the wallet that the event before it left.
pub(crate) fn put_events(feed: &[u8], text: &mut Text)
    requires { T (well_formed feed.now) }
    ensures { text.new ≡ with_items text.old (text_to feed.now (count_in feed.now)) }
{
    let mut w = unopened();
    // i rows are done, as `text_to` counts them
    for i in 0..feed::rows::count_in(feed) {
        let n = i + 1;
        let kind = feed::rows::kind_in(feed, n);
        let step = row_step(feed, n, kind, w);
        put_line(text, line_of(n, kind, step));
        w = step.wallet;
    }
}
