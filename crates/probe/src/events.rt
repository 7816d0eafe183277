// A feed's events, one after another, each on the wallet that the one before it left.
use feed::bodies::{Body, BodyRead};
use rules::MOST_OWN;
use wallet::{Refusal, Step, Wallet};

// The wallet after an event, the place of a fault in its body, and the event's answer: a number, as in document 01's steps.
#[derive(Clone, Copy)]
pub(crate) struct Told {
    pub wallet: Wallet,
    pub fault: Option<usize>,
    pub answer: u32,
}

// A step that was taken.
impl From<Step> for Told {
    fn from(step: Step) -> Told {
        Told {
            wallet: step.wallet,
            fault: None,
            answer: step.answer,
        }
    }
}

// The wallet before the first event: no own address, nothing held. One line: a library's function would say no more.
pub(crate) fn unopened() -> Wallet {
    Wallet::open(&[]).wallet
}

// An event whose body was read, or faulted: the wallet is then as it was. The same match is private to `lines`, where its
// contract is about the sheet, which has no fault's place.
fn event(w: Wallet, read: BodyRead) -> Told {
    match read.body {
        Body::Own => {
            let count = read.own.count.min(MOST_OWN);
            Told::from(Wallet::open(&read.own.addresses[..count]))
        }
        Body::Block => Told::from(w.block(read.block)),
        Body::Payment => Told::from(w.pay(read.payment)),
        Body::Rollback => Told::from(w.roll_back()),
        Body::Fault(place) => Told {
            wallet: w,
            fault: Some(place),
            answer: Refusal::NotShaped.number(),
        },
    }
}

// The event in a row of a feed that was checked.
pub(crate) fn row_event(feed: &[u8], n: usize, w: Wallet) -> Told {
    let kind = feed::rows::kind_in(feed, n);
    let body = feed::rows::body_in(feed, n);
    event(w, feed::bodies::read_body(kind, body))
}

// The wallet after the last event.
pub(crate) fn last_wallet(feed: &[u8]) -> Wallet {
    let count = feed::rows::count_in(feed);
    (1..=count).fold(unopened(), |w, n| row_event(feed, n, w).wallet)
}
