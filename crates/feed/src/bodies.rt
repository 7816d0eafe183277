// Bodies: own list, block, payment, rollback. A body must be used up exactly: the first byte left over is a fault.
ghost use Rattle.std.specs.Prelude.{◌≡◌, ℕ, Option, length};
ghost use Rattle.chain.specs.View.{zero_transaction};
ghost use Rattle.format.specs.Bodies.{back_kind, block_kind, own_kind, pay_kind, read_block, read_body, read_own};
ghost use Rattle.feed.specs.Answers.{ItemReader, before, field_read};
ghost use Rattle.feed.specs.Structs.{formed, list_and_count, read_as, transaction_read};
ghost use Rattle.feed.specs.Bodies.{bare, block_of, block_read, block_reading, body_read, fault_or, no_block, no_own, own_read, own_reading, own_struct, pay_reading};
ghost use Rattle.feed.specs.Whole.{counted, exactly};

use crate::fields::{COUNT_WIDTH, Fault, up_to};
use crate::items::{Answer, Item, Read, read_address, read_items};
use crate::transactions::{TransactionRead, read_transaction};
use chain::{Block, Transaction, zero_transaction};
use rules::{MOST_OWN, MOST_TRANSACTIONS};

// The kinds of rows, by document 01's numbers: a row's kind decides which body rule applies, any other number is refused.
pub(crate) const OWN_KIND: u8 = 1;

pub(crate) const BLOCK_KIND: u8 = 2;

pub(crate) const PAY_KIND: u8 = 3;

pub(crate) const BACK_KIND: u8 = 4;

// Own addresses: the first `count` places; the other places are zero. `own_struct` and the promises of `read_own` name both.
#[derive(Clone, Copy)]
pub struct Own {
    pub addresses: [u32; MOST_OWN],
    pub count: usize,
}

pub type OwnRead = Read<Own>;

pub type BlockRead = Read<Block>;

// What a body is, or a fault's place: by document 01 the list, block or payment stands beside it in a struct.
#[derive(Clone, Copy, Debug, PartialEq, Eq)]
pub enum Body {
    Own,
    Block,
    Payment,
    Rollback,
    Fault(usize),
}

// A body's reading: what does not apply is zero.
#[derive(Clone, Copy)]
pub struct BodyRead {
    pub body: Body,
    pub own: Own,
    pub block: Block,
    pub payment: Transaction,
}

// The empty own list. With a derived default, whose contract speaks of each place, `nothing_beside` did not close.
fn zero_own() -> Own
    ensures { result ≡ no_own }
{
    Own {
        addresses: [0; MOST_OWN],
        count: 0,
    }
}

// The empty block.
fn zero_block() -> Block
    ensures { result ≡ no_block }
{
    Block {
        transactions: [zero_transaction(); MOST_TRANSACTIONS],
        count: 0,
    }
}

// A list behind its count: the list's places, how many are used, and the next place.
#[tactic(auto, using(crate::specs::Held::reading_got, crate::specs::Whole::counted_read))]
fn counted<T: Copy, const N: usize, F: Fn(usize, Option<T>) -> Item<T>>(
    bytes: &[u8],
    zero: T,
    read: F,
) -> Item<([T; N], usize)>
    requires { F.IsAlwaysCallable read }
    ensures { (reader : ItemReader T) →
        ((at : ℕ) (last : Option T) (r : _) → F.post read at last r → field_read r ≡ reader (before last) bytes.now at) →
        field_read result ≡ formed (list_and_count N zero) (counted N reader bytes.now 0) }
{
    let Ok((n, at)) = up_to(bytes, 0, COUNT_WIDTH, N as u64) else {
        return Err(Fault { place: 0 });
    };
    let count = n as usize;
    let Read {
        answer,
        value: items,
    } = read_items(at, count, zero, read);
    let next = answer?;
    Ok(((items, count), next))
}

// A reading that has to end with its body.
fn whole<T: Copy>(read: Item<T>, size: usize, zero: T) -> Read<T>
    ensures { result ≡ read_as (λ x. x) zero (exactly size (field_read read)) }
{
    let (value, next) = match read {
        Ok(taken) => taken,
        Err(fault) => return Read::fault(fault, zero),
    };
    if next != size {
        return Read::fault(Fault { place: next }, zero);
    }
    Read {
        answer: Ok(next),
        value,
    }
}

// An own list from the body's start.
fn own_list(bytes: &[u8]) -> Item<Own>
    ensures { field_read result ≡ formed own_struct (read_own bytes.now 0) }
{
    let ((addresses, count), next) = counted(bytes, 0, |at, last| read_address(bytes, at, last))?;
    Ok((Own { addresses, count }, next))
}

// A block from the body's start.
fn block(bytes: &[u8]) -> Item<Block>
    ensures { field_read result ≡ formed block_of (read_block bytes.now 0) }
{
    let ((transactions, count), next) = counted(
        bytes,
        zero_transaction(),
        |at, last| read_transaction(bytes, at, last),
    )?;
    Ok((
        Block {
            transactions,
            count,
        },
        next,
    ))
}

// Reads a body as an own list.
#[tactic(auto, using(crate::specs::Whole::whole_read, crate::specs::Whole::own_exact))]
pub fn read_own(bytes: &[u8]) -> OwnRead
    ensures { result ≡ own_read (own_reading (length bytes.now) (read_body own_kind bytes.now)) }
{
    whole(own_list(bytes), bytes.len(), zero_own())
}

// Reads a body as a block.
#[tactic(auto, using(crate::specs::Whole::whole_read, crate::specs::Whole::block_exact))]
pub fn read_block(bytes: &[u8]) -> BlockRead
    ensures { result ≡ block_read (block_reading (length bytes.now) (read_body block_kind bytes.now)) }
{
    whole(block(bytes), bytes.len(), zero_block())
}

// Reads a body as a payment.
#[tactic(auto, using(crate::specs::Whole::whole_read, crate::specs::Whole::pay_exact))]
pub fn read_payment(bytes: &[u8]) -> TransactionRead
    ensures { result ≡ transaction_read (pay_reading (length bytes.now) (read_body pay_kind bytes.now)) }
{
    whole(
        read_transaction(bytes, 0, None),
        bytes.len(),
        zero_transaction(),
    )
}

// No value beside it: a rollback, or a fault.
fn nothing_beside(body: Body) -> BodyRead
    ensures { result ≡ bare body }
{
    BodyRead {
        body,
        own: zero_own(),
        block: zero_block(),
        payment: zero_transaction(),
    }
}

// What a body is, unless its reading faulted.
fn fault_or(answer: Answer, body: Body) -> Body
    ensures { result ≡ fault_or answer body }
{
    match answer {
        Ok(_) => body,
        Err(fault) => Body::Fault(fault.place),
    }
}

// Each kind of body sets another field; what they share is `whole` and `counted`.
#[tactic(auto, using(crate::specs::Whole::own_shown_lem))]
fn own_body(bytes: &[u8]) -> BodyRead
    ensures { result ≡ body_read (read_body own_kind bytes.now) }
{
    let Read { answer, value: own } = read_own(bytes);
    let none = nothing_beside(fault_or(answer, Body::Own));
    BodyRead { own, ..none }
}

#[tactic(auto, using(crate::specs::Whole::block_shown_lem))]
fn block_body(bytes: &[u8]) -> BodyRead
    ensures { result ≡ body_read (read_body block_kind bytes.now) }
{
    let Read {
        answer,
        value: block,
    } = read_block(bytes);
    let none = nothing_beside(fault_or(answer, Body::Block));
    BodyRead { block, ..none }
}

#[tactic(auto, using(crate::specs::Whole::pay_shown_lem))]
fn payment_body(bytes: &[u8]) -> BodyRead
    ensures { result ≡ body_read (read_body pay_kind bytes.now) }
{
    let Read {
        answer,
        value: payment,
    } = read_payment(bytes);
    let none = nothing_beside(fault_or(answer, Body::Payment));
    BodyRead { payment, ..none }
}

// A rollback's body is empty.
#[tactic(auto, using(crate::specs::Whole::back_empty, crate::specs::Whole::back_over))]
fn rollback_body(bytes: &[u8]) -> BodyRead
    ensures { result ≡ body_read (read_body back_kind bytes.now) }
{
    if bytes.is_empty() {
        nothing_beside(Body::Rollback)
    } else {
        nothing_beside(Body::Fault(0))
    }
}

// Reads a body by its row's kind; an unknown kind faults at place 0.
#[tactic(auto, using(crate::specs::Whole::unknown_kind))]
pub fn read_body(kind: u8, bytes: &[u8]) -> BodyRead
    ensures { result ≡ body_read (read_body kind bytes.now) }
{
    let rule = kind;
    match rule {
        OWN_KIND => own_body(bytes),
        BLOCK_KIND => block_body(bytes),
        PAY_KIND => payment_body(bytes),
        BACK_KIND => rollback_body(bytes),
        _ => nothing_beside(Body::Fault(0)),
    }
}
