// The inside of a feed's run: five lines an event, and the damages of the last wallet with what every call answers to it.
use crate::answers::answers;
use crate::damage::{DAMAGES, Damage};
use crate::events::{Told, row_event, unopened};
use chain::{Block, Transaction};
use flat::Made;
use rules::Entry;
use std::{fmt, io};
use wallet::Wallet;

// The entries of a set, each as NUMBER.INDEX:ADDRESS:AMOUNT.
#[derive(Clone, Copy)]
struct Entries<'a>(&'a [Entry]);

impl fmt::Display for Entries<'_> {
    fn fmt<W: fmt::Write>(&self, f: &mut fmt::Formatter<W>) -> fmt::Result {
        for entry in self.0 {
            let serial = entry.reference.number.serial;
            let index = entry.reference.index;
            write!(f, " {serial}.{index}:{}:{}", entry.address, entry.amount)?;
        }
        Ok(())
    }
}

// The numbers of payments.
#[derive(Clone, Copy)]
struct Payments<'a>(&'a [Transaction]);

impl fmt::Display for Payments<'_> {
    fn fmt<W: fmt::Write>(&self, f: &mut fmt::Formatter<W>) -> fmt::Result {
        for payment in self.0 {
            write!(f, " {}", payment.number.serial)?;
        }
        Ok(())
    }
}

// A set's name and its entries, on a line.
fn print_set(rt: &impl Print, name: &str, list: &Made) -> io::Result<()> {
    println!(rt; "{name}{}", Entries(list.as_slice()))
}

fn print_pending(rt: &impl Print, list: &Block) -> io::Result<()> {
    println!(rt; "pending{}", Payments(list.transactions()))
}

// The kind is document 01's number.
fn kind_name(kind: u8) -> &'static str {
    match kind {
        1 => "own",
        2 => "block",
        3 => "pay",
        _ => "back",
    }
}

// Row, kind (document 01's number), the body's reading, its fault's place, answer, payments in the minimum, held states.
fn print_head(rt: &impl Print, n: usize, kind: u8, told: &Told) -> io::Result<()> {
    let kind = kind_name(kind);
    let reading = told.fault.is_some() as u8;
    let place = told.fault.unwrap_or(0);
    let answer = told.answer;
    let least = minimum::minimum(told.wallet).payments;
    let held = told.wallet.held().amount;
    println!(rt; "{n} {kind} {reading} {place} {answer} {least} {held}")
}

// The present sets, a line each.
fn print_sets(rt: &impl Print, w: Wallet) -> io::Result<()> {
    print_set(rt, "utxo", &w.utxo_list().list)?;
    print_set(rt, "expected", &w.expected_list().list)?;
    print_set(rt, "available", &w.available_list().list)?;
    print_pending(rt, &w.pending_list().list)
}

// The lines of every event. Hands on the wallet after the last.
fn print_events(rt: &impl Print, feed: &[u8]) -> io::Result<Wallet> {
    let mut w = unopened();
    for n in 1..=feed::rows::count_in(feed) {
        let told = row_event(feed, n, w);
        w = told.wallet;
        print_head(rt, n, feed::rows::kind_in(feed, n), &told)?;
        print_sets(rt, w)?;
    }
    Ok(w)
}

// What every call answers to a damaged wallet, where the damage can be done.
fn print_damage(rt: &impl Print, w: &Wallet, damage: Damage) -> io::Result<()> {
    if !damage.applies(&w.pool) {
        return Ok(());
    }
    let pool = damage.done_to(&w.pool);
    print!(rt; "damaged {}", damage as u8)?;
    for answer in answers(Wallet { pool }) {
        print!(rt; " {answer}")?;
    }
    println!(rt;)
}

// The inside text of a feed that was checked.
pub(crate) fn print_inside(rt: &impl Print, feed: &[u8]) -> io::Result<()> {
    let w = print_events(rt, feed)?;
    for damage in DAMAGES {
        print_damage(rt, &w, damage)?;
    }
    Ok(())
}
