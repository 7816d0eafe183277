// The checks: each writes what came of the last step, or of a query, and tells whether it is what the line wants.
use crate::calls::{calls, nines, still};
use crate::desk::Desk;
use crate::line::Line;
use alike::same_wallet;
use minimum::{Least, ThreeBalances};
use std::io;
use wallet::{Listed, Pending, Wallet};

// Whether the numbers that came are the first of a line. One that a line does not have is 0.
fn wanted(line: Line, came: [u64; 4]) -> bool {
    line.numbers(0) == came
}

// Whether a line has the sign of a movement.
fn signed(line: Line, movement: i64) -> bool {
    line.has_minus() == (movement < 0)
}

// ? done ANSWER MOVEMENT
fn done(rt: &impl Print, line: Line, desk: &Desk) -> io::Result<bool> {
    let answer = desk.last.answer;
    let movement = desk.last.movement;
    print!(rt; ": answer {answer}, moved {movement}")?;
    Ok(wanted(line, [answer as u64, movement.unsigned_abs(), 0, 0]) && signed(line, movement))
}

// ? refused ANSWER: no movement, and the very wallet that came in
fn refused(rt: &impl Print, line: Line, desk: &Desk) -> io::Result<bool> {
    let answer = desk.last.answer;
    let movement = desk.last.movement;
    let same = same_wallet(desk.before, desk.last.wallet);
    print!(rt; ": answer {answer}, moved {movement}")?;
    if same {
        print!(rt; ", wallet the same")?;
    }
    Ok(same && movement == 0 && wanted(line, [answer as u64, 0, 0, 0]))
}

// ? case ANSWER AVAILABLE TOTAL MOVEMENT
fn case(rt: &impl Print, line: Line, desk: &Desk) -> io::Result<bool> {
    let answer = desk.last.answer;
    let movement = desk.last.movement;
    let available = desk.last.wallet.available().amount;
    let total = desk.last.wallet.total().amount;
    print!(rt; ": answer {answer}, available {available}, total {total}, moved {movement}")?;
    let came = [answer as u64, available, total, movement.unsigned_abs()];
    Ok(wanted(line, came) && signed(line, movement))
}

// ? available AMOUNT, and so total, held, unspent, expected and pending
fn amount(rt: &impl Print, line: Line, came: u64) -> io::Result<bool> {
    print!(rt; ": {came}")?;
    Ok(wanted(line, [came, 0, 0, 0]))
}

// ? like PLACE: the very wallet that is kept there
fn like(rt: &impl Print, w: Wallet, there: Wallet) -> io::Result<bool> {
    let same = same_wallet(w, there);
    if same {
        print!(rt; ": yes")?;
    }
    Ok(same)
}

// ? only unspent REFERENCE, or expected, or available: a list of one entry
fn only(rt: &impl Print, line: Line, came: Listed) -> io::Result<bool> {
    let count = came.list.count;
    let first = came.list.items[0].reference;
    let serial = first.number.serial;
    let index = first.index;
    print!(rt; ": {count} entry, {serial}.{index}")?;
    Ok(count == 1 && came.answer == 0 && wanted(line, [serial, index as u64, 0, 0]))
}

fn only_of(rt: &impl Print, line: Line, w: Wallet) -> io::Result<bool> {
    match line.letter(7) {
        b'u' => only(rt, line, w.utxo_list()),
        b'e' => only(rt, line, w.expected_list()),
        _ => only(rt, line, w.available_list()),
    }
}

// ? numbers LOW HIGH: a list of two pending payments
fn numbers(rt: &impl Print, line: Line, came: Pending) -> io::Result<bool> {
    let count = came.list.count;
    let low = came.list.transactions[0].number.serial;
    let high = came.list.transactions[1].number.serial;
    print!(rt; ": {count} payments, {low} and {high}")?;
    Ok(count == 2 && came.answer == 0 && wanted(line, [low, high, 0, 0]))
}

// ? minimum AMOUNT PAYMENTS PENDING: the minimum, the fewest payments that reach it, and how many are pending
fn least(rt: &impl Print, line: Line, came: Least, pending: usize) -> io::Result<bool> {
    let Least {
        answer,
        amount,
        payments,
    } = came;
    print!(rt; ": {amount} with {payments} of {pending} payments")?;
    Ok(answer == 0 && wanted(line, [amount, payments as u64, pending as u64, 0]))
}

// ? balances AVAILABLE TOTAL MINIMUM PAYMENTS: what one call gives
fn three(rt: &impl Print, line: Line, came: ThreeBalances) -> io::Result<bool> {
    let ThreeBalances {
        answer,
        available,
        total,
        minimum,
        payments,
    } = came;
    print!(rt; ": available {available}, total {total}, minimum {minimum} with {payments}")?;
    Ok(answer == 0 && wanted(line, [available, total, minimum, payments as u64]))
}

// ? sound: no call answers 9
fn sound(rt: &impl Print, w: Wallet) -> io::Result<bool> {
    let nines = nines(&calls(w));
    print!(rt; ": {nines} of 12 calls answered 9")?;
    Ok(nines == 0)
}

// ? faulty: 9 from each call, and nothing else
fn faulty(rt: &impl Print, w: Wallet) -> io::Result<bool> {
    let calls = calls(w);
    let nines = nines(&calls);
    let same = still(&calls[..3]);
    let empty = still(&calls[3..]);
    print!(rt; ": {nines} of 12 calls answered 9, {empty} of 9 queries empty")?;
    print!(rt; ", {same} of 3 wallets the same")?;
    Ok(nines == 12 && empty == 9 && same == 3)
}

// A check by its letter.
fn passes(rt: &impl Print, line: Line, desk: &Desk) -> io::Result<bool> {
    let w = desk.last.wallet;
    match line.letter(2) {
        b'd' => done(rt, line, desk),
        b'r' => refused(rt, line, desk),
        b'c' => case(rt, line, desk),
        b'l' => like(rt, w, desk.there(line)),
        b'o' => only_of(rt, line, w),
        b'n' => numbers(rt, line, w.pending_list()),
        b'm' => least(rt, line, minimum::minimum(w), w.pending_list().list.count),
        b'b' => three(rt, line, minimum::balances(w)),
        b's' => sound(rt, w),
        b'f' => faulty(rt, w),
        b'a' => amount(rt, line, w.available().amount),
        b't' => amount(rt, line, w.total().amount),
        b'h' => amount(rt, line, w.held().amount),
        b'u' => amount(rt, line, w.utxo_list().list.count as u64),
        b'e' => amount(rt, line, w.expected_list().list.count as u64),
        b'p' => amount(rt, line, w.pending_list().list.count as u64),
        _ => amount(rt, line, 0),
    }
}

// The line of a check. Where it is wrong, what was wanted stands in the check itself.
pub(crate) fn check(rt: &impl Print, line: Line, desk: &Desk) -> io::Result<()> {
    rt.write_all(line.label())?;
    if passes(rt, line, desk)? {
        return println!(rt; " ok");
    }
    print!(rt; " WRONG: ")?;
    rt.write_all(line.before(b'|'))?;
    println!(rt;)
}
