// Transactions and blocks, from the lines that describe them.
ghost use Rattle.std.specs.Prelude.{◌≤◌};

use crate::line::Line;
use chain::{Block, Transaction};
use rules::{MOST_INPUTS, MOST_OUTPUTS, Number, Output, Reference};

// The most lines that a block has: as many transactions as it can hold, and one more that changes it.
const MOST_LINES: usize = 17;

// A reference, or an output, from the numbers of a line; 0 where one is too large.
pub(crate) fn reference_in(line: Line, place: usize) -> Reference {
    let [serial, index] = line.numbers::<2>(place);
    Reference {
        number: Number { serial },
        index: u16::try_from(index).unwrap_or(0),
    }
}

fn output_in(line: Line, place: usize) -> Output {
    let [index, address, amount] = line.numbers::<3>(place);
    Output {
        index: u16::try_from(index).unwrap_or(0),
        address: u32::try_from(address).unwrap_or(0),
        amount,
    }
}

// One more behind the first `count`; nothing where there is no place left. An array with its count is how a transaction and a
// block are laid out.
fn push<T: Copy>(places: &mut [T], count: &mut usize, item: T) {
    if *count < places.len() {
        places[*count] = item;
        *count += 1;
    }
}

// Another thing in one place; nothing where there is no such place.
pub(crate) fn put<T: Copy>(places: &mut [T], place: u64, item: T) {
    let place = place as usize;
    if place < places.len() {
        places[place] = item;
    }
}

// The inputs, or the outputs, from one number of a line to another; those behind the eighth are left out.
fn add_inputs(t: &mut Transaction, line: Line, first: usize, end: usize) {
    for place in (first..end).step_by(2).take(MOST_INPUTS) {
        push(&mut t.inputs, &mut t.takes, reference_in(line, place));
    }
}

fn add_outputs(t: &mut Transaction, line: Line, first: usize, end: usize) {
    for place in (first..end).step_by(3).take(MOST_OUTPUTS) {
        push(&mut t.outputs, &mut t.makes, output_in(line, place));
    }
}

// The transaction whose number is the first, or a later one, of a line. Behind a semicolon stand other counts.
pub(crate) fn transaction_in(line: Line, first: usize) -> Transaction
    requires { first ≤ 2 }
{
    let arrow = line.ahead(b'>').unwrap_or(0);
    let semicolon = line.ahead(b';');
    let end = semicolon.unwrap_or(line.count());
    let mut t = chain::zero_transaction();
    t.number = Number {
        serial: line.number(first),
    };
    add_inputs(&mut t, line, first + 1, arrow);
    add_outputs(&mut t, line, arrow, end);
    if let Some(place) = semicolon {
        let [takes, makes] = line.numbers::<2>(place);
        t.takes = takes as usize;
        t.makes = makes as usize;
    }
    t
}

// An income: eight outputs to address 10, from an output of others that no other transaction here takes.
fn income(serial: u64, amount: u64) -> Transaction {
    let mut t = chain::zero_transaction();
    t.number = Number { serial };
    t.inputs[0].number = Number {
        serial: serial.wrapping_add(9000),
    };
    t.takes = 1;
    for index in 0..8 {
        let output = Output {
            index,
            address: 10,
            amount,
        };
        push(&mut t.outputs, &mut t.makes, output);
    }
    t
}

fn add(block: &mut Block, t: Transaction) {
    push(&mut block.transactions, &mut block.count, t);
}

// As many incomes, of neighbouring numbers.
fn add_incomes(block: &mut Block, count: u64, first: u64, amount: u64) {
    for i in 0..count {
        add(block, income(first.wrapping_add(i), amount));
    }
}

// What an indented line does to a block: it adds a transaction, or by its letter
//     incomes 16 1000 5        sixteen transactions from 1000 on, each with eight outputs of 5
//     count 17                 another count
//     place 15 1: ->           a transaction in a place behind the count
fn add_line(block: &mut Block, line: Line) {
    match line.letter(2) {
        b'i' => {
            let [count, first, amount] = line.numbers::<3>(0);
            add_incomes(block, count, first, amount);
        }
        b'c' => block.count = line.number(0) as usize,
        b'p' => {
            let t = transaction_in(line, 1);
            put(&mut block.transactions, line.number(0), t);
        }
        _ => add(block, transaction_in(line, 0)),
    }
}

// The block of the indented lines that follow a line.
pub(crate) fn block_below(line: Line) -> Block {
    let mut block = Block::default();
    let indented = line.below().take_while(|below| below.letter(0) == b' ');
    for below in indented.take(MOST_LINES) {
        add_line(&mut block, below);
    }
    block
}
