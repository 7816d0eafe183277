// Transactions: number, counts, inputs and outputs.
ghost use Rattle.std.specs.Prelude.{◌≡◌, ◌≤◌};
ghost use Rattle.rules.specs.Sizes.{most_inputs, most_outputs};
ghost use Rattle.format.specs.Bodies.{read_transaction};
ghost use Rattle.feed.specs.Answers.{before, field_read, numbered};
ghost use Rattle.feed.specs.Structs.{formed, read_lists, struct_of, struct_reader};

use crate::fields::{COUNT_WIDTH, Fault, input_count, number_of, transaction_number, up_to};
use crate::items::{Item, Read, read_inputs, read_outputs};
use chain::Transaction;
use rules::{MOST_OUTPUTS, Number};

pub type TransactionRead = Read<Transaction>;

// A transaction's inputs and outputs, behind its number and its counts.
fn read_lists(
    bytes: &[u8],
    place: usize,
    number: Number,
    takes: usize,
    makes: usize,
) -> Item<Transaction>
    requires { (takes ≤ most_inputs) × (makes ≤ most_outputs) }
    ensures { field_read result ≡ formed struct_of (read_lists number takes makes bytes.now place) }
{
    let Read {
        answer,
        value: inputs,
    } = read_inputs(bytes, place, takes);
    let at = answer?;
    let Read {
        answer,
        value: outputs,
    } = read_outputs(bytes, at, makes);
    let next = answer?;
    let transaction = Transaction {
        number,
        inputs,
        takes,
        outputs,
        makes,
    };
    Ok((transaction, next))
}

// A transaction: number, held against that of the transaction before in a block, counts, inputs, outputs.
#[tactic(auto, unfolding(format::specs::Bodies::read_transaction, crate::specs::Structs::read_lists))]
fn read_after(bytes: &[u8], place: usize, last: Option<Number>) -> Item<Transaction>
    ensures { field_read result ≡ formed struct_of (read_transaction (numbered (before last)) bytes.now place) }
{
    let Ok((n, takes_at)) = transaction_number(bytes, place, last) else {
        return Err(Fault { place });
    };
    let Ok((takes, makes_at)) = input_count(bytes, takes_at) else {
        return Err(Fault { place: takes_at });
    };
    let Ok((makes, lists_at)) = up_to(bytes, makes_at, COUNT_WIDTH, MOST_OUTPUTS as u64) else {
        return Err(Fault { place: makes_at });
    };
    read_lists(
        bytes,
        lists_at,
        number_of(n),
        takes as usize,
        makes as usize,
    )
}

// A transaction in view of the one before it in a block. Only the number of that one is handed on: handing on the whole
// copies it each time.
#[tactic(auto, using(crate::specs::Transactions::number_alone))]
pub(crate) fn read_transaction(
    bytes: &[u8],
    place: usize,
    last: Option<Transaction>,
) -> Item<Transaction>
    ensures { field_read result ≡ struct_reader (before last) bytes.now place }
{
    match last {
        Some(last) => read_after(bytes, place, Some(last.number)),
        None => read_after(bytes, place, None),
    }
}
