// Items of a body, one by one: own addresses, inputs, outputs. A list that was read stands beside its answer.
ghost use Rattle.std.specs.Prelude.{◌≡◌, ℕ, List, Option, Err, ◌≤◌};
ghost use Rattle.std.proofs.Math.Option.{none};
ghost use Rattle.chain.specs.View.{zero_output, zero_reference};
ghost use Rattle.rules.specs.Sizes.{most_inputs, most_outputs};
ghost use Rattle.format.specs.Fields.{items};
ghost use Rattle.format.specs.Bodies.{read_address, read_input, read_output};
ghost use Rattle.feed.specs.Answers.{ItemReader, before, field_read};
ghost use Rattle.feed.specs.Structs.{items_read};

use crate::fields::{
    ADDRESS_WIDTH, AMOUNT_WIDTH, Fault, address, input_index, input_number, number, number_of,
    output_index, up_to,
};
use chain::{zero_output, zero_reference};
use rules::{LARGEST_AMOUNT, MOST_INPUTS, MOST_OUTPUTS, Output, Reference};

// A reading's answer: the next place, or a fault's place.
pub type Answer = Result<usize, Fault>;

// An item's reading: what was read with the next place, or a fault's place. Each field's is taken apart by `let .. else`, as
// document 01 asks, so no `?` hands a fault on.
pub(crate) type Item<T> = Result<(T, usize), Fault>;

// A reading: its answer, and beside it in a struct what was read, as document 01 asks; zeros at a fault.
#[derive(Clone, Copy)]
pub struct Read<T> {
    pub answer: Answer,
    pub value: T,
}

impl<T> Read<T> {
    // A fault, with zeros beside it.
    pub(crate) fn fault(fault: Fault, zero: T) -> Self
        ensures { result ≡ record { answer = Err fault; value = zero } }
    {
        Read {
            answer: Err(fault),
            value: zero,
        }
    }
}

// An own address: higher than the one before.
#[tactic(auto, unfolding(format::specs::Bodies::read_address))]
pub(crate) fn read_address(bytes: &[u8], place: usize, last: Option<u32>) -> Item<u32>
    ensures { field_read result ≡ read_address (before last) bytes.now place }
{
    let Ok((n, next)) = address(bytes, place, last) else {
        return Err(Fault { place });
    };
    Ok((n as u32, next))
}

// An input: number and index, each held against the input before.
#[tactic(auto, unfolding(format::specs::Bodies::read_input))]
pub(crate) fn read_input(bytes: &[u8], place: usize, last: Option<Reference>) -> Item<Reference>
    ensures { field_read result ≡ read_input (before last) bytes.now place }
{
    let Ok((n, index_at)) = input_number(bytes, place, last) else {
        return Err(Fault { place });
    };
    let Ok((i, next)) = input_index(bytes, index_at, n, last) else {
        return Err(Fault { place: index_at });
    };
    let input = Reference {
        number: number_of(n),
        index: i as u16,
    };
    Ok((input, next))
}

// An output: index, held against the output before, address, and an amount up to the limit.
#[tactic(auto, unfolding(format::specs::Bodies::read_output))]
pub(crate) fn read_output(bytes: &[u8], place: usize, last: Option<Output>) -> Item<Output>
    ensures { field_read result ≡ read_output (before last) bytes.now place }
{
    let Ok((i, address_at)) = output_index(bytes, place, last) else {
        return Err(Fault { place });
    };
    let Ok((a, amount_at)) = number(bytes, address_at, ADDRESS_WIDTH) else {
        return Err(Fault { place: address_at });
    };
    let Ok((amount, next)) = up_to(bytes, amount_at, AMOUNT_WIDTH, LARGEST_AMOUNT) else {
        return Err(Fault { place: amount_at });
    };
    let output = Output {
        index: i as u16,
        address: a as u32,
        amount,
    };
    Ok((output, next))
}

// So many items, one after another, each read in view of the one before it; zero in the other places. Written by place:
// through `iter_mut` a proof knows no element.
pub(crate) fn read_items<T: Copy, const N: usize, F: Fn(usize, Option<T>) -> Item<T>>(
    place: usize,
    count: usize,
    zero: T,
    read: F,
) -> Read<[T; N]>
    requires count_fits { count ≤ N }
    requires callable { F.IsAlwaysCallable read }
    ensures { (bytes : List ℕ) (reader : ItemReader T) →
        ((at : ℕ) (last : Option T) (r : _) → F.post read at last r → field_read r ≡ reader (before last) bytes at) →
        result ≡ items_read N zero (items reader count none bytes place) }
{
    let mut items = [zero; N];
    let mut last = None;
    let mut at = place;
    for i in 0..count {
        let (item, next) = match read(at, last) {
            Ok(read) => read,
            Err(fault) => return Read::fault(fault, [zero; N]),
        };
        items[i] = item;
        last = Some(item);
        at = next;
    }
    Read {
        answer: Ok(at),
        value: items,
    }
}

pub(crate) fn read_inputs(
    bytes: &[u8],
    place: usize,
    count: usize,
) -> Read<[Reference; MOST_INPUTS]>
    requires { count ≤ most_inputs }
    ensures { result ≡ items_read most_inputs zero_reference (items read_input count none bytes.now place) }
{
    read_items(
        place,
        count,
        zero_reference(),
        |at, last| read_input(bytes, at, last),
    )
}

pub(crate) fn read_outputs(bytes: &[u8], place: usize, count: usize) -> Read<[Output; MOST_OUTPUTS]>
    requires { count ≤ most_outputs }
    ensures { result ≡ items_read most_outputs zero_output (items read_output count none bytes.now place) }
{
    read_items(
        place,
        count,
        zero_output(),
        |at, last| read_output(bytes, at, last),
    )
}
