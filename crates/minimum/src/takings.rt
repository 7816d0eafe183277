// Of each pending payment, where its inputs stand and what they are worth.
ghost use Rattle.std.specs.List.{slice_get};
ghost use Rattle.std.specs.Option.{is_some, option_map, option_or, unwrap_or};
ghost use Rattle.std.specs.Prelude.{None, map, ◌≡◌, ◌≤◌, length};
ghost use Rattle.chain.specs.View.{view_block};
ghost use Rattle.fixed.specs.Filled.{filled_of};
ghost use Rattle.flat.specs.Flat.{made_in, refs_in};
ghost use Rattle.minimum.specs.Inputs.{input_of, inputs_in, no_input, no_taking, state_of, takings_of};
ghost use Rattle.minimum.specs.Standing.{stood};
ghost use Rattle.rules.specs.Chain.{spent};
ghost use Rattle.rules.specs.Sizes.{most_inputs, most_payments, most_references};

use crate::Sets;
use fixed::Filled;
use flat::{Made, Refs};
use rules::{MOST_INPUTS, MOST_PAYMENTS, MOST_REFERENCES, Number, Reference};

// An input: its reference, its worth (0 where it stands nowhere), and whether it stands in the UTxO, in expected, and
// among the outputs of pending payments.
#[derive(Clone, Copy, Default)]
pub(crate) struct Input {
    pub reference: Reference,
    pub amount: u64,
    pub utxo: bool,
    pub expected: bool,
    pub made: bool,
}

// What an unused place holds.
fn no_input() -> Input
    ensures { result ≡ no_input }
{
    Input::default()
}

// A payment's number and its inputs.
#[derive(Clone, Copy)]
pub(crate) struct Taking {
    pub number: Number,
    pub inputs: Filled<Input, MOST_INPUTS>,
}

impl Taking {
    pub(crate) fn inputs(&self) -> &[Input]
        ensures inputs { result.now ≡ inputs_in self.now }
        ensures most { length result.now ≤ most_inputs }
    {
        self.inputs.as_slice()
    }
}

pub(crate) type Takings = Filled<Taking, MOST_PAYMENTS>;

// Of each of some references the amount under it in a list of entries, if it stands there.
type Amounts = Filled<Option<u64>, MOST_REFERENCES>;

type Inputs = Filled<Input, MOST_REFERENCES>;

// The amount at a place, if there is an entry.
fn amount_at(made: &Made, place: usize) -> Option<u64>
    ensures { result ≡ option_map (λ e. e.amount) (slice_get (made_in made.now) place) }
{
    made.as_slice().get(place).map(|entry| entry.amount)
}

// One search for all of the references.
fn amounts_of(refs: Refs, made: Made) -> Amounts
    ensures { result ≡ filled_of most_references None (map (stood (made_in made)) (refs_in refs)) }
{
    let mut amounts = Amounts::none(None);
    for place in flat::sought(refs, flat::made_refs(made)).as_slice() {
        amounts.push(amount_at(&made, *place));
    }
    amounts
}

// The first of the UTxO, expected and the own outputs of pending payments that has an input says what it is worth.
fn input_of(
    reference: Reference,
    utxo: Option<u64>,
    expected: Option<u64>,
    own: Option<u64>,
    made: bool,
) -> Input
    ensures { result ≡ record { reference = reference; amount = unwrap_or (option_or (option_or utxo expected) own) 0; utxo = is_some utxo; expected = is_some expected; made = made } }
{
    Input {
        reference,
        amount: utxo.or(expected).or(own).unwrap_or(0),
        utxo: utxo.is_some(),
        expected: expected.is_some(),
        made,
    }
}

// The inputs of all pending payments, one payment's after another's.
fn inputs_of(sets: &Sets) -> Inputs
    ensures { result ≡ filled_of most_references no_input (map (input_of sets.now.own.now (state_of sets.now.utxo sets.now.expected sets.now.pending)) (spent (view_block sets.now.pending))) }
{
    let slots = flat::spent_of(sets.pending);
    let made = flat::made_of(sets.pending);
    let in_utxo = amounts_of(slots, sets.utxo);
    let in_expected = amounts_of(slots, sets.expected);
    let in_own = amounts_of(slots, flat::own_of(made, sets.own));
    let is_made = flat::found(slots, flat::made_refs(made));
    let mut inputs = Inputs::none(no_input());
    // by the place: a zip of five lists would nest its pairs four deep
    for (i, reference) in slots.as_slice().iter().enumerate() {
        inputs.push(input_of(
            *reference,
            in_utxo.items[i],
            in_expected.items[i],
            in_own.items[i],
            is_made.items[i],
        ));
    }
    inputs
}

// A payment's inputs in places of their own.
fn taking_of(number: Number, inputs: &[Input]) -> Taking
    requires { length inputs.now ≤ most_inputs }
    ensures { result ≡ record { number = number; inputs = filled_of most_inputs no_input inputs.now } }
{
    let mut places = Filled::none(no_input());
    places.extend(inputs);
    Taking {
        number,
        inputs: places,
    }
}

// The inputs of each pending payment.
pub(crate) fn takings(sets: &Sets) -> Takings
    ensures { result ≡ filled_of most_payments no_taking (takings_of sets.now.own.now (state_of sets.now.utxo sets.now.expected sets.now.pending)) }
{
    let inputs = inputs_of(sets);
    let mut rest = inputs.as_slice();
    let mut takings = Takings::none(taking_of(chain::zero_number(), &[]));
    for payment in sets.pending.transactions() {
        let (these, others) = rest.split_at(payment.inputs().len());
        takings.push(taking_of(payment.number, these));
        rest = others;
    }
    takings
}
