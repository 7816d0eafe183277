// Transactions and blocks by value, and whether they are shaped as the paper says.
#![tactic(auto)]

ghost use Rattle.std.specs.Iterator.{ActsAs};
ghost use Rattle.std.specs.Prelude.{◌≡◌, ◌≤◌, ◌&&◌, Bool, drop, leb, length, take};
ghost use Rattle.chain.specs.View.{before_struct, good_block, good_transaction, laid_out, no_number, no_output, no_reference, no_transaction, same_struct, view_transaction, zero_number, zero_output, zero_reference, zero_transaction};
ghost use Rattle.rules.specs.Chain.{before_number, before_output, before_reference, same_number, same_output, same_reference, shaped_own, shaped_transaction};
ghost use Rattle.sets.specs.Sets.{all, ascending};
ghost use Rattle.rules.specs.Sizes.{fewest_inputs, largest_amount, most_inputs, most_outputs, most_transactions};

use rules::{
    FEWEST_INPUTS, LARGEST_AMOUNT, MOST_INPUTS, MOST_OUTPUTS, MOST_OWN, MOST_TRANSACTIONS, Number,
    Output, Reference,
};

// A transaction takes the first `takes` inputs and makes the first `makes` outputs; the other places are zero. Arrays with
// counts, as the definitions `view_transaction` and `laid_out` name them; the slices below are what code reads.
#[derive(Clone, Copy, Debug, Default, PartialEq, Eq)]
pub struct Transaction {
    pub number: Number,
    pub inputs: [Reference; MOST_INPUTS],
    pub takes: usize,
    pub outputs: [Output; MOST_OUTPUTS],
    pub makes: usize,
}

// A count past the last place reads as all places.
impl Transaction {
    pub fn inputs(&self) -> &[Reference]
        ensures inputs { result.now ≡ take self.now.takes self.now.inputs }
        ensures most { length result.now ≤ most_inputs }
    {
        &self.inputs[..self.takes.min(MOST_INPUTS)]
    }

    pub fn outputs(&self) -> &[Output]
        ensures outputs { result.now ≡ take self.now.makes self.now.outputs }
        ensures most { length result.now ≤ most_outputs }
    {
        &self.outputs[..self.makes.min(MOST_OUTPUTS)]
    }
}

// A block has the first `count` transactions; the other places are zero: see `view_block` and `laid_out_block`.
#[derive(Clone, Copy, Debug, Default, PartialEq, Eq)]
pub struct Block {
    pub transactions: [Transaction; MOST_TRANSACTIONS],
    pub count: usize,
}

impl Block {
    pub fn transactions(&self) -> &[Transaction]
        ensures transactions { result.now ≡ take self.now.count self.now.transactions }
        ensures most { length result.now ≤ most_transactions }
    {
        &self.transactions[..self.count.min(MOST_TRANSACTIONS)]
    }
}

// The two tests of a transaction number, by its own equality and order. Numbers and references are compared through them, but
// for `==` of whole structs and `binary_search`, of which laws of rules say that they compare the same. So the width of a number
// can change in one place.
#[tactic(auto, unfolding(rules::specs::Chain::same_number))]
pub fn same_number(m: Number, n: Number) -> bool
    ensures { result ≡ same_number m n }
{
    m == n
}

#[tactic(auto, unfolding(rules::specs::Chain::before_number))]
pub fn before_number(m: Number, n: Number) -> bool
    ensures { result ≡ before_number m n }
{
    m < n
}

#[tactic(auto, unfolding(rules::specs::Chain::same_number))]
pub fn no_number(n: Number) -> bool
    ensures { result ≡ no_number n }
{
    n == Number::default()
}

// What an unused place holds: a number, a reference, an output, a transaction.
pub fn zero_number() -> Number
    ensures { result ≡ zero_number }
{
    Number::default()
}

pub fn zero_reference() -> Reference
    ensures { result ≡ zero_reference }
{
    Reference::default()
}

pub fn zero_output() -> Output
    ensures { result ≡ zero_output }
{
    Output::default()
}

pub fn zero_transaction() -> Transaction
    ensures { result ≡ zero_transaction }
{
    Transaction::default()
}

pub fn same_reference(r: Reference, s: Reference) -> bool
    ensures { result ≡ same_reference r s }
{
    same_number(r.number, s.number) && r.index == s.index
}

pub fn before_reference(r: Reference, s: Reference) -> bool
    ensures { result ≡ before_reference r s }
{
    before_number(r.number, s.number) || same_number(r.number, s.number) && r.index < s.index
}

pub fn no_reference(r: Reference) -> bool
    ensures { result ≡ no_reference r }
{
    no_number(r.number) && r.index == 0
}

pub fn same_output(o: Output, p: Output) -> bool
    ensures { result ≡ same_output o p }
{
    o == p
}

pub fn no_output(o: Output) -> bool
    ensures { result ≡ no_output o }
{
    same_output(o, zero_output())
}

// Whether a count fits its places, and nothing stands in the places behind it.
fn ends<T, F: FnMut(&T) -> bool>(places: &[T], count: usize, none: F) -> bool
    requires { F.IsAlwaysCallable none }
    ensures cases { (p : T → Bool) → ActsAs F.FnMut none (λ x. p x.now) → result ≡ (leb count (length places.now) && all p (drop count places.now)) }
{
    count <= places.len() && places[count..].iter().all(none)
}

// Whether the counts fit and nothing stands in an unused place.
#[tactic(auto, unfolding(crate::specs::View::laid_out))]
fn laid_out(t: &Transaction) -> bool
    ensures { result ≡ laid_out t.now }
{
    ends(&t.inputs, t.takes, |r| no_reference(*r)) && ends(&t.outputs, t.makes, |o| no_output(*o))
}

// Whether there are enough inputs, and they ascend.
fn inputs_shaped(inputs: &[Reference]) -> bool
    ensures { result ≡ (leb fewest_inputs (length inputs.now) && ascending before_reference inputs.now) }
{
    FEWEST_INPUTS <= inputs.len() && inputs.is_sorted_by(|a, b| before_reference(*a, *b))
}

// Whether the outputs ascend by index, and none is over the limit.
fn outputs_shaped(outputs: &[Output]) -> bool
    ensures { result ≡ (all (λ o. leb o.amount largest_amount) outputs.now && ascending before_output outputs.now) }
{
    outputs.iter().all(|o| o.amount <= LARGEST_AMOUNT)
        && outputs.is_sorted_by(|a, b| a.index < b.index)
}

// Whether what a transaction takes and makes is shaped.
#[tactic(auto, unfolding(rules::specs::Chain::shaped_transaction))]
fn shaped(t: &Transaction) -> bool
    ensures { result ≡ shaped_transaction (view_transaction t.now) }
{
    inputs_shaped(t.inputs()) && outputs_shaped(t.outputs())
}

// Whether a transaction is laid out and shaped as the paper says.
#[tactic(auto, unfolding(crate::specs::View::good_transaction))]
pub fn good_transaction(t: Transaction) -> bool
    ensures { result ≡ good_transaction t }
{
    laid_out(&t) && shaped(&t)
}

// Whether two transactions have the same content in every place.
pub fn same_transaction(t: Transaction, u: Transaction) -> bool
    ensures { result ≡ same_struct t u }
{
    t == u
}

// Whether a place of a block holds no transaction.
#[tactic(auto, using(crate::specs::ViewLaws::same_struct_zero))]
pub fn no_transaction(t: Transaction) -> bool
    ensures { result ≡ no_transaction t }
{
    same_transaction(t, zero_transaction())
}

// Whether transactions are good, and ascend by number.
fn transactions_good(transactions: &[Transaction]) -> bool
    ensures { result ≡ (all good_transaction transactions.now && ascending before_struct transactions.now) }
{
    transactions.iter().all(|t| good_transaction(*t))
        && transactions.is_sorted_by(|s, t| before_number(s.number, t.number))
}

// Whether a block is laid out and shaped as the paper says.
pub fn good_block(b: Block) -> bool
    ensures { result ≡ good_block b }
{
    ends(&b.transactions, b.count, |t| no_transaction(*t)) && transactions_good(b.transactions())
}

// Whether an own list is not too long and strictly ascending.
#[tactic(auto, unfolding(rules::specs::Chain::shaped_own))]
pub fn good_own(own: &[u32]) -> bool
    ensures { result ≡ shaped_own own.now }
{
    own.len() <= MOST_OWN && own.is_sorted_by(|a, b| a < b)
}
