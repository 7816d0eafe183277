// The minimum's tables settled: an expected entry that exactly one payment can bring goes into what that payment adds.
ghost use Rattle.std.specs.Prelude.{not, ◌≡◌, ◌≤◌, length};
ghost use Rattle.fixed.specs.Filled.{filled_of};
ghost use Rattle.minimum.specs.Inputs.{no_bring};
ghost use Rattle.minimum.specs.Settling.{SettleFit};
ghost use Rattle.rules.specs.Sizes.{most_references};
ghost use Rattle.sets.specs.Sets.{keep};
ghost use Rattle.tables.specs.Tables.{is_single, settled_rows};

use crate::brings::{self, Brings};
use crate::rows::Rows;
use fixed::Filled;
use rules::MOST_PAYMENTS;
use tables::{Bring, Row};

// Settled tables: the rows, and the brings that are left.
#[derive(Clone, Copy)]
pub(crate) struct Settled {
    pub rows: Rows,
    pub brings: Brings,
}

// Whether exactly one payment can bring the entry.
#[tactic(auto, unfolding(tables::specs::Tables::is_single))]
fn is_single(bring: &Bring) -> bool
    ensures { result ≡ is_single bring.now }
{
    bring.hard.count_ones() == 1 && bring.soft == 0 && bring.owner == 0 && bring.maker == 0
}

// The rows, each raised by what it alone can bring. They come by value, for the loop writes into them, and the clause
// speaks of the rows as they came.
fn settled_rows(mut rows: [Row; MOST_PAYMENTS], brings: &[Bring]) -> [Row; MOST_PAYMENTS]
    requires { SettleFit rows brings.now }
    ensures { result ≡ settled_rows brings.now rows }
{
    for bring in brings {
        if is_single(bring) {
            rows[bring.hard.trailing_zeros() as usize].adds += bring.amount;
        }
    }
    rows
}

// The brings that are not single.
fn kept_brings(brings: &[Bring]) -> Brings
    requires { length brings.now ≤ most_references }
    ensures { result ≡ filled_of most_references no_bring (keep (λ b. not (is_single b)) brings.now) }
{
    let mut left = Brings::none(brings::no_bring());
    for bring in brings {
        if !is_single(bring) {
            left.push(*bring);
        }
    }
    left
}

// Tables settled: rows raised, single brings left out.
pub(crate) fn settle(rows: Rows, brings: &[Bring]) -> Settled
    requires { SettleFit rows.items brings.now }
    ensures { result ≡ record { rows = record { items = settled_rows brings.now rows.items; count = rows.count }; brings = filled_of most_references no_bring (keep (λ b. not (is_single b)) brings.now) } }
{
    Settled {
        rows: Filled {
            items: settled_rows(rows.items, brings),
            count: rows.count,
        },
        brings: kept_brings(brings),
    }
}
