// Lists in fixed memory: no heap, a place for every item from the start.
#![tactic(auto)]

ghost use Rattle.std.specs.Prelude.{[], ◌≡◌, ◌≤◌, length};
ghost use Rattle.fixed.specs.Filled.{filled_of, items_in, with_item, with_items};

/// A list in `N` places: the first `count` hold its items, the others what an unused place holds.
#[derive(Clone, Copy, Debug, PartialEq, Eq)]
pub struct Filled<T, const N: usize> {
    pub items: [T; N],
    pub count: usize,
}

impl<T: Copy, const N: usize> Filled<T, N> {
    /// No item yet.
    pub fn none(unused: T) -> Self
        ensures { result ≡ filled_of N unused [] }
    {
        Filled {
            items: [unused; N],
            count: 0,
        }
    }

    /// The items. A count past the last place reads as all places.
    pub fn as_slice(&self) -> &[T]
        ensures items { result.now ≡ items_in self.now }
        ensures most { length result.now ≤ N }
    {
        &self.items[..self.count.min(N)]
    }

    /// One item more; a full list stays as it is.
    pub fn push(&mut self, item: T)
        ensures { self.new ≡ with_item self.old item }
    {
        if self.count < N {
            self.items[self.count] = item;
            self.count += 1;
        }
    }

    /// More items, one behind the other, as many as there is room for.
    pub fn extend(&mut self, items: &[T])
        ensures { self.new ≡ with_items self.old items.now }
    {
        for item in items {
            self.push(*item);
        }
    }
}
