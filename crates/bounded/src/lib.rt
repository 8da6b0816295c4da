// A list in fixed memory: an array, and how many of its first places are taken. It is a value like any other and is copied.
#![tactic(auto)]

ghost use Rattle.std.specs.Prelude.{◌≡◌, ◌≤◌, length};
ghost use Rattle.bounded.specs.Items.{items_of, no_items, appended};

// The items are the first `len` of the array. What stands behind them means nothing. A length over N counts as N, so that
// no caller has to show anything. A ghost field that says that there is none over N was tried, and proved, its Clone
// written by hand; but each definition that makes a list, or one list of another, would carry its proof. The fields are
// open: what one caller does to a list (a queue is shifted, a line takes many bytes at once, a sink is emptied) it does in
// place and is no method here. The kit's `ArrayVec` is no Copy, and a machine, which holds such lists, goes in and out by
// value.
#[derive(Clone, Copy)]
pub struct Bounded<T, const N: usize> {
    pub items: [T; N],
    pub len: usize,
}

impl<T: Copy, const N: usize> Bounded<T, N> {
    // A list with no item. `filler` stands in the array.
    pub fn new(filler: T) -> Self
        ensures { result ≡ no_items filler }
    {
        Bounded {
            items: [filler; N],
            len: 0,
        }
    }

    // How many items there are, at most N.
    pub fn count(&self) -> usize
        ensures { (result ≡ length (items_of self.now)) × (result ≤ N) }
    {
        self.len.min(N)
    }

    // The items.
    pub fn as_slice(&self) -> &[T]
        ensures { result.now ≡ items_of self.now }
    {
        &self.items[..self.count()]
    }

    // One item more. A full list stays as it is. That the array has N places a caller to whom the list is lent knows from here.
    #[tactic(auto, unfolding(crate::specs::Items::appended))]
    pub fn push(&mut self, item: T)
        ensures { (self.new ≡ appended self.old item) × (length self.old.items ≡ N) }
    {
        if self.len < N {
            self.items[self.len] = item;
            self.len += 1;
        }
    }
}
