// Holds: the gate, the order of a cascade and its gates, the walk's next component, and what is done to every component. All
// work in place on the machine that they are lent: by value it would be cleared and copied at each call.
#![tactic(auto)]

ghost use Rattle.std.specs.Prelude.{[], ◌++◌, ◌≡◌, ◌+◌, ◌≤◌, ◌<◌, length};
ghost use Rattle.components.specs.Chain.{entries_of};
ghost use Rattle.components.specs.Tables.{entries, size, Accepted};
ghost use Rattle.machine.specs.View.{Sized};
ghost use Rattle.machine.specs.Acts.{Does};
ghost use Rattle.holds.specs.Acts.{gating, gating_all, advancing, stopping, quieting_all, clearing};
ghost use Rattle.holds.specs.Cascade.{below, cascade};
ghost use Rattle.holds.specs.Order.{listed};
ghost use Rattle.holds.specs.Dependents.{dependents, Lists};

use bounded::Bounded;
use components::{Chain, HasList};
use machine::Work;
use model::Effect;

// ---- the gate

// The gate at p: the component is isolated, its flags go off and its retry count is kept; it is held in reset, and
// reported. One that is isolated already was reported then, so a cascade that comes to it again says nothing.
// (The status is read first: from that the proof knows how long the array is, on both ways. That the place is within it is known
// by the list's size, at most 255.)
pub fn gate_at<L: HasList>(chain: &L, w: &mut Work, p: usize)
    requires { p < length (entries_of (L.list_of chain.now)) }
    ensures { Does (length (entries_of (L.list_of chain.now))) w.old (gating (entries_of (L.list_of chain.now)) p) w.new }
{
    let n = chain.size();
    prove!(p < n);
    let held = w.rot.statuses[p].off();
    if w.rot.isolated.contains(p) {
        return;
    }
    w.rot.isolated = w.rot.isolated.insert(p);
    w.rot.statuses[p] = held;
    let id = chain.id_at(p);
    w.sink.emit(Effect::AssertReset(id));
    w.sink.emit(Effect::ReportIsolated(id));
}

// ---- a cascade

// Positions of a chain, in order.
#[derive(Clone, Copy)]
pub struct Order {
    pub places: Bounded<u8, 255>,
}

// Behind the others, in chain order, those of the first `n` positions whose dependency stands at `holder`. A dependency
// stands strictly earlier than what depends on it, so that nothing up to the holder has to be compared. That the order's
// length is that of its list is asked here, since a `Bounded` may have any length. The loop is over places and not over the
// table, since the place is what is listed; it fits a byte, as the root's does, since a chain has at most 255 components.
fn put_dependents(order: &mut Order, parents: &[u8; 255], n: usize, holder: u8)
    requires { (n ≤ 255) × (holder < n) × (dependents parents.now holder (below (holder + 1)) ≡ []) × (order.old.places.len ≡ length (listed order.old)) × (length (listed order.old ++ dependents parents.now holder (below n)) ≤ 255) }
    ensures { Lists (listed order.old ++ dependents parents.now holder (below n)) order.new }
{
    for p in usize::from(holder) + 1..n {
        if parents[p] == holder {
            order.places.push(p as u8);
        }
    }
}

// The order in which a cascade from the component at `root` gates: a queue that starts with it, and each position taken from
// its front puts its direct dependents at its end. Only the table of dependency positions is compared, and nothing
// is looked up in the order: in an accepted chain a component has one dependency, which stands strictly earlier, so
// none is reached twice.
fn cascade_order(chain: &Chain, root: usize) -> Order
    requires { (Accepted chain.now) × (root < size chain.now) }
    ensures { Lists (cascade (entries chain.now) root) result }
{
    let n = chain.count;
    let mut order = Order {
        places: Bounded::new(0),
    };
    order.places.push(root as u8);
    // No `for` fits: the queue grows under the loop, so that its end is not known when the loop begins.
    let mut k = 0;
    while k < order.places.len {
        let holder = order.places.items[k];
        put_dependents(&mut order, &chain.parents, n, holder);
        k += 1;
    }
    order
}

// The gate at each position of the cascade from p, in order. (The byte is widened by `as`, which is the same number to the
// proof.)
pub fn gate_cascade(chain: &Chain, w: &mut Work, p: usize)
    requires { (Accepted chain.now) × (p < size chain.now) }
    ensures { Does (size chain.now) w.old (gating_all (entries chain.now) (cascade (entries chain.now) p)) w.new }
{
    let order = cascade_order(chain, p);
    for q in order.places.as_slice() {
        gate_at(chain, w, *q as usize);
    }
}

// ---- the walk

// The cursor goes to the first component from p on that is not isolated. Its firmware is read and verified next; where
// there is none the chain has ended.
pub fn advance_to_next_ungated<L: HasList>(chain: &L, w: &mut Work, p: usize)
    requires { (p ≤ length (entries_of (L.list_of chain.now))) × (Sized w.old.rot) }
    ensures { Does (length (entries_of (L.list_of chain.now))) w.old (advancing (entries_of (L.list_of chain.now)) p) w.new }
{
    let n = chain.size();
    let next = w.rot.isolated.next_free(p, n);
    w.rot.cursor = next;
    if next < n {
        let id = chain.id_at(next);
        w.sink.emit(Effect::ReadFirmware(id));
        w.sink.emit(Effect::VerifyFirmware(id));
    }
}

// ---- quiescing

// A component that runs is held in reset, and both its flags go off.
fn quiet_one<L: HasList>(chain: &L, w: &mut Work, p: usize)
    requires { (p < length (entries_of (L.list_of chain.now))) × (length (entries_of (L.list_of chain.now)) ≤ 255) × (Sized w.old.rot) }
    ensures { Does (length (entries_of (L.list_of chain.now))) w.old (stopping (entries_of (L.list_of chain.now)) p) w.new }
{
    w.rot.statuses[p] = w.rot.statuses[p].off();
    w.sink.emit(Effect::AssertReset(chain.id_at(p)));
}

// Nothing runs any more: in chain order every released component is held in reset. The others are in reset already, and are
// passed over here.
pub fn quiesce_all<L: HasList>(chain: &L, w: &mut Work)
    requires { Sized w.old.rot }
    ensures { Does (length (entries_of (L.list_of chain.now))) w.old (quieting_all (entries_of (L.list_of chain.now))) w.new }
{
    for p in 0..chain.size() {
        if w.rot.statuses[p].released {
            quiet_one(chain, w, p);
        }
    }
}

// Entering Ready: the retry count of every component starts again. What is stored past the chain nobody reads, and it stays.
pub fn clear_all_retries<L: HasList>(chain: &L, w: &mut Work)
    requires { Sized w.old.rot }
    ensures { Does (length (entries_of (L.list_of chain.now))) w.old clearing w.new }
{
    let n = chain.size();
    store::clear_retries(&mut w.rot.statuses[..n]);
}
