// The machine at work: what is kept of each component, and how one component's status is read.
#![tactic(auto)]

ghost use Rattle.std.specs.Prelude.{◌≡◌};
ghost use Rattle.store.specs.Flags.{flags, flags_of};
ghost use Rattle.machine.specs.Status.{status_at, iso, kept_of};
ghost use Rattle.machine.specs.View.{lifecycle_of, status_of, statuses_of, new_rot};

use model::State;
use store::{Isolated, Sink, Status};

#[derive(Clone, Copy, Debug, PartialEq, Eq)]
pub enum ComponentLifecycle {
    Nominal,
    Isolated,
}

impl From<bool> for ComponentLifecycle {
    ghost from_gives = { λ isolated lifecycle. lifecycle ≡ lifecycle_of isolated };

    fn from(isolated: bool) -> Self {
        if isolated {
            ComponentLifecycle::Isolated
        } else {
            ComponentLifecycle::Nominal
        }
    }
}

// A component's status as the scope names it. Only the isolated set says who is isolated.
#[derive(Clone, Copy, Debug, PartialEq, Eq)]
pub struct ComponentStatus {
    pub lifecycle: ComponentLifecycle,
    pub retry: u8,
    pub awaiting_boot: bool,
    pub released: bool,
}

// What is stored of a component is its status, but for whether it is isolated.
impl From<ComponentStatus> for Status {
    ghost from_gives = { λ seen kept. kept ≡ kept_of seen };

    fn from(s: ComponentStatus) -> Self {
        Status {
            retry: s.retry,
            awaiting_boot: s.awaiting_boot,
            released: s.released,
        }
    }
}

// What the machine keeps between events, beside its state: a status for each place that a chain may have, in fixed memory, since
// no call uses the heap.
#[derive(Clone, Copy)]
pub struct Rot {
    pub statuses: [Status; 255],
    pub isolated: Isolated,
    pub cursor: usize,
    pub pending_commit: bool,
}

impl Rot {
    // What the machine keeps at power-on: every component is new, and the walk has not begun.
    pub fn new() -> Self
        ensures { result ≡ new_rot }
    {
        Rot {
            statuses: [Status::new(); 255],
            isolated: Isolated::new(),
            cursor: 0,
            pending_commit: false,
        }
    }

    // The isolated positions as the C side reads them: position p is bit p mod 64, lowest first, of word p / 64.
    #[tactic(auto, unfolding(store::specs::Flags::flags))]
    pub fn isolated_words(self) -> [u64; 4]
        ensures { (result ≡ self.isolated.words) × (flags_of 64 result ≡ flags self.isolated) }
    {
        self.isolated.words
    }
}

// A machine at work on one event: the effects so far are in the sink. It is 4 KB, so that what changes it is lent it: by value
// each call would clear and copy it.
#[derive(Clone, Copy)]
pub struct Work {
    pub state: State,
    pub rot: Rot,
    pub sink: Sink,
}

// What is stored of a component, with what the set says of it.
fn joined_with(isolated: bool, s: Status) -> ComponentStatus
    ensures { result ≡ status_of isolated s }
{
    ComponentStatus {
        lifecycle: ComponentLifecycle::from(isolated),
        retry: s.retry,
        awaiting_boot: s.awaiting_boot,
        released: s.released,
    }
}

// The status at position p of a chain of n components. Where no component stands it is that of a new one, as was promised.
// n and p go together, as in the definitions (`statuses_of n` at p): a struct of them would be made for each call and taken
// apart in it.
pub fn status_at(rot: &Rot, n: usize, p: usize) -> ComponentStatus
    ensures { result ≡ status_at (statuses_of n rot.now) p }
{
    match rot.statuses.get(p) {
        Some(s) if p < n => joined_with(rot.isolated.contains(p), *s),
        _ => joined_with(false, Status::new()),
    }
}

// Is the component at p isolated?
pub fn is_gated(rot: &Rot, n: usize, p: usize) -> bool
    ensures { result ≡ iso (status_at (statuses_of n rot.now) p) }
{
    status_at(rot, n, p).lifecycle == ComponentLifecycle::Isolated
}
