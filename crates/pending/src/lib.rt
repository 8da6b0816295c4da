// The events that wait to be settled in one dispatch: the source's queue of PENDING_CAP.
#![tactic(auto)]

ghost use Rattle.std.specs.Prelude.{◌≡◌, ◌≤◌, length};
ghost use Rattle.pending.specs.Queue.{events, no_events, first_of, rest, at_back, latched, emits};

use bounded::Bounded;
use model::{Effect, Event};

// The events, the front first.
#[derive(Clone, Copy)]
pub struct Pending {
    pub entries: Bounded<Event, 8>,
}

// The event of an Emit, which is queued and never handed out; any other effect has none.
pub fn emitted_event(effect: Effect) -> Option<Event>
    ensures { result ≡ emits effect }
{
    match effect {
        Effect::Emit(event) => Some(event),
        _ => None,
    }
}

#[tactic(auto, unfolding(crate::specs::Queue::events))]
impl Pending {
    // A queue with no event.
    pub fn new() -> Self
        ensures { result ≡ no_events }
    {
        Pending {
            entries: Bounded::new(Event::EffectFailed),
        }
    }

    // How many events are queued, at most 8.
    pub fn count(&self) -> usize
        ensures { (result ≡ length (events self.now)) × (result ≤ 8) }
    {
        self.entries.count()
    }

    // The event to be settled next.
    pub fn front(&self) -> Option<Event>
        ensures { result ≡ first_of (events self.now) }
    {
        self.entries.as_slice().first().copied()
    }

    // The front event goes. Only the events behind it are moved up, since nearly always there is none.
    pub fn pop_front(&mut self)
        ensures { events self.new ≡ rest (events self.old) }
    {
        let n = self.count();
        if n == 0 {
            return;
        }
        self.entries.items.copy_within(1..n, 0);
        self.entries.len = n - 1;
    }

    // One event more at the back. One that finds 8 is lost.
    pub fn push_back(&mut self, event: Event)
        ensures { events self.new ≡ at_back event (events self.old) }
    {
        self.entries.push(event);
    }

    // EffectFailed goes to the front, so that it settles next. Of 8 events the newest gives way to it.
    pub fn latch(&mut self)
        ensures { events self.new ≡ latched (events self.old) }
    {
        let n = self.count().min(7);
        self.entries.items.copy_within(0..n, 1);
        self.entries.items[0] = Event::EffectFailed;
        self.entries.len = n + 1;
    }
}
