// Settling: the machine between and within calls, one turn of it, and turns up to the next effect or the end.
#![tactic(auto)]

ghost use Rattle.std.specs.Prelude.{◌≡◌, true, false, None, ℕ, ◌+◌, ◌<◌, ◌≤◌, drop, length};
ghost use Rattle.store.specs.Sink.{held};
ghost use Rattle.components.specs.Tables.{entries};
ghost use Rattle.pending.specs.Queue.{emits};
ghost use Rattle.settling.specs.Settle.{waiting_is, failed_is, latch, fail, enqueue, replied, hand_out, turn_of, settle};
ghost use Rattle.settling.specs.View.{view, chain_of, Becomes};
ghost use Rattle.settling.specs.Parts.{idle, together, Moves, Taken, Parts, Makes, Rested};

mod parts;
mod whole;

use components::Chain;
use machine::Work;
use model::{Effect, Event};
pub use parts::{HasParts, MachineParts};
use pending::Pending;
pub use whole::Machine;

// The answer to an effect that was handed out: done, done with one event, or failed.
// An enum of its own: document 01 names these three, and a Result<Option<Event>, ()> would read worse.
#[derive(Clone, Copy)]
pub enum Reply {
    Done,
    Then(Event),
    Failed,
}

// What a dispatch keeps, in the source the locals of `dispatch_with`: the place in the batch of the effect that is handed
// out next, the effect that waits for its reply, the queue, and whether the dispatch has failed.
#[derive(Clone, Copy)]
pub struct Dispatch {
    pub next: usize,
    pub waiting: Option<Effect>,
    pub pending: Pending,
    pub failed: bool,
}

impl Dispatch {
    // Nothing waits, is queued or has failed. By name, as `new` of the other types, and no `Default`.
    pub fn new() -> Self
        ensures { result ≡ idle }
    {
        Dispatch {
            next: 0,
            waiting: None,
            pending: Pending::new(),
            failed: false,
        }
    }
}

// What follows are functions of a dispatch that is lent, and no methods: each is named as its definition is. A dispatch goes with
// `len`, the number of effects of its batch. That is the length of the sink: kept in the dispatch too, the two would have to be
// kept equal.

// The first failure in a dispatch: of the batch of `len` effects nothing more is handed out.
fn latch(d: &mut Dispatch, len: usize)
    ensures { Moves len (λ es. latch) d.old d.new }
{
    d.next = len;
    d.pending.latch();
    d.failed = true;
}

// A failed reply. Later failures in the dispatch only end their batch.
fn fail(d: &mut Dispatch, len: usize)
    ensures { Moves len (λ es. fail) d.old d.new }
{
    if d.failed {
        d.next = len;
        return;
    }
    latch(d, len);
}

// An event to the back of the queue. One that finds 8 queued is lost: that is the first failure, if there was none; after
// one, the batch goes on.
pub fn enqueue(d: &mut Dispatch, len: usize, event: Event)
    ensures { Moves len (λ es. enqueue event) d.old d.new }
{
    if d.pending.count() < 8 {
        d.pending.push_back(event);
        return;
    }
    if d.failed {
        return;
    }
    latch(d, len);
}

// The waiting effect is answered; it waits no more.
pub fn replied(d: &mut Dispatch, len: usize, reply: Reply)
    ensures { Moves len (λ es x. replied reply (waiting_is None x)) d.old d.new }
{
    d.waiting = None;
    match reply {
        Reply::Done => {}
        Reply::Then(event) => enqueue(d, len, event),
        Reply::Failed => fail(d, len),
    }
}

// The next effect of the batch: Emit's event is queued, any other effect is handed out.
fn hand_out(d: &mut Dispatch, len: usize, effect: Effect)
    requires { d.old.next < len }
    ensures { Moves len (λ es x. hand_out effect (drop (d.old.next + 1) es) x (emits effect)) d.old d.new }
{
    d.next += 1;
    if let Some(event) = pending::emitted_event(effect) {
        enqueue(d, len, event);
        return;
    }
    d.waiting = Some(effect);
}

// The next effect of a batch that has one more, while none waits.
pub fn hand_next(w: &Work, d: &mut Dispatch)
    requires { (d.old.waiting ≡ None) × (d.old.next < length (held w.now.sink)) × (w.now.sink.effects.len ≤ 512) }
    ensures { (c : Chain) (max : ℕ) → Parts c w.now d.old → Makes c (turn_of (entries c) max (together c w.now d.old)) w.now d.new }
{
    let batch = w.sink.effects.as_slice();
    let effect = batch[d.next];
    hand_out(d, batch.len(), effect);
}

// The front event is taken from the queue; the batch of its effects is not begun.
fn taken(d: &mut Dispatch)
    ensures { Taken d.old d.new }
{
    d.next = 0;
    d.pending.pop_front();
}

// The dispatch has ended, and it counts as failed no more.
pub fn rested(d: &mut Dispatch)
    ensures { (len : ℕ) → Moves len (λ es. failed_is false) d.old d.new }
{
    d.failed = false;
}

// One turn of a machine whose parts are lent, so that none is copied: nothing while an effect waits; else the next effect of
// the batch; else the front event, which is settled; else the dispatch has ended. The step calls and a run have it in common.
pub fn turn(chain: &Chain, max_retry: u8, w: &mut Work, d: &mut Dispatch)
    requires { Parts chain.now w.old d.old }
    ensures { Makes chain.now (turn_of (entries chain.now) max_retry (together chain.now w.old d.old)) w.new d.new }
{
    if d.waiting.is_some() {
        return;
    }
    if d.next < w.sink.effects.count() {
        hand_next(w, d);
        return;
    }
    if let Some(event) = d.pending.front() {
        taken(d);
        rot::step_in(chain, max_retry, w, event);
        return;
    }
    rested(d);
}

// Does a turn change nothing?
fn at_rest(w: &Work, d: &Dispatch) -> bool
    ensures { result ≡ true → Rested w.now d.now }
{
    d.waiting.is_some() || (w.sink.effects.len <= d.next && d.pending.count() == 0 && !d.failed)
}

// Turns up to the next effect or the end, of parts that are lent; none while an effect waits. There are at most 512 effects
// left, 8 events queued, and one turn more: a count, since the definition counts turns too, and a `while` would have to be
// shown to end.
pub fn settle_in(chain: &Chain, max_retry: u8, w: &mut Work, d: &mut Dispatch)
    requires { Parts chain.now w.old d.old }
    ensures { Makes chain.now (settle (entries chain.now) max_retry (together chain.now w.old d.old)).machine w.new d.new }
{
    for _ in 0..521usize {
        if at_rest(w, d) {
            return;
        }
        turn(chain, max_retry, w, d);
    }
}

// The same of a whole machine.
pub fn settle(machine: Machine) -> Machine
    ensures { Becomes machine (settle (chain_of machine) machine.max_retry (view machine)).machine result }
{
    let mut work = machine.work;
    let mut dispatch = machine.dispatch;
    settle_in(&machine.chain, machine.max_retry, &mut work, &mut dispatch);
    Machine {
        chain: machine.chain,
        max_retry: machine.max_retry,
        work,
        dispatch,
    }
}
