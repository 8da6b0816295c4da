// The step calls: `new` makes a machine for a chain, `begin` begins an event, `reply` answers the effect that waits. The
// machine goes in and comes out by value; nothing is kept elsewhere.
#![tactic(auto)]

ghost use Rattle.std.specs.Prelude.{◌≡◌, map, length, Err};
ghost use Rattle.components.specs.Chain.{entries_of, verdict_of};
ghost use Rattle.store.specs.Flags.{flags_of, flags, trues};
ghost use Rattle.machine.specs.Status.{status_at, iso};
ghost use Rattle.pending.specs.Queue.{events};
ghost use Rattle.settling.specs.View.{view, chain_of, listed, read, Fits, Given};
ghost use Rattle.sm.specs.Calls.{done_by, begin_of, reply_of};
ghost use Rattle.sm.specs.Isolation.{isolation};
ghost use Rattle.sm.specs.Gives.{Fresh, NewGives, CallGives, reported, number_of};

use components::{Chain, ChainError, ComponentList};
use machine::{ComponentStatus, Rot, Work};
use model::{Effect, Event, State};
use settling::{Dispatch, HasParts, Machine, Reply};
use store::{Sink, Status};

// Why a call is refused: no effect waits for the reply, or the earlier event is not done.
#[derive(Clone, Copy, Debug, PartialEq, Eq)]
pub enum CallError {
    NothingWaits,
    NotDone,
}

impl CallError {
    // Document 01's number of a refusal.
    pub fn number(self) -> u64
        ensures { result ≡ number_of (Err self) }
    {
        match self {
            CallError::NothingWaits => 7,
            CallError::NotDone => 10,
        }
    }
}

// What `begin` and `reply` give: the machine, whether the call was refused, and the effect now waiting or none.
#[derive(Clone, Copy)]
pub struct Called {
    pub machine: Machine,
    pub answer: Result<(), CallError>,
    pub effect: Option<Effect>,
}

impl Called {
    // Document 01's number of the call's answer: 0 for a call that was not refused.
    pub fn number(self) -> u64
        ensures { result ≡ number_of self.answer }
    {
        match self.answer {
            Ok(()) => 0,
            Err(error) => error.number(),
        }
    }
}

// The machine of an accepted chain, at power-on. Whoever has a chain that it asked itself makes the machine here: by `new` it would
// be copied once more.
pub fn started(chain: Chain, max_retry: u8) -> Machine
    requires { verdict_of chain.list.len (entries_of chain.list) ≡ (Ok tt) }
    ensures { Fresh chain.list max_retry result }
{
    let rot = Rot::new();
    let sink = Sink::new();
    Machine {
        chain,
        max_retry,
        work: Work {
            state: State::PowerOnReset,
            rot,
            sink,
        },
        dispatch: Dispatch::new(),
    }
}

// Questions 2 to 6 are put to the list; a machine is given only where none refuses.
pub fn new(list: ComponentList, max_retry: u8) -> Result<Machine, ChainError>
    ensures { NewGives list max_retry result }
{
    let chain = Chain::of(&list);
    chain.verdict()?;
    Ok(started(chain, max_retry))
}

// Is the earlier event done, with no effect waiting and the queue empty?
#[tactic(auto, using(crate::proofs::Stepping::done_empty, crate::proofs::Stepping::done_queued))]
fn is_done(d: &Dispatch) -> bool
    ensures { result ≡ done_by d.now.waiting (events d.now.pending) }
{
    d.pending.count() == 0 && d.waiting.is_none()
}

// What a call reports of the machine that it gives back.
fn reported(machine: Machine, answer: Result<(), CallError>) -> Called
    ensures { result ≡ reported machine answer }
{
    Called {
        machine,
        answer,
        effect: machine.dispatch.waiting,
    }
}

// Both calls settle the work where it lies in the machine that they give back, so that a machine is copied only as it comes in and
// goes out. Two fields of a struct cannot be lent at once: the dispatch, which is small, is taken out and put back.

// Begins an event, and settles up to the next effect or the end.
pub fn begin(machine: Machine, event: Event) -> Called
    ensures { CallGives machine (begin_of (chain_of machine) machine.max_retry (view machine) event) result }
{
    if !is_done(&machine.dispatch) {
        return reported(machine, Err(CallError::NotDone));
    }
    let mut m = machine;
    let mut dispatch = machine.dispatch;
    settling::enqueue(&mut dispatch, machine.work.sink.effects.len, event);
    settling::settle_in(
        &machine.chain,
        machine.max_retry,
        &mut m.work,
        &mut dispatch,
    );
    m.dispatch = dispatch;
    reported(m, Ok(()))
}

// Answers the effect that waits, and settles up to the next effect or the end.
pub fn reply(machine: Machine, reply: Reply) -> Called
    ensures { CallGives machine (reply_of (chain_of machine) machine.max_retry (view machine) reply) result }
{
    if machine.dispatch.waiting.is_none() {
        return reported(machine, Err(CallError::NothingWaits));
    }
    let mut m = machine;
    let mut dispatch = machine.dispatch;
    settling::replied(&mut dispatch, machine.work.sink.effects.len, reply);
    settling::settle_in(
        &machine.chain,
        machine.max_retry,
        &mut m.work,
        &mut dispatch,
    );
    m.dispatch = dispatch;
    reported(m, Ok(()))
}

// ---- what users read: of a machine, or of parts of which nothing is known

pub fn state<M: HasParts>(m: M) -> State
    ensures { result ≡ (read (M.parts m)).core.state }
{
    m.work().state
}

// The number of components.
pub fn count<M: HasParts>(m: M) -> usize
    ensures { result ≡ length (listed (M.parts m)) }
{
    m.count()
}

// The status at position p; past the chain that of a new component.
pub fn status<M: HasParts>(m: M, p: usize) -> ComponentStatus
    ensures { result ≡ status_at (read (M.parts m)).core.statuses p }
{
    machine::status_at(&m.work().rot, m.count(), p)
}

// The effect that waits for its reply.
pub fn waiting<M: HasParts>(m: M) -> Option<Effect>
    ensures { result ≡ (read (M.parts m)).waiting }
{
    m.dispatch().waiting
}

// What a machine keeps between events. That an array which is lent has its length is known only once it is seen as a slice.
fn rot_of<M: HasParts>(m: &M) -> &Rot
    ensures { (result.now ≡ (M.parts m.now).work.rot) × (length result.now.statuses ≡ 255) }
{
    let rot = &m.work().rot;
    let statuses: &[Status] = &rot.statuses;
    prove!(statuses.len() == 255);
    rot
}

// The isolated positions: position p is bit p mod 64, lowest first, of word p / 64.
pub fn isolated_words<M: HasParts>(m: M) -> [u64; 4]
    ensures { (result ≡ (M.parts m).work.rot.isolated.words) × Given M.known (Fits (M.parts m)) (flags_of 64 result ≡ isolation (M.parts m)) }
{
    rot_of(&m).isolated_words()
}

// How many components are isolated.
pub fn isolated_count<M: HasParts>(m: M) -> usize
    ensures { (result ≡ trues (flags (M.parts m).work.rot.isolated)) × Given M.known (Fits (M.parts m)) (result ≡ trues (map iso (read (M.parts m)).core.statuses)) }
{
    rot_of(&m).isolated.count()
}
