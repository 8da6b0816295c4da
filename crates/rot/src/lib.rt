// The step: one event, by the table of rules. What a rule decides is performed here, in place on the arrays of the machine at
// work: the status, the effects, then whom it holds, then where the walk goes.
#![tactic(auto)]

ghost use Rattle.std.specs.Prelude.{ℕ, ◌≡◌, ◌≤◌, ◌<◌};
ghost use Rattle.model.specs.Vocabulary.{named};
ghost use Rattle.components.specs.Chain.{id_at};
ghost use Rattle.components.specs.Tables.{entries, size, Accepted};
ghost use Rattle.machine.specs.View.{stay, core_of, says, Sized, Whole};
ghost use Rattle.machine.specs.Acts.{Does};
ghost use Rattle.holds.specs.Acts.{gating_all};
ghost use Rattle.rules.specs.Entry.{enter_ready, enter_walk, onward};
ghost use Rattle.rules.specs.Corruption.{move_on};
ghost use Rattle.rules.specs.Decided.{decided};
ghost use Rattle.rules.specs.Performed.{said, spoken, keeping, gated, nexts, performed, facts_of, kept_in};
ghost use Rattle.rot.specs.Whom.{whom};
ghost use Rattle.rot.specs.Stepped.{bare, Stepped};

use components::{Chain, HasList};
use machine::Work;
use model::{ComponentId, Effect, Event, State};
use rules::{Decision, Facts, Hold, Kept, Next, Says};
use store::Sink;
use table::BootFailure;

// ---- what a rule is given

// Whom an event is about. For one that names no component the first of the chain stands in: its rule asks for none. No
// Option: the rules of a number are one match (`rules::decide`), so that all are given a component.
fn about(chain: &Chain, event: Event) -> ComponentId
    requires { Accepted chain.now }
    ensures { (result ≡ whom (id_at (entries chain.now) 0) (named event)) × (0 < size chain.now) }
{
    event.component_id().unwrap_or(chain.list.entries[0].id)
}

// What the rule of the event decides for the component `id`, which stands at `place`.
fn decided(
    chain: &Chain,
    max_retry: u8,
    w: &Work,
    event: Event,
    id: ComponentId,
    place: usize,
    rule: u8,
) -> Decision
    requires { (place < size chain.now) × (Sized w.now.rot) }
    ensures { result ≡ decided (facts_of (entries chain.now) max_retry id place (core_of (size chain.now) w.now)) (kept_in place (core_of (size chain.now) w.now)) event rule }
{
    let facts = Facts {
        n: chain.count,
        place,
        id,
        kind: chain.kind_at(place),
        policy: chain.policy_at(place),
        isolated: w.rot.isolated.contains(place),
        cursor: w.rot.cursor,
        max_retry,
    };
    let kept = Kept {
        state: w.state,
        window: w.rot.pending_commit,
        status: w.rot.statuses[place],
    };
    rules::decide(facts, kept, event, rule)
}

// ---- the parts of a decision

// What is kept goes back to where it was.
fn keep(w: &mut Work, place: usize, k: Kept)
    requires { (place < 255) × (Sized w.old.rot) }
    ensures { (n : ℕ) → n ≤ 255 → place < n → Does n w.old (λ c. stay (keeping place k c)) w.new }
{
    w.state = k.state;
    w.rot.pending_commit = k.window;
    w.rot.statuses[place] = k.status;
}

// The effects that a rule's word stands for.
#[tactic(auto, unfolding(machine::specs::View::says))]
fn speak(sink: &mut Sink, what: Says, id: ComponentId, attempt: u8)
    ensures { sink.new ≡ says sink.old (said what id attempt) }
{
    match what {
        Says::Nothing => {}
        Says::Lockdown => sink.emit(Effect::LatchLockdown),
        Says::Attestation => sink.emit(Effect::SignAttestation),
        Says::Deferral => sink.emit(Effect::ReportUpdateDeferred),
        Says::Update => {
            sink.emit(Effect::AuthenticateUpdate);
            sink.emit(Effect::StageUpdate);
        }
        Says::Activation => sink.emit(Effect::ActivateUpdate),
        Says::Discard => sink.emit(Effect::DiscardStaged),
        Says::Commit => sink.emit(Effect::CommitSvnFloor(id)),
        Says::Release => sink.emit(Effect::ReleaseReset(id)),
        Says::Recovery => sink.emit(Effect::RecoverComponent { id, attempt }),
        Says::Preemption => {
            sink.emit(Effect::DiscardStaged);
            sink.emit(Effect::ReportUpdateAborted);
            sink.emit(Effect::RecoverComponent { id, attempt });
        }
        Says::RecoveryFailure => {
            sink.emit(Effect::ReportRecoveryFailed(id));
            sink.emit(Effect::Emit(Event::RecoveryFailed));
        }
    }
}

// The decision's own effects; a boot failure is reported first.
fn say(sink: &mut Sink, id: ComponentId, event: Event, d: Decision)
    ensures { sink.new ≡ says sink.old (spoken id event d) }
{
    if d.reports {
        let BootFailure { checkpoint, kind } = table::boot_failure(event);
        sink.emit(Effect::ReportBootFailed {
            id,
            checkpoint,
            kind,
        });
    }
    speak(sink, d.says, id, d.kept.status.retry);
}

fn hold(chain: &Chain, w: &mut Work, place: usize, hold: Hold)
    requires { (Accepted chain.now) × (place < size chain.now) }
    ensures { Does (size chain.now) w.old (gating_all (entries chain.now) (gated hold (entries chain.now) place)) w.new }
{
    match hold {
        Hold::Nobody => {}
        Hold::Itself => holds::gate_at(chain, w, place),
        Hold::Cascade => holds::gate_cascade(chain, w, place),
    }
}

// ---- where the walk goes

fn enter_ready(chain: &Chain, w: &mut Work)
    requires { Sized w.old.rot }
    ensures { Does (size chain.now) w.old enter_ready w.new }
{
    holds::clear_all_retries(chain, w);
    w.state = State::Ready;
}

// A walk starts with every released component held, so that nothing is verified while it runs.
fn enter_walk(chain: &Chain, w: &mut Work)
    requires { Sized w.old.rot }
    ensures { Does (size chain.now) w.old (enter_walk (entries chain.now)) w.new }
{
    holds::quiesce_all(chain, w);
    holds::advance_to_next_ungated(chain, w, 0);
    w.state = State::PreSupervision;
}

// Advances from p. The walk goes on in the same state, and ends in Ready where none is left.
fn walk_on(chain: &Chain, w: &mut Work, p: usize)
    requires { (p ≤ size chain.now) × (Sized w.old.rot) }
    ensures { Does (size chain.now) w.old (λ c. onward (entries chain.now) p c.state c) w.new }
{
    holds::advance_to_next_ungated(chain, w, p);
    if chain.count <= w.rot.cursor {
        enter_ready(chain, w);
    }
}

// The walk leaves a component that was isolated under its cursor, so that a verdict still on its way releases nothing.
fn move_on(chain: &Chain, w: &mut Work)
    requires { Sized w.old.rot }
    ensures { Does (size chain.now) w.old (move_on (entries chain.now)) w.new }
{
    let cursor = w.rot.cursor;
    if machine::is_gated(&w.rot, chain.count, cursor) {
        walk_on(chain, w, cursor + 1);
    }
}

fn go(chain: &Chain, w: &mut Work, place: usize, next: Next)
    requires { (place < size chain.now) × (Sized w.old.rot) }
    ensures { Does (size chain.now) w.old (nexts next (entries chain.now) place) w.new }
{
    match next {
        Next::Stay => {}
        Next::Onward => walk_on(chain, w, place + 1),
        Next::MoveOn => move_on(chain, w),
        Next::Walk => enter_walk(chain, w),
        Next::Ready => enter_ready(chain, w),
    }
}

// ---- the whole

fn perform(chain: &Chain, w: &mut Work, place: usize, id: ComponentId, event: Event, d: Decision)
    requires { (Accepted chain.now) × (place < size chain.now) × (Sized w.old.rot) }
    ensures { Does (size chain.now) w.old (performed (entries chain.now) place id event d) w.new }
{
    keep(w, place, d.kept);
    say(&mut w.sink, id, event, d);
    hold(chain, w, place, d.hold);
    go(chain, w, place, d.next);
}

// One event on a machine between events, in place: the event's effects are in the sink, and nothing of what the sink held
// before. There are at most 2N+1 effects, so that none is ever dropped. An event that has no rule in this state, or names an id
// outside the chain, does nothing.
pub fn step_in(chain: &Chain, max_retry: u8, w: &mut Work, event: Event)
    requires { (Accepted chain.now) × (Whole w.old) }
    ensures { (Stepped chain.now max_retry (bare w.old.state w.old.rot) event w.new) × (Whole w.new) }
{
    w.sink.effects.len = 0;
    let rule = table::rule_number(w.state, event);
    if rule == table::NO_RULE {
        return;
    }
    let id = about(chain, event);
    let place = chain.position(id);
    if chain.count <= place {
        return;
    }
    let d = decided(chain, max_retry, w, event, id, place, rule);
    perform(chain, w, place, id, event, d);
}

// The same by value.
pub fn step(chain: Chain, max_retry: u8, mut w: Work, event: Event) -> Work
    requires { Accepted chain }
    ensures { Stepped chain max_retry (bare w.state w.rot) event result }
{
    step_in(&chain, max_retry, &mut w, event);
    w
}
