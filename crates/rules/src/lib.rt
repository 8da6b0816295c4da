// The rules of section 3, over numbers: what an event makes of the machine is decided from a few facts, and said in a small
// value. No function here takes or gives an array; whoever has the arrays performs what is decided (`rot::step_in`).
#![tactic(auto)]

ghost use Rattle.std.specs.Prelude.{◌≡◌};
ghost use Rattle.machine.specs.Status.{bump};
ghost use Rattle.rules.specs.Walks.{released_in, awaited};
ghost use Rattle.rules.specs.Cases.{recovering};
ghost use Rattle.rules.specs.declared.Says.TheVariants.{Nothing};
ghost use Rattle.rules.specs.Changes.{goes_on, stays, holds, walks, retry_to};
ghost use Rattle.rules.specs.Decided.{locks, powers, attests, defers, updates, verifies, rejects, confirms, commit_times_out, passes, progresses, readies, recovers, fails_verification, following, held_by, corrupts, times_out, failed_by, fails_boot, exhausts, retries, restores, gives_up, recover_says, decided};

use model::{
    BootFailureKind, ComponentId, ComponentKind, Event, FailurePolicy, PowerOnResult, State,
};
use store::Status;

// What a rule only reads: of the chain its length; of the component that the event names all that a rule asks for; the limit of
// retries; where the walk stands. Where the event names no component one of the chain stands in, and no rule asks for it.
#[derive(Clone, Copy)]
pub struct Facts {
    pub n: usize,
    pub place: usize,
    pub id: ComponentId,
    pub kind: ComponentKind,
    pub policy: FailurePolicy,
    pub isolated: bool,
    pub cursor: usize,
    pub max_retry: u8,
}

// What a rule reads and changes by itself: the state, whether the commit window is open, and what is stored of the component.
#[derive(Clone, Copy)]
pub struct Kept {
    pub state: State,
    pub window: bool,
    pub status: Status,
}

// Where a corruption is met: in a walk, while an update is staged, or elsewhere.
#[derive(Clone, Copy, Debug, PartialEq, Eq)]
pub enum Situation {
    Walking,
    Updated,
    Elsewhere,
}

// What a rule says by itself, before any gate and any walk: a word for a list of effects, which `rot::speak` emits. Words,
// since a struct that holds effects is dear to copy and to prove.
#[derive(Clone, Copy, Debug, PartialEq, Eq)]
pub enum Says {
    Nothing,
    Lockdown,
    Attestation,
    Deferral,
    Update,
    Activation,
    Discard,
    Commit,
    Release,
    Recovery,
    Preemption,
    RecoveryFailure,
}

// Who is gated: nobody, the component, or the component and all that depends on it.
#[derive(Clone, Copy, Debug, PartialEq, Eq)]
pub enum Hold {
    Nobody,
    Itself,
    Cascade,
}

// What comes last: nothing; the walk goes on behind the component; it leaves the cursor if that one's component is isolated; it
// starts anew; Ready.
#[derive(Clone, Copy, Debug, PartialEq, Eq)]
pub enum Next {
    Stay,
    Onward,
    MoveOn,
    Walk,
    Ready,
}

// What a rule decides, in the order in which it is performed. `reports` is the report of a boot failure.
#[derive(Clone, Copy)]
pub struct Decision {
    pub kept: Kept,
    pub reports: bool,
    pub says: Says,
    pub hold: Hold,
    pub next: Next,
}

// ---- decisions

fn go(kept: Kept, says: Says, next: Next) -> Decision
    ensures { result ≡ goes_on kept says next }
{
    Decision {
        kept,
        reports: false,
        says,
        hold: Hold::Nobody,
        next,
    }
}

fn say(k: Kept, says: Says) -> Decision
    ensures { result ≡ stays k says }
{
    go(k, says, Next::Stay)
}

// What is kept may have changed; nothing else happens.
fn keep(k: Kept) -> Decision
    ensures { result ≡ stays k Nothing }
{
    say(k, Says::Nothing)
}

fn gate(kept: Kept, hold: Hold, next: Next) -> Decision
    ensures { result ≡ holds kept hold next }
{
    Decision {
        kept,
        reports: false,
        says: Says::Nothing,
        hold,
        next,
    }
}

// The walk starts anew.
fn walk(k: Kept) -> Decision
    ensures { result ≡ walks k }
{
    go(k, Says::Nothing, Next::Walk)
}

// ---- power, attestation and updates

fn lock(k: Kept) -> Decision
    ensures { result ≡ locks k }
{
    say(
        Kept {
            state: State::Locked,
            ..k
        },
        Says::Lockdown,
    )
}

fn power_good(k: Kept, res: PowerOnResult) -> Decision
    ensures { result ≡ powers k res }
{
    match res {
        PowerOnResult::Provisioned => walk(k),
        PowerOnResult::Unprovisioned | PowerOnResult::SelfVerificationFailed => lock(k),
    }
}

fn attestation_challenge(k: Kept) -> Decision
    ensures { result ≡ attests k }
{
    say(k, Says::Attestation)
}

fn update_deferred(k: Kept) -> Decision
    ensures { result ≡ defers k }
{
    say(k, Says::Deferral)
}

fn update_request(k: Kept) -> Decision
    ensures { result ≡ updates k }
{
    say(
        Kept {
            state: State::Updating,
            window: false,
            ..k
        },
        Says::Update,
    )
}

fn update_verified(k: Kept) -> Decision
    ensures { result ≡ verifies k }
{
    go(Kept { window: true, ..k }, Says::Activation, Next::Ready)
}

fn update_rejected(k: Kept) -> Decision
    ensures { result ≡ rejects k }
{
    go(k, Says::Discard, Next::Ready)
}

fn boot_confirmed(k: Kept) -> Decision
    ensures { result ≡ confirms k }
{
    say(Kept { window: false, ..k }, Says::Commit)
}

// Only while an activated update waits for its commit.
fn commit_timeout(k: Kept) -> Decision
    ensures { result ≡ commit_times_out k }
{
    if k.window { lock(k) } else { keep(k) }
}

// ---- verdicts on firmware, and boot progress

// The state of a walk that released a component: an Active one released in PreSupervision is waited for.
fn released_in(state: State, kind: ComponentKind, id: ComponentId) -> State
    ensures { result ≡ released_in state kind id }
{
    match (state, kind) {
        (State::PreSupervision, ComponentKind::Active) => State::AwaitingReady(Some(id)),
        _ => state,
    }
}

// Only the component under the cursor is released: a verdict on any other is stale or out of turn.
fn verification_passed(f: Facts, k: Kept) -> Decision
    ensures { result ≡ passes f k }
{
    if f.place != f.cursor {
        return keep(k);
    }
    let released = Kept {
        state: released_in(k.state, f.kind, f.id),
        window: k.window,
        status: Status {
            retry: 0,
            awaiting_boot: true,
            released: true,
        },
    };
    go(released, Says::Release, Next::Onward)
}

// The component owes no boot progress any more.
fn boot_progress(k: Kept) -> Decision
    ensures { result ≡ progresses k }
{
    let status = Status {
        awaiting_boot: false,
        ..k.status
    };
    keep(Kept { status, ..k })
}

// The component that AwaitingReady waits for.
pub fn waits_in(state: State) -> Option<ComponentId>
    ensures { result ≡ awaited state }
{
    match state {
        State::AwaitingReady(o) => o,
        _ => None,
    }
}

// The readiness that AwaitingReady waits for ends the wait, and the walk where none is left; any other only ends the
// component's own watch.
fn component_ready(f: Facts, k: Kept) -> Decision
    ensures { result ≡ readies f k (awaited k.state) }
{
    let d = boot_progress(k);
    if waits_in(k.state) != Some(f.id) {
        return d;
    }
    if f.cursor < f.n {
        return keep(Kept {
            state: State::AwaitingReady(None),
            ..d.kept
        });
    }
    go(d.kept, Says::Nothing, Next::Ready)
}

// ---- corruption and failures

// The effects of a recovery: an update that it preempts is discarded and answered before.
fn recovery_says(situation: Situation) -> Says
    ensures { result ≡ recover_says situation }
{
    match situation {
        Situation::Updated => Says::Preemption,
        Situation::Walking | Situation::Elsewhere => Says::Recovery,
    }
}

// The component is held while it is restored, and its retry count tells the driver which attempt this is.
fn start_recovery(f: Facts, k: Kept, situation: Situation) -> Decision
    ensures { result ≡ recovers f k situation }
{
    let held = Kept {
        state: State::Recovering(f.id),
        window: false,
        status: k.status.off(),
    };
    say(held, recovery_says(situation))
}

// A verdict on a component that was isolated meanwhile is dropped: the walk skips it anyway.
fn verification_failed(f: Facts, k: Kept) -> Decision
    ensures { result ≡ fails_verification f k }
{
    if f.isolated {
        return keep(k);
    }
    start_recovery(f, k, Situation::Elsewhere)
}

// What follows a corruption after which the state stays: a walk leaves a component that was isolated under its cursor, so that
// a verdict still on its way releases nothing.
fn follow(situation: Situation) -> Next
    ensures { result ≡ following situation }
{
    match situation {
        Situation::Walking => Next::MoveOn,
        Situation::Updated | Situation::Elsewhere => Next::Stay,
    }
}

// Whom a policy gates when its component fails. Corruption and a recovery that is given up both ask this, so that they cannot
// differ.
fn held_by(policy: FailurePolicy) -> Hold
    ensures { result ≡ held_by policy }
{
    match policy {
        FailurePolicy::Required => Hold::Nobody,
        FailurePolicy::Isolable => Hold::Itself,
        FailurePolicy::Cascading => Hold::Cascade,
    }
}

// The corruption rule: nothing for an isolated component; else by its policy.
fn handle_corruption(f: Facts, k: Kept, situation: Situation) -> Decision
    ensures { result ≡ corrupts f k situation }
{
    if f.isolated {
        return go(k, Says::Nothing, follow(situation));
    }
    match held_by(f.policy) {
        Hold::Nobody => start_recovery(f, k, situation),
        hold => gate(k, hold, follow(situation)),
    }
}

// A timeout of a component that owes no boot progress is stale.
fn boot_timeout(f: Facts, k: Kept) -> Decision
    ensures { result ≡ times_out f k }
{
    if !k.status.awaiting_boot {
        return keep(k);
    }
    start_recovery(f, k, Situation::Elsewhere)
}

// A fatal failure is treated as corruption: a component that can be isolated is, with no attempt to recover it.
fn failed_by_kind(f: Facts, k: Kept, kind: BootFailureKind, situation: Situation) -> Decision
    ensures { result ≡ failed_by f k kind situation }
{
    match kind {
        BootFailureKind::TimedOut | BootFailureKind::DeviceRetriable => {
            start_recovery(f, k, situation)
        }
        BootFailureKind::DeviceFatal => handle_corruption(f, k, situation),
    }
}

// Reported, and then by its kind. Of a component that owes no boot progress it is stale.
fn boot_failed(f: Facts, k: Kept, kind: BootFailureKind, situation: Situation) -> Decision
    ensures { result ≡ fails_boot f k kind situation }
{
    if !k.status.awaiting_boot {
        return keep(k);
    }
    Decision {
        reports: true,
        ..failed_by_kind(f, k, kind, situation)
    }
}

// ---- recovery

// The component in recovery.
pub fn recovers_in(state: State) -> Option<ComponentId>
    ensures { result ≡ recovering state }
{
    match state {
        State::Recovering(id) => Some(id),
        _ => None,
    }
}

fn with_retry(k: Kept, retry: u8) -> Kept
    ensures { result ≡ retry_to retry k }
{
    let status = Status { retry, ..k.status };
    Kept { status, ..k }
}

// Recovery is over without success: a component that can be isolated is, and the rest boots. A Required one is reported and
// RecoveryFailed is emitted, which locks once it is settled; until then the state is kept.
fn exhaust_recovery(f: Facts, k: Kept) -> Decision
    ensures { result ≡ exhausts f k }
{
    match held_by(f.policy) {
        Hold::Nobody => say(k, Says::RecoveryFailure),
        hold => gate(with_retry(k, 0), hold, Next::Walk),
    }
}

// One retry more; the count stops at 255.
fn bump_retry(retry: u8) -> u8
    ensures { result ≡ bump retry }
{
    retry.saturating_add(1)
}

// Below the limit the component is tried again.
fn retry(f: Facts, k: Kept) -> Decision
    ensures { result ≡ retries f k }
{
    let counted = with_retry(k, bump_retry(k.status.retry));
    if counted.status.retry < f.max_retry {
        return walk(counted);
    }
    exhaust_recovery(f, counted)
}

fn restored(f: Facts, k: Kept) -> Decision
    ensures { result ≡ restores f k (recovering k.state) }
{
    if recovers_in(k.state) != Some(f.id) {
        return keep(k);
    }
    retry(f, k)
}

fn recovery_unavailable(f: Facts, k: Kept) -> Decision
    ensures { result ≡ gives_up f k (recovering k.state) }
{
    if recovers_in(k.state) != Some(f.id) {
        return keep(k);
    }
    exhaust_recovery(f, k)
}

// ---- by number

// The rule of a number from the table, for the event and the component that it names. The branch is on a number: document 01
// asks for a table of rule numbers.
#[tactic(auto, unfolding(crate::specs::Decided::decisions))]
pub fn decide(f: Facts, k: Kept, event: Event, rule: u8) -> Decision
    ensures { result ≡ decided f k event rule }
{
    match rule {
        table::POWER_GOOD => power_good(k, table::power_on_result(event)),
        table::VERIFICATION_PASSED => verification_passed(f, k),
        table::VERIFICATION_FAILED => verification_failed(f, k),
        table::COMPONENT_READY => component_ready(f, k),
        table::BOOT_PROGRESS => boot_progress(k),
        table::ATTESTATION_CHALLENGE => attestation_challenge(k),
        table::UPDATE_REQUEST => update_request(k),
        table::UPDATE_DEFERRED => update_deferred(k),
        table::UPDATE_VERIFIED => update_verified(k),
        table::UPDATE_REJECTED => update_rejected(k),
        table::BOOT_CONFIRMED => boot_confirmed(k),
        table::CORRUPTION_WALKING => handle_corruption(f, k, Situation::Walking),
        table::CORRUPTION => handle_corruption(f, k, Situation::Elsewhere),
        table::CORRUPTION_UPDATED => handle_corruption(f, k, Situation::Updated),
        table::RESTORED => restored(f, k),
        table::RECOVERY_UNAVAILABLE => recovery_unavailable(f, k),
        table::LOCK => lock(k),
        table::BOOT_FAILED_WALKING => boot_failed(
            f,
            k,
            table::boot_failure(event).kind,
            Situation::Walking,
        ),
        table::BOOT_FAILED => boot_failed(
            f,
            k,
            table::boot_failure(event).kind,
            Situation::Elsewhere,
        ),
        table::BOOT_TIMEOUT => boot_timeout(f, k),
        table::COMMIT_TIMEOUT => commit_timeout(k),
        _ => keep(k),
    }
}
