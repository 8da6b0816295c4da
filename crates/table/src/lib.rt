// The table of rules, 7 states by 18 events, and what the rules read of an event.
#![tactic(auto)]

ghost use Rattle.std.specs.Prelude.{◌≡◌, ◌<◌};
ghost use Rattle.table.specs.Table.{state_no, event_no, rule_no};
ghost use Rattle.table.specs.Payload.{power_of, boot_of};

use model::{BootFailureKind, Event, PowerOnResult, State};

// The rules by their numbers. No rule is 0. Document 01 asks for one constant table of rule numbers, so that state, event and
// rule are numbers here; specs/Table.antt says of each what it does.
pub const NO_RULE: u8 = 0;

pub const POWER_GOOD: u8 = 1;

pub const VERIFICATION_PASSED: u8 = 2;

pub const VERIFICATION_FAILED: u8 = 3;

pub const COMPONENT_READY: u8 = 4;

pub const BOOT_PROGRESS: u8 = 5;

pub const ATTESTATION_CHALLENGE: u8 = 6;

pub const UPDATE_REQUEST: u8 = 7;

pub const UPDATE_DEFERRED: u8 = 8;

pub const UPDATE_VERIFIED: u8 = 9;

pub const UPDATE_REJECTED: u8 = 10;

pub const BOOT_CONFIRMED: u8 = 11;

pub const CORRUPTION_WALKING: u8 = 12;

pub const CORRUPTION: u8 = 13;

pub const CORRUPTION_UPDATED: u8 = 14;

pub const RESTORED: u8 = 15;

pub const RECOVERY_UNAVAILABLE: u8 = 16;

pub const LOCK: u8 = 17;

pub const BOOT_FAILED_WALKING: u8 = 18;

pub const BOOT_FAILED: u8 = 19;

pub const BOOT_TIMEOUT: u8 = 20;

pub const COMMIT_TIMEOUT: u8 = 21;

// The rule of each pair: a row for each state and a column for each event, in the order in which the source declares
// them. The columns: PowerGood, VerificationPassed, VerificationFailed, ComponentReady, Booted, AttestationChallenge |
// UpdateRequest, UpdateVerified, UpdateRejected, BootConfirmed, CorruptionDetected, Restored | RecoveryUnavailable,
// RecoveryFailed, BootFailed, Timeout, CommitTimeout, EffectFailed. In numbers, since 126 names would be no table to look at.
const RULES: [[u8; 18]; 7] = [
    // PowerOnReset
    [1, 0, 0, 0, 0, 0, 0, 0, 0, 0, 0, 0, 0, 0, 0, 0, 0, 17],
    // PreSupervision
    [0, 2, 3, 0, 5, 0, 0, 0, 0, 0, 12, 0, 0, 0, 18, 20, 0, 17],
    // AwaitingReady
    [0, 2, 3, 4, 5, 6, 8, 0, 0, 0, 12, 0, 0, 0, 18, 20, 0, 17],
    // Ready
    [0, 0, 0, 5, 5, 6, 7, 0, 0, 11, 13, 0, 0, 0, 19, 20, 21, 17],
    // Updating
    [0, 0, 0, 5, 5, 6, 8, 9, 10, 0, 14, 0, 0, 0, 19, 20, 0, 17],
    // Recovering
    [0, 0, 0, 5, 5, 6, 8, 0, 0, 0, 13, 15, 16, 17, 19, 20, 0, 17],
    // Locked
    [0, 0, 0, 0, 0, 0, 0, 0, 0, 0, 0, 0, 0, 0, 0, 0, 0, 0],
];

// What a boot failure says besides its component.
#[derive(Clone, Copy)]
pub struct BootFailure {
    pub checkpoint: u16,
    pub kind: BootFailureKind,
}

// The row of a state.
pub fn state_no(state: State) -> usize
    ensures { (result ≡ state_no state) × (result < 7) }
{
    match state {
        State::PowerOnReset => 0,
        State::PreSupervision => 1,
        State::AwaitingReady(_) => 2,
        State::Ready => 3,
        State::Updating => 4,
        State::Recovering(_) => 5,
        State::Locked => 6,
    }
}

// The column of an event.
pub fn event_no(event: Event) -> usize
    ensures { (result ≡ event_no event) × (result < 18) }
{
    match event {
        Event::PowerGood(_) => 0,
        Event::VerificationPassed(_) => 1,
        Event::VerificationFailed(_) => 2,
        Event::ComponentReady(_) => 3,
        Event::Booted(_) => 4,
        Event::AttestationChallenge => 5,
        Event::UpdateRequest => 6,
        Event::UpdateVerified => 7,
        Event::UpdateRejected => 8,
        Event::BootConfirmed(_) => 9,
        Event::CorruptionDetected(_) => 10,
        Event::Restored(_) => 11,
        Event::RecoveryUnavailable(_) => 12,
        Event::RecoveryFailed => 13,
        Event::BootFailed { .. } => 14,
        Event::Timeout(_) => 15,
        Event::CommitTimeout => 16,
        Event::EffectFailed => 17,
    }
}

// The number of the rule for a state and an event.
pub fn rule_number(state: State, event: Event) -> u8
    ensures { (result ≡ rule_no state event) × (result < 22) }
{
    RULES[state_no(state)][event_no(event)]
}

// What PowerGood found; Unprovisioned of any other event. No Option, here and in the next: `rules::decide` is promised for each
// number with each event, so that it would have to make up the value.
pub fn power_on_result(event: Event) -> PowerOnResult
    ensures { result ≡ power_of event }
{
    match event {
        Event::PowerGood(result) => result,
        _ => PowerOnResult::Unprovisioned,
    }
}

// The checkpoint and the kind of BootFailed; 0 and TimedOut of any other event.
pub fn boot_failure(event: Event) -> BootFailure
    ensures { result ≡ boot_of event }
{
    match event {
        Event::BootFailed {
            checkpoint,
            kind,
            ..
        } => BootFailure { checkpoint, kind },
        _ => BootFailure {
            checkpoint: 0,
            kind: BootFailureKind::TimedOut,
        },
    }
}
