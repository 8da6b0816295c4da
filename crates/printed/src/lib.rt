// Effects, states and statuses as lines of a transcript, each built anew in a lent line. Names are written out, since no `Debug` or
// `Display` promises its text in fixed memory.
#![tactic(auto)]

ghost use Rattle.std.specs.Prelude.{◌≡◌, ◌∷◌, ◌≤◌, length};
ghost use Rattle.text.specs.Text.{bytes, ◌⇥◌, line, decimal};
ghost use Rattle.text.specs.Lines.{text_of, Pushed};
ghost use Rattle.printed.specs.Transcript.{lifecycle_text, flag_text, effect_line, state_line, status_line};
ghost use Rattle.text.specs.Values.{id_text, option_text, failure_text};

use machine::{ComponentLifecycle, ComponentStatus};
use model::{BootFailureKind, ComponentId, Effect, State};
use text::Line;

fn push_option(l: &mut Line, id: Option<ComponentId>)
    ensures { Pushed l.old (9 ∷ option_text id) l.new }
{
    match id {
        None => text::push_field(l, b"-"),
        Some(id) => text::push_number(l, u64::from(id)),
    }
}

fn awaiting_line(l: &mut Line, id: Option<ComponentId>)
    ensures { text_of l.new ≡ line (bytes "S" ⇥ bytes "AwaitingReady" ⇥ option_text id) }
{
    text::start(l, b'S', b"AwaitingReady");
    push_option(l, id);
    text::push(l, b'\n');
}

// The line of a state.
#[tactic(auto, using(text::proofs::Laws::whole), unfolding(crate::specs::Transcript::state_line, crate::specs::Transcript::state_text))]
pub fn state_line(l: &mut Line, state: State)
    ensures { text_of l.new ≡ state_line state }
{
    match state {
        State::PowerOnReset => text::name_line(l, b'S', b"PowerOnReset"),
        State::PreSupervision => text::name_line(l, b'S', b"PreSupervision"),
        State::AwaitingReady(id) => awaiting_line(l, id),
        State::Ready => text::name_line(l, b'S', b"Ready"),
        State::Updating => text::name_line(l, b'S', b"Updating"),
        State::Recovering(id) => text::number_line(l, b'S', b"Recovering", u64::from(id)),
        State::Locked => text::name_line(l, b'S', b"Locked"),
    }
}

#[tactic(auto, unfolding(crate::specs::Transcript::lifecycle_text))]
fn push_lifecycle(l: &mut Line, lifecycle: ComponentLifecycle)
    ensures { Pushed l.old (9 ∷ lifecycle_text lifecycle) l.new }
{
    match lifecycle {
        ComponentLifecycle::Nominal => text::push_field(l, b"Nominal"),
        ComponentLifecycle::Isolated => text::push_field(l, b"Isolated"),
    }
}

fn push_flag(l: &mut Line, on: bool)
    ensures { Pushed l.old (9 ∷ flag_text on) l.new }
{
    text::push_number(l, u64::from(on));
}

// The line of a component's status.
pub fn status_line(l: &mut Line, id: ComponentId, status: ComponentStatus)
    ensures { text_of l.new ≡ status_line id status }
{
    text::clear(l);
    text::push(l, b'T');
    text::push_number(l, u64::from(id));
    push_lifecycle(l, status.lifecycle);
    text::push_number(l, u64::from(status.retry));
    push_flag(l, status.awaiting_boot);
    push_flag(l, status.released);
    text::push(l, b'\n');
}

fn id_line(l: &mut Line, name: &[u8], id: ComponentId)
    requires { length name.now ≤ 20 }
    ensures { text_of l.new ≡ line (bytes "X" ⇥ name.now ⇥ id_text id) }
{
    text::number_line(l, b'X', name, u64::from(id));
}

fn recover_line(l: &mut Line, id: ComponentId, attempt: u8)
    ensures { text_of l.new ≡ line (bytes "X" ⇥ bytes "RecoverComponent" ⇥ id_text id ⇥ decimal attempt) }
{
    text::start(l, b'X', b"RecoverComponent");
    text::push_number(l, u64::from(id));
    text::push_number(l, u64::from(attempt));
    text::push(l, b'\n');
}

fn push_cause(l: &mut Line, kind: BootFailureKind)
    ensures { Pushed l.old (9 ∷ failure_text kind) l.new }
{
    match kind {
        BootFailureKind::TimedOut => text::push_field(l, b"TimedOut"),
        BootFailureKind::DeviceRetriable => text::push_field(l, b"DeviceRetriable"),
        BootFailureKind::DeviceFatal => text::push_field(l, b"DeviceFatal"),
    }
}

fn boot_line(l: &mut Line, id: ComponentId, checkpoint: u16, kind: BootFailureKind)
    ensures { text_of l.new ≡ line (bytes "X" ⇥ bytes "ReportBootFailed" ⇥ id_text id ⇥ decimal checkpoint ⇥ failure_text kind) }
{
    text::start(l, b'X', b"ReportBootFailed");
    text::push_number(l, u64::from(id));
    text::push_number(l, u64::from(checkpoint));
    push_cause(l, kind);
    text::push(l, b'\n');
}

// The line of an effect. Emit is never handed out; its line has no text.
#[tactic(auto, using(text::proofs::Laws::whole), unfolding(crate::specs::Transcript::effect_line, crate::specs::Transcript::effect_text))]
pub fn effect_line(l: &mut Line, effect: Effect)
    ensures { text_of l.new ≡ effect_line effect }
{
    match effect {
        Effect::ReadFirmware(id) => id_line(l, b"ReadFirmware", id),
        Effect::VerifyFirmware(id) => id_line(l, b"VerifyFirmware", id),
        Effect::ReleaseReset(id) => id_line(l, b"ReleaseReset", id),
        Effect::AssertReset(id) => id_line(l, b"AssertReset", id),
        Effect::SignAttestation => text::name_line(l, b'X', b"SignAttestation"),
        Effect::AuthenticateUpdate => text::name_line(l, b'X', b"AuthenticateUpdate"),
        Effect::StageUpdate => text::name_line(l, b'X', b"StageUpdate"),
        Effect::ActivateUpdate => text::name_line(l, b'X', b"ActivateUpdate"),
        Effect::DiscardStaged => text::name_line(l, b'X', b"DiscardStaged"),
        Effect::CommitSvnFloor(id) => id_line(l, b"CommitSvnFloor", id),
        Effect::RecoverComponent { id, attempt } => recover_line(l, id, attempt),
        Effect::ReportIsolated(id) => id_line(l, b"ReportIsolated", id),
        Effect::ReportRecoveryFailed(id) => id_line(l, b"ReportRecoveryFailed", id),
        Effect::ReportBootFailed {
            id,
            checkpoint,
            kind,
        } => boot_line(l, id, checkpoint, kind),
        Effect::ReportUpdateDeferred => text::name_line(l, b'X', b"ReportUpdateDeferred"),
        Effect::ReportUpdateAborted => text::name_line(l, b'X', b"ReportUpdateAborted"),
        Effect::LatchLockdown => text::name_line(l, b'X', b"LatchLockdown"),
        Effect::Emit(_) => text::name_line(l, b'X', b""),
    }
}
