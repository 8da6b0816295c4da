// Events read from their text: a name, then its fields, each after one tab.
#![tactic(auto)]

ghost use Rattle.std.specs.Prelude.{◌≡◌, [], ◌∷◌, ◌++◌, MatchOption};
ghost use Rattle.std.specs.Str.{IsUtf8};
ghost use Rattle.text.specs.Text.{decimal};
ghost use Rattle.events.specs.Grammar.{event_text, EventInRange, Begins};
ghost use Rattle.events.specs.Read.{plain_event, id_event, power_good, boot_failed, boot_fields, field_event, event_of};

use model::{BootFailureKind, ComponentId, Event, PowerOnResult};

// The bytes as text, so that names are matched as text. A match on byte strings was tried: it is proved byte by byte, which for
// the seven names of plain_event took minutes and left 14 goals open.
fn as_text(f: &[u8]) -> Option<&str>
    ensures { MatchOption result (¬ (IsUtf8 f.now)) (λ s. s.now ≡ f.now) }
{
    str::from_utf8(f).ok()
}

// The events with no field, by their whole text.
#[tactic(auto, using(fields::proofs::Tables::tables), unfolding(crate::specs::Read::plain_event, crate::specs::Read::failure_event))]
fn plain_event(f: &[u8]) -> Option<Event>
    ensures { result ≡ plain_event f.now }
{
    match as_text(f)? {
        "AttestationChallenge" => Some(Event::AttestationChallenge),
        "UpdateRequest" => Some(Event::UpdateRequest),
        "UpdateVerified" => Some(Event::UpdateVerified),
        "UpdateRejected" => Some(Event::UpdateRejected),
        "RecoveryFailed" => Some(Event::RecoveryFailed),
        "CommitTimeout" => Some(Event::CommitTimeout),
        "EffectFailed" => Some(Event::EffectFailed),
        _ => None,
    }
}

// The events whose one field is a component.
#[tactic(auto, using(fields::proofs::Tables::tables), unfolding(crate::specs::Read::id_event, crate::specs::Read::fault_event))]
fn id_event(name: &str, id: ComponentId) -> Option<Event>
    ensures { result ≡ id_event name.now id }
{
    match name {
        "VerificationPassed" => Some(Event::VerificationPassed(id)),
        "VerificationFailed" => Some(Event::VerificationFailed(id)),
        "ComponentReady" => Some(Event::ComponentReady(id)),
        "Booted" => Some(Event::Booted(id)),
        "BootConfirmed" => Some(Event::BootConfirmed(id)),
        "CorruptionDetected" => Some(Event::CorruptionDetected(id)),
        "Restored" => Some(Event::Restored(id)),
        "RecoveryUnavailable" => Some(Event::RecoveryUnavailable(id)),
        "Timeout" => Some(Event::Timeout(id)),
        _ => None,
    }
}

// PowerGood, with the result by its name.
#[tactic(auto, using(fields::proofs::Tables::tables), unfolding(crate::specs::Read::power_good))]
fn power_good(f: &[u8]) -> Option<Event>
    ensures { result ≡ power_good f.now }
{
    match as_text(f)? {
        "Provisioned" => Some(Event::PowerGood(PowerOnResult::Provisioned)),
        "Unprovisioned" => Some(Event::PowerGood(PowerOnResult::Unprovisioned)),
        "SelfVerificationFailed" => Some(Event::PowerGood(PowerOnResult::SelfVerificationFailed)),
        _ => None,
    }
}

// BootFailed, with the failure's kind by its name.
#[tactic(auto, using(fields::proofs::Tables::tables), unfolding(crate::specs::Read::boot_failed))]
fn boot_failed(f: &[u8], id: ComponentId, checkpoint: u16) -> Option<Event>
    ensures { result ≡ boot_failed f.now id checkpoint }
{
    let kind = match as_text(f)? {
        "TimedOut" => BootFailureKind::TimedOut,
        "DeviceRetriable" => BootFailureKind::DeviceRetriable,
        "DeviceFatal" => BootFailureKind::DeviceFatal,
        _ => return None,
    };
    Some(Event::BootFailed {
        id,
        checkpoint,
        kind,
    })
}

// The fields of BootFailed: a component, a checkpoint and a kind.
#[tactic(auto, unfolding(crate::specs::Read::boot_fields))]
fn boot_fields(l: &[u8]) -> Option<Event>
    ensures { result ≡ boot_fields l.now }
{
    let m = fields::rest(l);
    let id = ComponentId(fields::byte(fields::first(l))?);
    let checkpoint = fields::word(fields::first(m))?;
    boot_failed(fields::rest(m), id, checkpoint)
}

// An event with fields: the name tells which these are.
#[tactic(auto, using(fields::proofs::Tables::tables), unfolding(crate::specs::Read::field_event, crate::specs::Read::id_fields))]
fn field_event(name: &[u8], l: &[u8]) -> Option<Event>
    ensures { result ≡ field_event name.now l.now }
{
    match as_text(name)? {
        "PowerGood" => power_good(l),
        "BootFailed" => boot_fields(l),
        name => id_event(name, ComponentId(fields::byte(l)?)),
    }
}

// An event from its text, or none where the text is no event's.
#[tactic(auto, unfolding(crate::specs::Read::event_of))]
pub fn read_event(l: &[u8]) -> Option<Event>
    ensures { result ≡ event_of l.now }
{
    plain_event(l).or_else(|| field_event(fields::first(l), fields::rest(l)))
}

// The event with this text and byte 10, where a text begins with them, and what follows.
#[inline(always)]
fn begins_with<'a, const N: usize>(
    l: &'a [u8],
    line: &[u8; N],
    event: Event,
) -> Option<(Event, &'a [u8])>
    requires { (line.now ≡ event_text event ++ 10 ∷ []) × EventInRange event }
    ensures { MatchOption result (Unit {0}) (λ r. Begins l.now r.0 r.1.now) }
{
    Some((event, fields::behind(l, line)?))
}

// The component behind a name and a tab, ended by byte 10, where a text begins with them, and what follows.
#[inline(always)]
fn begins_about<'a, const N: usize>(l: &'a [u8], name: &[u8; N]) -> Option<(ComponentId, &'a [u8])>
    ensures { MatchOption result (Unit {0}) (λ r. l.now ≡ name.now ++ (decimal r.0.0 ++ 10 ∷ r.1.now)) }
{
    let (id, rest) = fields::ended_byte(fields::behind(l, name)?, b'\n')?;
    Some((ComponentId(id), rest))
}

// Those that begin with one letter, for each letter that more than one has. A later byte tells them apart, so that one name is
// compared.
#[tactic(auto, unfolding(crate::specs::Grammar::event_text))]
fn begins_b(l: &[u8]) -> Option<(Event, &[u8])>
    ensures { MatchOption result (Unit {0}) (λ r. Begins l.now r.0 r.1.now) }
{
    match l.get(4)? {
        b'e' => {
            let (id, rest) = begins_about(l, b"Booted\t")?;
            Some((Event::Booted(id), rest))
        }
        _ => {
            let (id, rest) = begins_about(l, b"BootConfirmed\t")?;
            Some((Event::BootConfirmed(id), rest))
        }
    }
}

#[tactic(auto, unfolding(crate::specs::Grammar::event_text))]
fn begins_c(l: &[u8]) -> Option<(Event, &[u8])>
    ensures { MatchOption result (Unit {0}) (λ r. Begins l.now r.0 r.1.now) }
{
    match l.get(3)? {
        b'm' => begins_with(l, b"CommitTimeout\n", Event::CommitTimeout),
        b'r' => {
            let (id, rest) = begins_about(l, b"CorruptionDetected\t")?;
            Some((Event::CorruptionDetected(id), rest))
        }
        _ => {
            let (id, rest) = begins_about(l, b"ComponentReady\t")?;
            Some((Event::ComponentReady(id), rest))
        }
    }
}

#[tactic(auto, unfolding(crate::specs::Grammar::event_text))]
fn begins_p(l: &[u8]) -> Option<(Event, &[u8])>
    ensures { MatchOption result (Unit {0}) (λ r. Begins l.now r.0 r.1.now) }
{
    match l.get(10)? {
        b'P' => begins_with(
            l,
            b"PowerGood\tProvisioned\n",
            Event::PowerGood(PowerOnResult::Provisioned),
        ),
        b'U' => begins_with(
            l,
            b"PowerGood\tUnprovisioned\n",
            Event::PowerGood(PowerOnResult::Unprovisioned),
        ),
        _ => begins_with(
            l,
            b"PowerGood\tSelfVerificationFailed\n",
            Event::PowerGood(PowerOnResult::SelfVerificationFailed),
        ),
    }
}

#[tactic(auto, unfolding(crate::specs::Grammar::event_text))]
fn begins_r(l: &[u8]) -> Option<(Event, &[u8])>
    ensures { MatchOption result (Unit {0}) (λ r. Begins l.now r.0 r.1.now) }
{
    match l.get(8)? {
        b'\t' => {
            let (id, rest) = begins_about(l, b"Restored\t")?;
            Some((Event::Restored(id), rest))
        }
        b'U' => {
            let (id, rest) = begins_about(l, b"RecoveryUnavailable\t")?;
            Some((Event::RecoveryUnavailable(id), rest))
        }
        _ => begins_with(l, b"RecoveryFailed\n", Event::RecoveryFailed),
    }
}

#[tactic(auto, unfolding(crate::specs::Grammar::event_text))]
fn begins_u(l: &[u8]) -> Option<(Event, &[u8])>
    ensures { MatchOption result (Unit {0}) (λ r. Begins l.now r.0 r.1.now) }
{
    match l.get(8)? {
        b'r' => begins_with(l, b"UpdateVerified\n", Event::UpdateVerified),
        b'q' => begins_with(l, b"UpdateRequest\n", Event::UpdateRequest),
        _ => begins_with(l, b"UpdateRejected\n", Event::UpdateRejected),
    }
}

#[tactic(auto, unfolding(crate::specs::Grammar::event_text))]
fn begins_v(l: &[u8]) -> Option<(Event, &[u8])>
    ensures { MatchOption result (Unit {0}) (λ r. Begins l.now r.0 r.1.now) }
{
    match l.get(12)? {
        b'P' => {
            let (id, rest) = begins_about(l, b"VerificationPassed\t")?;
            Some((Event::VerificationPassed(id), rest))
        }
        _ => {
            let (id, rest) = begins_about(l, b"VerificationFailed\t")?;
            Some((Event::VerificationFailed(id), rest))
        }
    }
}

// The event whose text, ended by byte 10, a text begins with, and what follows: without looking for that byte first, and with
// one compare. A BootFailed is not looked for, so that what is none here may be an event: `read_event` decides.
#[tactic(auto, unfolding(crate::specs::Grammar::event_text))]
pub fn first_event(l: &[u8]) -> Option<(Event, &[u8])>
    ensures { MatchOption result (Unit {0}) (λ r. Begins l.now r.0 r.1.now) }
{
    match l.first()? {
        b'A' => begins_with(l, b"AttestationChallenge\n", Event::AttestationChallenge),
        b'B' => begins_b(l),
        b'C' => begins_c(l),
        b'E' => begins_with(l, b"EffectFailed\n", Event::EffectFailed),
        b'P' => begins_p(l),
        b'R' => begins_r(l),
        b'T' => {
            let (id, rest) = begins_about(l, b"Timeout\t")?;
            Some((Event::Timeout(id), rest))
        }
        b'U' => begins_u(l),
        _ => begins_v(l),
    }
}
