// Drives a machine of 8 components by step calls: a boot, and then as many updates and as many recoveries as the two numbers on
// standard input say. It prints how many calls it made, and what became of the machine. `bench` does the same with the Rust.
#![tactic(auto)]

use components::ComponentList;
use model::{Component, ComponentAttrs, ComponentId, Effect, Event, PowerOnResult};
use settling::{Machine, Reply};
use std::io;
use std::io::{Read, Stdout};
use text::Line;

// All are Required, Active and Passive in turn. An id is never the number of its position.
fn component(p: u8) -> Component {
    let attrs = if p.is_multiple_of(2) {
        ComponentAttrs::active_required()
    } else {
        ComponentAttrs::passive_required()
    };
    Component { id: id(p), attrs }
}

fn id(p: u8) -> ComponentId {
    ComponentId::new(p ^ 128)
}

fn components() -> ComponentList {
    let mut list = ComponentList::new();
    for p in 0..8 {
        list = list.push(component(p));
    }
    list
}

// What the board says to an effect: firmware that it is to verify passes, what it is to recover is restored, and all else is done.
fn answer_to(effect: Effect) -> Reply {
    match effect {
        Effect::VerifyFirmware(id) => Reply::Then(Event::VerificationPassed(id)),
        Effect::RecoverComponent { id, .. } => Reply::Then(Event::Restored(id)),
        _ => Reply::Done,
    }
}

// An event from its beginning to its end, and the calls that it took. A count of replies, since no contract says after how many
// none waits: a thousand are more than any event here hands out.
fn drive(m: &mut Machine, calls: &mut u64, event: Event) {
    let mut called = sm::begin(*m, event);
    *calls = calls.saturating_add(1);
    for _ in 0..1000 {
        let Some(effect) = called.effect else {
            break;
        };
        called = sm::reply(called.machine, answer_to(effect));
        *calls = calls.saturating_add(1);
    }
    *m = called.machine;
}

fn update(m: &mut Machine, calls: &mut u64, updated: ComponentId) {
    drive(m, calls, Event::UpdateRequest);
    drive(m, calls, Event::UpdateVerified);
    drive(m, calls, Event::BootConfirmed(updated));
}

// The component that a round is about: each in turn.
fn subject(round: u64) -> ComponentId {
    id((round % 8) as u8)
}

// The boot, the updates and the recoveries, and how many calls they took.
fn rounds(m: &mut Machine, updates: u64, recoveries: u64) -> u64 {
    let mut calls = 0;
    drive(m, &mut calls, Event::PowerGood(PowerOnResult::Provisioned));
    for round in 0..updates {
        update(m, &mut calls, subject(round));
    }
    for round in 0..recoveries {
        drive(m, &mut calls, Event::CorruptionDetected(subject(round)));
    }
    calls
}

fn put(out: Stdout, line: &Line) -> io::Result<()> {
    out.write_all(text::bytes(line))
}

// The state, and the status of each component.
fn put_machine(out: Stdout, m: &Machine) -> io::Result<()> {
    let mut line = text::empty();
    printed::state_line(&mut line, sm::state(*m));
    put(out, &line)?;
    for p in 0..8 {
        let status = sm::status(*m, usize::from(p));
        printed::status_line(&mut line, id(p), status);
        put(out, &line)?;
    }
    Ok(())
}

// The next number of a text; 0 where there is none.
fn number(word: Option<&str>) -> u64 {
    word.and_then(|w| w.parse().ok()).unwrap_or(0)
}

fn main(rt: HostRuntime) -> io::Result<()> {
    // One read of a hundred bytes, in fixed memory: two numbers come at once.
    let mut input = [0; 100];
    let n = rt.stdin().read(&mut input)?;
    let mut words = str::from_utf8(&input[..n]).unwrap_or("").split_whitespace();
    let updates = number(words.next());
    let recoveries = number(words.next());
    // The list is accepted.
    let Ok(mut machine) = sm::new(components(), 3) else {
        return Ok(());
    };
    let calls = rounds(&mut machine, updates, recoveries);
    println!(rt; "calls\t{calls}")?;
    put_machine(rt.stdout(), &machine)
}
