// A worked example of the step calls: a blade of four cards boots, recovers a card, isolates two and takes an update.
// Every effect is printed as it is handed out, and the state when its event is done.
#![tactic(auto)]

ghost use Rattle.settling.specs.View.{Valid};

use components::ComponentList;
use model::{Component, ComponentAttrs, ComponentId, Effect, Event, PowerOnResult};
use settling::{Machine, Reply};
use sm::Called;
use std::io::Stdout;
use text::Line;

// A write that fails is passed over, here and below: the blade goes on, whether somebody reads along or not.
fn put(out: Stdout, line: &Line) {
    let _ = out.write_all(text::bytes(line));
}

// A refused call, with document 01's number.
fn put_refusal(out: Stdout, name: &str, called: Called) {
    let _ = println!(out; "{name}\t{}", called.number());
}

// The output and the machine go side by side from here on. To keep them together would take a `&mut` of a struct, and each
// function would name its two fields for what are two arguments.
fn put_state(out: Stdout, m: Machine) {
    let mut line = text::empty();
    printed::state_line(&mut line, sm::state(m));
    put(out, &line);
}

fn put_isolated(out: Stdout, m: Machine) {
    let words = sm::isolated_words(m);
    let _ = println!(out; "isolated\t{}\t{}", sm::isolated_count(m), words[0]);
}

// What the board says to an effect: firmware that it is to verify passes, and all else is done.
fn answer_to(effect: Effect) -> Reply {
    match effect {
        Effect::VerifyFirmware(id) => Reply::Then(Event::VerificationPassed(id)),
        _ => Reply::Done,
    }
}

// Answers one effect after the other until none waits. A count, since no contract says after how many replies none waits, so
// that a `while let` could not be shown to end: a thousand are more than any event here hands out.
fn finish(out: Stdout, m: Machine) -> Machine
    ensures { Valid m → Valid result }
{
    let mut v = m;
    let mut line = text::empty();
    for _ in 0..1000 {
        let Some(effect) = sm::waiting(v) else {
            break;
        };
        printed::effect_line(&mut line, effect);
        put(out, &line);
        v = sm::reply(v, answer_to(effect)).machine;
    }
    v
}

// An event from its beginning to its end.
fn drive(out: Stdout, m: Machine, event: Event) -> Machine
    ensures { Valid m → Valid result }
{
    let begun = sm::begin(m, event).machine;
    let v = finish(out, begun);
    put_state(out, v);
    v
}

// An event is begun and its first effect left waiting: another begin is refused, and so is a reply once all is done.
fn refuse(out: Stdout, m: Machine) -> Machine
    ensures { Valid m → Valid result }
{
    let begun = sm::begin(m, Event::AttestationChallenge).machine;
    let early = sm::begin(begun, Event::UpdateRequest);
    put_refusal(out, "begin", early);
    let v = finish(out, early.machine);
    let late = sm::reply(v, Reply::Done);
    put_refusal(out, "reply", late);
    late.machine
}

fn card(id: u8, attrs: ComponentAttrs) -> Component {
    Component {
        id: ComponentId::new(id),
        attrs,
    }
}

// Card 4 depends on card 3, which takes its dependents with it.
fn cards() -> ComponentList {
    let last = ComponentAttrs::passive_isolable().with_depends_on(ComponentId::new(3));
    ComponentList::new()
        .push(card(1, ComponentAttrs::active_required()))
        .push(card(2, ComponentAttrs::passive_isolable()))
        .push(card(3, ComponentAttrs::active_cascading()))
        .push(card(4, last))
}

// Boot, a recovery, an isolation, an update.
fn shift(out: Stdout, m: Machine) {
    let one = ComponentId::new(1);
    let three = ComponentId::new(3);
    let m = drive(out, m, Event::PowerGood(PowerOnResult::Provisioned));
    let m = drive(out, m, Event::Timeout(one));
    let m = drive(out, m, Event::Restored(one));
    let m = drive(out, m, Event::Booted(one));
    let m = drive(out, m, Event::CorruptionDetected(three));
    put_isolated(out, m);
    let m = drive(out, m, Event::UpdateRequest);
    let m = drive(out, m, Event::UpdateVerified);
    let m = drive(out, m, Event::BootConfirmed(one));
    let m = refuse(out, m);
    put_state(out, m);
}

// The chain is accepted: else there is no machine, and nothing to run.
fn main(rt: HostRuntime) {
    if let Ok(machine) = sm::new(cards(), 3) {
        shift(rt.stdout(), machine);
    }
}
