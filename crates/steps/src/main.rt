// Reads lines of numbers and answers each. A line is a case of its own, or a step call on the machine at hand.
//
// A case is a row of numbers: max_retry, n, n entries (id, kind, policy, region, dependency or 256), state, its component
// or 256, cursor, commit window, n statuses (isolated, retry, awaiting_boot, released), event and three numbers of it. The
// answer is what one step makes of it: state, its component or 256, cursor, window, n statuses, the number of effects, and
// four numbers for each effect. A list that is no chain is answered with its refusal's number, place and other place.
//
// A line whose first number is 256 or more is a step call. 256, max_retry, n, n entries: `new`, answered with the number
// and both places. 257 with an event of four numbers: `begin`. 258, 259 with an event, 260: `reply` done, then, failed.
// 261, state, its component or 256, cursor, window, n statuses: the machine at hand is set up so, with nothing waiting,
// left or queued. 262, k, k events of four numbers: `reply` failed; where that is the first failure of its dispatch, these
// events, at most 8, stand in the queue in the place of EffectFailed. A call is answered with its number, the effect (four
// numbers, or 18 0 0 0 for none), state, its component or 256, cursor, window and the number of isolated components; and,
// where no effect waits, the four words of the isolated positions and n statuses. Without a machine every call but `new`
// is answered with 99.
//
// Any byte that is no digit ends a number. A number out of its range is brought into it, so that every line has an answer.
#![tactic(auto)]

ghost use Rattle.std.specs.Prelude.{◌≡◌, false, ◌-◌, ◌≤◌, ◌<◌, drop, replicate};
ghost use Rattle.store.specs.Flags.{flags};
ghost use Rattle.machine.specs.View.{Fit};
ghost use Rattle.settling.specs.View.{Valid};
ghost use Rattle.steps.specs.Hand.{Callable};

use bounded::Bounded;
use components::{Answer, Chain, ComponentList};
use machine::{ComponentStatus, Rot, Work};
use model::{BootFailureKind, Component, ComponentId, Effect, Event, PowerOnResult, State};
use pending::Pending;
use settling::{Dispatch, Machine, Reply};
use sm::Called;
use std::io;
use std::io::{Read, Stdout};
use store::{Isolated, Sink, Status};

// ---- from numbers: `From<u64> for X` may stand only in the crate of X, where numbers that only the comparisons use do not
// belong.

// A part of a line's numbers. What is read of it is told by the place, counted from where the part begins.
#[derive(Clone, Copy)]
struct Part<'a> {
    numbers: &'a [u64],
}

impl Part<'_> {
    // The part that begins at place i. Past the end there are no numbers.
    fn after(self, i: usize) -> Self {
        Part {
            numbers: self.numbers.get(i..).unwrap_or(&[]),
        }
    }

    // The number at place i, and 0 past the end.
    fn number(self, i: usize) -> u64 {
        self.numbers.get(i).copied().unwrap_or(0)
    }

    // The number is brought into a byte, as the head of this file says.
    fn byte(self, i: usize) -> u8 {
        (self.number(i) % 256) as u8
    }

    fn flag(self, i: usize) -> bool {
        self.number(i) == 1
    }

    fn id(self, i: usize) -> ComponentId {
        ComponentId::new(self.byte(i))
    }
}

// A number that is at most `most`.
fn up_to(n: u64, most: usize) -> usize
    ensures { result ≤ most }
{
    (n as usize).min(most)
}

fn component_of(part: Part) -> Component {
    cases::component_of(
        part.number(0),
        part.number(1),
        part.number(2),
        part.number(3),
        part.number(4),
    )
}

// A number of entries, and the entries. Of a list with more than 255, 256 are handed in, so that it is refused as too long.
// No `chunks`: an entry whose numbers are missing counts too, its numbers as 0.
fn list_of(part: Part) -> ComponentList {
    let mut list = ComponentList::new();
    for k in 0..up_to(part.number(0), 256) {
        list = list.push(component_of(part.after(1 + 5 * k)));
    }
    list
}

fn state_of(part: Part) -> State {
    match part.number(0) {
        0 => State::PowerOnReset,
        1 => State::PreSupervision,
        2 => State::AwaitingReady(u8::try_from(part.number(1)).ok().map(ComponentId::new)),
        3 => State::Ready,
        4 => State::Updating,
        5 => State::Recovering(part.id(1)),
        _ => State::Locked,
    }
}

fn power_on_of(n: u64) -> PowerOnResult {
    match n {
        0 => PowerOnResult::Provisioned,
        1 => PowerOnResult::Unprovisioned,
        _ => PowerOnResult::SelfVerificationFailed,
    }
}

fn failure_of(n: u64) -> BootFailureKind {
    match n {
        0 => BootFailureKind::TimedOut,
        1 => BootFailureKind::DeviceRetriable,
        _ => BootFailureKind::DeviceFatal,
    }
}

fn event_of(part: Part) -> Event {
    let id = part.id(1);
    match part.number(0) {
        0 => Event::PowerGood(power_on_of(part.number(1))),
        1 => Event::VerificationPassed(id),
        2 => Event::VerificationFailed(id),
        3 => Event::ComponentReady(id),
        4 => Event::Booted(id),
        5 => Event::AttestationChallenge,
        6 => Event::UpdateRequest,
        7 => Event::UpdateVerified,
        8 => Event::UpdateRejected,
        9 => Event::BootConfirmed(id),
        10 => Event::CorruptionDetected(id),
        11 => Event::Restored(id),
        12 => Event::RecoveryUnavailable(id),
        13 => Event::RecoveryFailed,
        14 => Event::BootFailed {
            id,
            checkpoint: (part.number(2) % 65536) as u16,
            kind: failure_of(part.number(3)),
        },
        15 => Event::Timeout(id),
        16 => Event::CommitTimeout,
        _ => Event::EffectFailed,
    }
}

// The isolated positions of n statuses: none is past the chain.
fn isolated_of(part: Part, n: usize) -> Isolated
    ensures { drop n (flags result) ≡ replicate (256 - n) false }
{
    let mut set = Isolated::new();
    for (p, numbers) in (0..n).zip(part.numbers.chunks(4)) {
        let status = Part { numbers };
        if status.flag(0) {
            set = set.insert(p);
        }
    }
    set
}

// What is stored of n components. What stands past the chain, and a status whose numbers are missing, is that of a new machine.
fn statuses_of(part: Part, n: usize) -> [Status; 255] {
    let mut statuses = [Status::new(); 255];
    for (kept, numbers) in statuses.iter_mut().take(n).zip(part.numbers.chunks(4)) {
        let status = Part { numbers };
        *kept = Status {
            retry: status.byte(1),
            awaiting_boot: status.flag(2),
            released: status.flag(3),
        };
    }
    statuses
}

// What a case's machine keeps: its cursor and window, its n statuses behind them.
fn machine_of(part: Part, n: usize) -> Rot
    ensures { Fit n result }
{
    let statuses = part.after(2);
    Rot {
        statuses: statuses_of(statuses, n),
        isolated: isolated_of(statuses, n),
        cursor: up_to(part.number(0), n),
        pending_commit: part.flag(1),
    }
}

// ---- to numbers: the rows of the comparisons are numbers of several values in a line, so that no `Display` of one type gives
// them. A `usize` goes in by `as`, as in Rust: std has no `From<usize>` for `u64`.

// A line of the output, in fixed memory. The longest answer, of 255 components and 511 effects, has fewer than 10,300 bytes, so
// that there is room for every one.
type Text = Bounded<u8, 16384>;

// One number more, with a space before it where it is not the first of its line.
fn put_number(out: &mut Text, n: u64) {
    if out.count() != 0 {
        out.push(b' ');
    }
    let mut digits = text::empty();
    text::push_decimal(&mut digits, n);
    for &digit in text::bytes(&digits) {
        out.push(digit);
    }
}

fn put(out: &mut Text, numbers: &[u64]) {
    for &n in numbers {
        put_number(out, n);
    }
}

fn id_number(id: ComponentId) -> u64 {
    u64::from(id)
}

// The numbers of a machine: state, its component or 256, cursor, window.
fn machine_numbers(state: State, rot: &Rot) -> [u64; 4] {
    let id = rules::waits_in(state).or(rules::recovers_in(state));
    [
        table::state_no(state) as u64,
        id.map_or(256, id_number),
        rot.cursor as u64,
        u64::from(rot.pending_commit),
    ]
}

fn effect_numbers(e: Effect) -> [u64; 4] {
    match e {
        Effect::ReadFirmware(id) => [0, id_number(id), 0, 0],
        Effect::VerifyFirmware(id) => [1, id_number(id), 0, 0],
        Effect::ReleaseReset(id) => [2, id_number(id), 0, 0],
        Effect::AssertReset(id) => [3, id_number(id), 0, 0],
        Effect::SignAttestation => [4, 0, 0, 0],
        Effect::AuthenticateUpdate => [5, 0, 0, 0],
        Effect::StageUpdate => [6, 0, 0, 0],
        Effect::ActivateUpdate => [7, 0, 0, 0],
        Effect::DiscardStaged => [8, 0, 0, 0],
        Effect::CommitSvnFloor(id) => [9, id_number(id), 0, 0],
        Effect::RecoverComponent { id, attempt } => [10, id_number(id), u64::from(attempt), 0],
        Effect::ReportIsolated(id) => [11, id_number(id), 0, 0],
        Effect::ReportRecoveryFailed(id) => [12, id_number(id), 0, 0],
        Effect::ReportBootFailed {
            id,
            checkpoint,
            kind,
        } => [13, id_number(id), u64::from(checkpoint), kind as u64],
        Effect::ReportUpdateDeferred => [14, 0, 0, 0],
        Effect::ReportUpdateAborted => [15, 0, 0, 0],
        Effect::LatchLockdown => [16, 0, 0, 0],
        Effect::Emit(event) => [17, table::event_no(event) as u64, 0, 0],
    }
}

// The effect that waits, or 18.
fn waiting_numbers(waiting: Option<Effect>) -> [u64; 4] {
    waiting.map_or([18, 0, 0, 0], effect_numbers)
}

fn status_numbers(s: ComponentStatus) -> [u64; 4] {
    [
        s.lifecycle as u64,
        u64::from(s.retry),
        u64::from(s.awaiting_boot),
        u64::from(s.released),
    ]
}

// The line goes out, and the next begins. A write that fails is passed over.
fn end_answer(to: Stdout, out: &mut Text) {
    out.push(b'\n');
    let _ = to.write_all(out.as_slice());
    out.len = 0;
}

fn put_answer(out: &mut Text, a: Answer) {
    put(out, &[a.number, a.place, a.other]);
}

// What a step made: the machine, its statuses, the number of effects, and each of them.
fn put_work(out: &mut Text, w: &Work, n: usize) {
    put(out, &machine_numbers(w.state, &w.rot));
    for p in 0..n {
        put(out, &status_numbers(machine::status_at(&w.rot, n, p)));
    }
    let effects = w.sink.effects.as_slice();
    put(out, &[effects.len() as u64]);
    for &effect in effects {
        put(out, &effect_numbers(effect));
    }
}

// What is read of a machine only at the end of a dispatch: the isolated positions and the statuses.
fn put_rest(out: &mut Text, m: &Machine) {
    put(out, &sm::isolated_words(*m));
    for p in 0..sm::count(*m) {
        put(out, &status_numbers(sm::status(*m, p)));
    }
}

fn put_call(out: &mut Text, called: &Called) {
    let m = &called.machine;
    put(out, &[called.number()]);
    put(out, &waiting_numbers(called.effect));
    put(out, &machine_numbers(sm::state(*m), &m.work.rot));
    put(out, &[sm::isolated_count(*m) as u64]);
    if sm::waiting(*m).is_none() {
        put_rest(out, m);
    }
}

// ---- answers

// One case: the machine that it sets up takes one step.
fn answer_case(out: &mut Text, part: Part) {
    let list = list_of(part.after(1));
    let verdict = list.verdict();
    let Ok(()) = verdict else {
        put_answer(out, Answer::from(verdict));
        return;
    };
    let chain = Chain::of(&list);
    let n = chain.count;
    let machine = part.after(2 + 5 * n);
    let event = machine.after(4 + 4 * n);
    let before = Work {
        state: state_of(machine),
        rot: machine_of(machine.after(2), n),
        sink: Sink::new(),
    };
    let w = rot::step(chain, part.byte(0), before, event_of(event));
    put_work(out, &w, n);
}

// A call that was not refused. By hand: `sm` makes a `Called` of its own calls alone, and this is none of them.
fn called(machine: Machine) -> Called
    ensures { result.machine ≡ machine }
{
    Called {
        machine,
        answer: Ok(()),
        effect: sm::waiting(machine),
    }
}

// The machine at hand in another situation: a comparison starts here where no history leads.
fn set_up(part: Part, m: Machine) -> Machine
    ensures { Valid result }
{
    let n = m.chain.count;
    let rot = machine_of(part.after(2), n);
    Machine {
        chain: m.chain,
        max_retry: m.max_retry,
        work: Work {
            state: state_of(part),
            rot,
            sink: Sink::new(),
        },
        dispatch: Dispatch::new(),
    }
}

// The queue after a failure: the events of the line, at most 8, stand in the place of its front, and behind them those that
// stood behind it, as many as there is room for. A later failure of a dispatch queues nothing, so that nothing is planted there.
// No `chunks`, as in `list_of`: an event whose numbers are missing counts too, its numbers as 0.
fn planted(part: Part, failed_before: bool, latched: Pending) -> Pending {
    if failed_before {
        return latched;
    }
    let mut queue = Pending::new();
    for k in 0..up_to(part.number(0), 8) {
        queue.push_back(event_of(part.after(1 + 4 * k)));
    }
    behind(queue, latched)
}

// The events of the first queue, and behind them those of the second but its front.
fn behind(first: Pending, second: Pending) -> Pending {
    let mut queue = first;
    for event in second.entries.as_slice().iter().skip(1) {
        queue.push_back(*event);
    }
    queue
}

// The waiting effect failed. EffectFailed gives way to the events of the line, so that the machine need not lock: a
// comparison sees here what is queued, lost and handed out after a failure.
fn fail_planted(part: Part, m: Machine) -> Machine
    ensures { Valid result }
{
    let mut dispatch = m.dispatch;
    settling::replied(&mut dispatch, m.work.sink.effects.len, Reply::Failed);
    dispatch.pending = planted(part, m.dispatch.failed, dispatch.pending);
    settling::settle(Machine {
        chain: m.chain,
        max_retry: m.max_retry,
        work: m.work,
        dispatch,
    })
}

// A failed reply whose failure is planted. Where no effect waits it is refused as any reply is.
fn reply_planted(part: Part, m: Machine) -> Called
    ensures { Valid m → Valid result.machine }
{
    if sm::waiting(m).is_none() {
        return sm::reply(m, Reply::Failed);
    }
    called(fail_planted(part, m))
}

// A call on the machine m: what it is called with stands behind its number.
fn call(part: Part, m: Machine) -> Called
    ensures { Valid m → Valid result.machine }
{
    let args = part.after(1);
    match part.number(0) {
        257 => sm::begin(m, event_of(args)),
        258 => sm::reply(m, Reply::Done),
        259 => sm::reply(m, Reply::Then(event_of(args))),
        260 => sm::reply(m, Reply::Failed),
        261 => called(set_up(args, m)),
        _ => reply_planted(args, m),
    }
}

// The machine of a list. A refused list leaves none at hand.
fn answer_new(out: &mut Text, part: Part) -> Option<Machine>
    ensures { Callable result }
{
    let made = sm::new(list_of(part.after(1)), part.byte(0));
    put_answer(out, Answer::from(made.map(|_| ())));
    made.ok()
}

// The line of these numbers is answered; the machine at hand, if there is one, is kept.
fn answer(out: &mut Text, part: Part, kept: Option<Machine>) -> Option<Machine>
    ensures { Callable kept → Callable result }
{
    let kind = part.number(0);
    if kind < 256 {
        answer_case(out, part);
        return kept;
    }
    if kind == 256 {
        return answer_new(out, part.after(1));
    }
    let Some(m) = kept else {
        put(out, &[99]);
        return None;
    };
    let called = call(part, m);
    put_call(out, &called);
    Some(called.machine)
}

// ---- the input

// What is read of the line so far: its numbers, and the one at hand. A case has at most 2305 numbers.
#[derive(Clone, Copy)]
struct Line {
    numbers: Bounded<u64, 2400>,
    number: u64,
}

// One byte more. Any that is no digit ends a number. A number past the room of a line is dropped.
fn read_byte(line: &mut Line, b: u8) {
    if let Some(digit) = char::from(b).to_digit(10) {
        line.number = cases::with_digit(line.number, u64::from(digit));
    } else {
        line.numbers.push(line.number);
        line.number = 0;
    }
}

// The bytes of a chunk, one after the other. Each line is answered as it ends.
fn feed(
    to: Stdout,
    out: &mut Text,
    line: &mut Line,
    chunk: &[u8],
    kept: Option<Machine>,
) -> Option<Machine>
    ensures { Callable kept → Callable result }
{
    let mut hand = kept;
    for &b in chunk {
        read_byte(line, b);
        if b == b'\n' {
            let part = Part {
                numbers: line.numbers.as_slice(),
            };
            hand = answer(out, part, hand);
            end_answer(to, out);
            line.numbers.len = 0;
        }
    }
    hand
}

// At most 4 GiB are read, so that the program ends whatever it is fed.
const MOST: u64 = 4_294_967_296;

// The input comes in chunks, as in `verdicts`.
fn main(rt: HostRuntime) -> io::Result<()> {
    let mut input = rt.stdin().take(MOST);
    let mut out = Text::new(0);
    let mut line = Line {
        numbers: Bounded::new(0),
        number: 0,
    };
    let mut kept = None;
    let mut chunk = [0u8; 65536];
    // A loop that waits on input is a count here, since each loop has to end. `lines` of std would refuse bytes that are no
    // text, and `split` would allocate each line; both would answer a line that is not ended.
    for _ in 0..u64::MAX {
        let n = input.read(&mut chunk)?;
        if n == 0 {
            break;
        }
        kept = feed(rt.stdout(), &mut out, &mut line, &chunk[..n], kept);
    }
    Ok(())
}
