// A run of a sheet, in small steps: what the next line or the machine does, and then the line that it writes.
#![tactic(auto)]

ghost use Rattle.std.specs.Prelude.{◌≡◌, true, false, ℕ, ◌<◌, ◌≤◌, leb, length, Ok, Err};
ghost use Rattle.model.specs.Vocabulary.{pick};
ghost use Rattle.components.specs.Chain.{id_at};
ghost use Rattle.components.specs.Tables.{entries, size};
ghost use Rattle.machine.specs.Status.{status_at};
ghost use Rattle.machine.specs.View.{statuses_of};
ghost use Rattle.printed.specs.Transcript.{status_line};
ghost use Rattle.text.specs.Lines.{text_of, written, room_after};
ghost use Rattle.settling.specs.Parts.{together, Parts};
ghost use Rattle.driver.specs.Run.{Setting, Point, silent, answering, handed, reading, stage_of, transcript};
ghost use Rattle.driver.specs.Seen.{run_on, Ran};
ghost use Rattle.driver.specs.declared.RunError.TheVariants.{LimitReached};
ghost use Rattle.driver.specs.Plans.{at_start, end_of, stops, answers, answers_by, queues, reads_by, turns, takes, passes, wrote, Stands, Planned, Advanced};

use components::{Chain, HasList};
use lines::Row;
use machine::{Rot, Work};
use model::{Effect, Event};
use reader::Next;
use settling::{Dispatch, Machine, Reply};
use text::Line;

// What a turn of the machine would do. An enum that carries no effect and no event: the definitions (`driver:Run.step_by`) decide
// by the stage alone, and the effect or the event is read where the machine's parts are changed.
#[derive(Clone, Copy)]
pub enum Stage {
    Waits,
    HandsOut,
    Takes,
    Rests,
}

// Where a run stands, beside its machine: the place of the next line in the sheet, and its number; the number of the E line
// at work, or 0; events settled, T lines told, bytes written; and how the run ended, once it has. The 0 of `work` is the
// definitions', which ask whether it is 0; an Option would have to be shown to hold no 0. What is done to a cursor is named
// in the definitions (`passes`, `stops`, `takes`, ..).
#[derive(Clone, Copy)]
pub struct Cursor {
    pub at: usize,
    pub line: usize,
    pub work: usize,
    pub settled: u64,
    pub told: usize,
    pub written: usize,
    pub outcome: Option<Result<(), RunError>>,
}

// Why a run stops before the end of its sheet: no effect waits for the R line with this number, the next line of the
// transcript does not fit, as many events were settled as the limit allows.
#[derive(Clone, Copy, Debug, PartialEq, Eq)]
pub enum RunError {
    NothingWaits(usize),
    NoRoom,
    LimitReached,
}

// How a run ended: its outcome, events settled, bytes written.
#[derive(Clone, Copy)]
pub struct End {
    pub outcome: Result<(), RunError>,
    pub settled: u64,
    pub written: usize,
}

// What a turn would do.
fn due(w: &Work, d: &Dispatch) -> Stage
    ensures { (c : Chain) → result ≡ stage_of (together c w.now d.now) }
{
    if d.waiting.is_some() {
        Stage::Waits
    } else if d.next < w.sink.effects.count() {
        Stage::HandsOut
    } else if 0 < d.pending.count() {
        Stage::Takes
    } else {
        Stage::Rests
    }
}

// One line further. That its number fits is a premise here and in the two that pass a line, since `Stands` gives it of a sheet,
// which none of the three is given.
fn pass(c: &mut Cursor, after: usize)
    requires { c.old.line < 18446744073709551615 }
    ensures { c.new ≡ passes after c.old }
{
    c.at = after;
    c.line += 1;
}

// An effect waits for this line; if it isn't an R line, the reply is ok.
fn answer_row(c: &mut Cursor, next: Next) -> Reply
    requires { c.old.line < 18446744073709551615 }
    ensures { answers result c.new ≡ answers_by c.old next.after next.row }
{
    if let Some(Row::Answer(reply)) = next.row {
        pass(c, next.after);
        return reply;
    }
    Reply::Done
}

// An effect waits for the next line. `Stands` is a premise here and no invariant of a cursor, since it is a fact of a
// cursor and a sheet: a struct of both would be made anew, with its proof, in each of the ways in which a step changes it.
fn answer_by_line(sheet: &[u8], c: &mut Cursor) -> Reply
    requires { Stands sheet.now c.old }
    ensures { (limit n : ℕ) (g : Stage) → Planned sheet.now limit n c.old g (λ (st : Setting) (p : Point). silent (answering p p.rows)) (answers result c.new) }
{
    if sheet.len() <= c.at {
        return Reply::Done;
    }
    // Only an R line answers: any other is not read here, but when its turn comes.
    if sheet[c.at] != b'R' {
        return Reply::Done;
    }
    let next = reader::next_line(sheet, c.at);
    answer_row(c, next)
}

// May the front event be taken? Not where the limit is reached.
fn take(c: &mut Cursor, limit: u64) -> bool
    ensures { turns result c.new ≡ pick (leb limit c.old.settled) (stops (Err LimitReached) c.old) (takes c.old) }
{
    if limit <= c.settled {
        c.outcome = Some(Err(RunError::LimitReached));
        return false;
    }
    c.settled += 1;
    true
}

// This line, with no event at work: the event of an E line is queued, and its number kept.
fn read_row(c: &mut Cursor, next: Next) -> Option<Event>
    requires { c.old.line < 18446744073709551615 }
    ensures { queues result c.new ≡ reads_by c.old next.after next.row }
{
    match next.row {
        Some(Row::Begin(event)) => {
            c.work = c.line;
            pass(c, next.after);
            Some(event)
        }
        Some(Row::Answer(_)) => {
            c.outcome = Some(Err(RunError::NothingWaits(c.line)));
            None
        }
        _ => {
            pass(c, next.after);
            None
        }
    }
}

// The next line, with no event at work.
fn read(sheet: &[u8], c: &mut Cursor) -> Option<Event>
    requires { (Stands sheet.now c.old) × (c.old.at < length sheet.now) }
    ensures { (limit n : ℕ) → Planned sheet.now limit n c.old Stage.Rests (λ (st : Setting) (p : Point). reading st p p.rows) (queues result c.new) }
{
    let next = reader::next_line(sheet, c.at);
    read_row(c, next)
}

// An effect that is handed out has an X line. What follows builds lines in one lent place, by `text`: no `Display` promises
// its text there, and a line by value would be copied at each call.
fn handed_line(l: &mut Line, waiting: Option<Effect>)
    ensures { text_of l.new ≡ transcript (handed waiting) }
{
    match waiting {
        None => text::clear(l),
        Some(effect) => printed::effect_line(l, effect),
    }
}

// The T line of the component at position p.
fn told_line(l: &mut Line, chain: &Chain, rot: &Rot, p: usize)
    requires { p < size chain.now }
    ensures { text_of l.new ≡ status_line (id_at (entries chain.now) p) (status_at (statuses_of (size chain.now) rot.now) p) }
{
    printed::status_line(l, chain.id_at(p), machine::status_at(rot, chain.count, p));
}

// The line is written, or there is no room for it.
fn write_line(out: &mut [u8], c: &mut Cursor, l: &Line)
    ensures { (c.new ≡ wrote c.old (room_after out.old c.old.written (text_of l.now))) × (out.new ≡ written out.old c.old.written (text_of l.now)) }
{
    if let Some(end) = text::append(out, c.written, l) {
        c.written = end;
    } else {
        c.outcome = Some(Err(RunError::NoRoom));
    }
}

// One step of a run, by what is due: it changes the parts of the machine in place, each of them lent by itself, since the loop's
// proof needs them apart. Only a step that has a line writes; of an Emit, which is never handed out, the line has no byte.
fn advance(
    sheet: &[u8],
    out: &mut [u8],
    limit: u64,
    chain: &Chain,
    max_retry: u8,
    w: &mut Work,
    d: &mut Dispatch,
    c: &mut Cursor,
    l: &mut Line,
)
    requires { (Parts chain.now w.old d.old) × (Stands sheet.now c.old) × (c.old.written ≤ length out.old) }
    ensures { (Parts chain.now w.new d.new) × (Advanced sheet.now limit max_retry chain.now (together chain.now w.old d.old) out.old c.old (together chain.now w.new d.new) out.new c.new) }
{
    match due(w, d) {
        Stage::Waits => {
            let reply = answer_by_line(sheet, c);
            settling::replied(d, w.sink.effects.len, reply);
        }
        Stage::HandsOut => {
            settling::hand_next(w, d);
            handed_line(l, d.waiting);
            write_line(out, c, l);
        }
        Stage::Takes => {
            if take(c, limit) {
                settling::turn(chain, max_retry, w, d);
            }
        }
        // The E line is done: an S line.
        Stage::Rests if c.work != 0 => {
            c.work = 0;
            settling::rested(d);
            printed::state_line(l, w.state);
            write_line(out, c, l);
        }
        Stage::Rests if c.at < sheet.len() => {
            if let Some(event) = read(sheet, c) {
                settling::enqueue(d, w.sink.effects.len, event);
            }
        }
        // At the end of the sheet, a T line for each component in chain order.
        Stage::Rests if c.told < chain.count => {
            told_line(l, chain, &w.rot, c.told);
            c.told += 1;
            write_line(out, c, l);
        }
        Stage::Rests => c.outcome = Some(Ok(())),
    }
}

// A run before its first line.
fn start() -> Cursor
    ensures { result ≡ at_start }
{
    Cursor {
        at: 0,
        line: 1,
        work: 0,
        settled: 0,
        told: 0,
        written: 0,
        outcome: None,
    }
}

// How the run of a cursor that goes no further ended.
fn ended(outcome: Result<(), RunError>, c: Cursor) -> End
    ensures { result ≡ end_of outcome c }
{
    End {
        outcome,
        settled: c.settled,
        written: c.written,
    }
}

// The run of a sheet on a machine that was made for it, into a lent buffer: document 01's sheet, buffer and limit, each
// by itself. The parts of the machine that change are lent to what changes them.
pub fn drive(sheet: &[u8], out: &mut [u8], limit: u64, machine: Machine) -> End
    ensures { Ran out.old (run_on sheet.now (length out.old) limit machine) result out.new }
{
    let chain = machine.chain;
    let max_retry = machine.max_retry;
    let mut work = machine.work;
    let mut dispatch = machine.dispatch;
    let mut c = start();
    let mut line = text::empty();
    // A step is as long as its line, and how many there are is not known before: no range or iterator counts them.
    loop {
        if let Some(outcome) = c.outcome {
            return ended(outcome, c);
        }
        advance(
            sheet,
            out,
            limit,
            &chain,
            max_retry,
            &mut work,
            &mut dispatch,
            &mut c,
            &mut line,
        );
    }
}
