// What the board calls: `check` and `run` of a sheet. The crate sheet_c offers the same two to C.
#![tactic(auto)]

ghost use Rattle.std.specs.Prelude.{◌≡◌};
ghost use Rattle.sheet.specs.declared.Refusal.TheVariants.{BadLine, Chain, Run};
ghost use Rattle.sheet.specs.Sheet.{check_of, numbers_of, RunGives};
ghost use Rattle.sheet.specs.Refused.{told, Drives};

use components::{Chain, ChainError};
use driver::{End, RunError};
use reader::{BadSheet, Sheet};
use sm::CallError;

// A number of the scope's questions or 0, its two places, bytes written, events settled: five numbers, as C reads them.
#[repr(C)]
#[derive(Clone, Copy)]
pub struct Answer {
    pub number: u64,
    pub place: u64,
    pub other: u64,
    pub written: u64,
    pub settled: u64,
}

// Why a sheet is not run to its end: question 1, questions 2 to 6, questions 7 to 9.
#[derive(Clone, Copy, Debug, PartialEq, Eq)]
enum Refusal {
    BadLine(usize),
    Chain(ChainError),
    Run(RunError),
}

impl From<BadSheet> for Refusal {
    ghost from_gives = { λ bad refusal. refusal ≡ BadLine bad.line };

    fn from(bad: BadSheet) -> Self {
        Refusal::BadLine(bad.line)
    }
}

impl From<ChainError> for Refusal {
    ghost from_gives = { λ error refusal. refusal ≡ Chain error };

    fn from(error: ChainError) -> Self {
        Refusal::Chain(error)
    }
}

impl From<RunError> for Refusal {
    ghost from_gives = { λ error refusal. refusal ≡ Run error };

    fn from(error: RunError) -> Self {
        Refusal::Run(error)
    }
}

// The five numbers of what came of a call. Question 7 is a reply that nothing waits for: its number is that of the step
// calls. (A `usize` is widened by `as`: no `From` of it for a `u64` is there.)
fn numbers(outcome: Result<(), Refusal>, written: u64, settled: u64) -> Answer
    ensures { result ≡ told outcome written settled }
{
    let (number, place, other) = match outcome {
        Ok(()) => (0, 0, 0),
        Err(Refusal::BadLine(line)) => (1, line as u64, 0),
        Err(Refusal::Chain(error)) => {
            let verdict = components::Answer::from(Err(error));
            (verdict.number, verdict.place, verdict.other)
        }
        Err(Refusal::Run(RunError::NothingWaits(line))) => {
            (CallError::NothingWaits.number(), line as u64, 0)
        }
        Err(Refusal::Run(RunError::NoRoom)) => (8, 0, 0),
        Err(Refusal::Run(RunError::LimitReached)) => (9, 0, 0),
    };
    Answer {
        number,
        place,
        other,
        written,
        settled,
    }
}

// Questions 1 to 6 are put to a sheet.
fn judge(sheet: &[u8]) -> Result<(), Refusal>
    ensures { told result 0 0 ≡ numbers_of (check_of sheet.now) }
{
    let mut read = Sheet::new();
    reader::read_sheet(sheet, &mut read)?;
    Chain::of(&read.list).verdict()?;
    Ok(())
}

// A sheet that none of them refuses is driven to the end of its run. The list's questions are put where its machine is made.
fn drive(sheet: &[u8], out: &mut [u8], limit: u64) -> Result<End, Refusal>
    ensures { Drives sheet.now out.old limit result out.new }
{
    let mut read = Sheet::new();
    reader::read_sheet(sheet, &mut read)?;
    let chain = Chain::of(&read.list);
    chain.verdict()?;
    let machine = sm::started(chain, read.max_retry);
    Ok(driver::drive(sheet, out, limit, machine))
}

// Questions 1 to 6 of a sheet.
pub fn check(sheet: &[u8]) -> Answer
    ensures { result ≡ numbers_of (check_of sheet.now) }
{
    numbers(judge(sheet), 0, 0)
}

// Runs a sheet into a lent buffer: at most `limit` events are settled.
pub fn run(sheet: &[u8], out: &mut [u8], limit: u64) -> Answer
    ensures { RunGives sheet.now out.old limit result out.new }
{
    match drive(sheet, out, limit) {
        Ok(end) => numbers(
            end.outcome.map_err(Refusal::from),
            end.written as u64,
            end.settled,
        ),
        Err(refusal) => numbers(Err(refusal), 0, 0),
    }
}
