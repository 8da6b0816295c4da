// What the board calls, for C: `check` and `run` of a sheet.
#![tactic(auto)]

ghost use Rattle.std.specs.Prelude.{◌≡◌};
ghost use Rattle.sheet.specs.Sheet.{check_of, run_of, numbers_of, RunGives};

use sheet::Answer;

// `check` for C.
#[unsafe(no_mangle)]
pub extern "C" fn mallardtray_check(sheet: &[u8]) -> Answer
    ensures { result ≡ numbers_of (check_of sheet.now) }
{
    sheet::check(sheet)
}

// `run` for C.
#[unsafe(no_mangle)]
pub extern "C" fn mallardtray_run(sheet: &[u8], out: &mut [u8], limit: u64) -> Answer
    ensures { RunGives sheet.now out.old limit result out.new }
{
    sheet::run(sheet, out, limit)
}
