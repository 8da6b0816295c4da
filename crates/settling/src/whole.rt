// The machine of the step calls, within and between calls.

ghost use Rattle.std.specs.Prelude.{◌≤◌, length};
ghost use Rattle.components.specs.Tables.{size, Accepted};
ghost use Rattle.machine.specs.View.{Fit};
ghost use Rattle.pending.specs.Queue.{events};

use crate::Dispatch;
use components::Chain;
use machine::Work;

// The effects of the batch are those in the sink of the work. What a dispatch keeps is a part by itself, so that what settles
// no event need take and give this part alone. Of every machine it is known that its chain is accepted, that nothing past the
// chain is isolated and the cursor is within it or at its end, and that there are at most 512 effects and 8 events.
#[derive(Clone, Copy)]
pub struct Machine {
    pub chain: Chain,
    pub max_retry: u8,
    pub work: Work,
    pub dispatch: Dispatch,
    pub ghost accepted: { Accepted chain },
    pub ghost fit: { Fit (size chain) work.rot },
    pub ghost room: { work.sink.effects.len ≤ 512 },
    pub ghost few: { length (events dispatch.pending) ≤ 8 },
}
