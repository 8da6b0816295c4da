// The parts of a machine, and the two kinds of values that have them.

ghost use Rattle.std.specs.Prelude.{◌≡◌, Bool, true, false, length};
ghost use Rattle.settling.specs.View.{parts_of, listed, Fits, Given};

use crate::{Dispatch, Machine};
use components::ComponentList;
use machine::Work;

// A machine's parts, of which nothing is known. A `Machine` is such parts that fit.
#[derive(Clone, Copy)]
pub struct MachineParts {
    pub list: ComponentList,
    pub max_retry: u8,
    pub work: Work,
    pub dispatch: Dispatch,
}

// What can be read as a machine is. The parts are lent, so that none is copied.
pub trait HasParts: Copy {
    ghost use Rattle.settling.specs.declared.parts.MachineParts.{MachineParts};

    ghost parts: { Self → MachineParts };

    // Is it known of every such value that its parts fit?
    ghost known: { Bool };

    // The number of components.
    fn count(&self) -> usize
        ensures { result ≡ length (listed (parts self.now)) };

    fn work(&self) -> &Work
        ensures { result.now ≡ (parts self.now).work };

    fn dispatch(&self) -> &Dispatch
        ensures { result.now ≡ (parts self.now).dispatch };

    // Where it is known it is shown here, and else asked of whoever needs it.
    ghost fit: { (x : Self) → Given known (Fits (parts x)) (Fits (parts x)) };
}

impl HasParts for Machine {
    ghost parts = { parts_of };

    ghost known = { true };

    ghost fit = { λ m. (m.chain.few, m.fit) };

    fn count(&self) -> usize {
        self.chain.count
    }

    fn work(&self) -> &Work {
        &self.work
    }

    fn dispatch(&self) -> &Dispatch {
        &self.dispatch
    }
}

impl HasParts for MachineParts {
    ghost parts = { λ p. p };

    ghost known = { false };

    ghost fit = { λ p fits. fits };

    fn count(&self) -> usize {
        self.list.count()
    }

    fn work(&self) -> &Work {
        &self.work
    }

    fn dispatch(&self) -> &Dispatch {
        &self.dispatch
    }
}
