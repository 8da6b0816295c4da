// What the state machine writes as it works: the effects that an event gives rise to, in order, the status of each component, and
// who is isolated. `emit` and `clear_retries` change what they are lent, as in the source.
#![tactic(auto)]

ghost use Rattle.std.specs.Prelude.{◌≡◌, map, true, false, [], ◌∷◌, ◌≤◌, get_or, set, length, replicate};
ghost use Rattle.store.specs.Sink.{empty_sink, with_effect};
ghost use Rattle.store.specs.Stored.{unset, off};
ghost use Rattle.store.specs.Retry.{no_retry};
ghost use Rattle.store.specs.Flags.{flags, next_free, trues};

use bounded::Bounded;
use model::Effect;

// The effects of one event, in order.
#[derive(Clone, Copy)]
pub struct Sink {
    pub effects: Bounded<Effect, 512>,
}

impl Sink {
    // A sink with no effect.
    pub fn new() -> Self
        ensures { result ≡ empty_sink }
    {
        Sink {
            effects: Bounded::new(Effect::LatchLockdown),
        }
    }

    // One effect more. A full sink stays as it is: the source drops a push that fails.
    #[tactic(auto, unfolding(crate::specs::Sink::with_effect))]
    pub fn emit(&mut self, effect: Effect)
        ensures { self.new ≡ with_effect self.old effect }
    {
        self.effects.push(effect);
    }
}

// What is stored of a component. Whether it is isolated the set below says, for all components at once.
#[derive(Clone, Copy)]
pub struct Status {
    pub retry: u8,
    pub awaiting_boot: bool,
    pub released: bool,
}

impl Status {
    // What is stored of a new component. By name, as in the source; a derived `Default` would be the same under a second one.
    pub fn new() -> Self
        ensures { result ≡ unset }
    {
        Status {
            retry: 0,
            awaiting_boot: false,
            released: false,
        }
    }

    // Both flags off; the retry count is kept.
    pub fn off(self) -> Self
        ensures { result ≡ off self }
    {
        Status {
            awaiting_boot: false,
            released: false,
            ..self
        }
    }
}

// Entering Ready sets every retry to zero and touches no other field.
pub fn clear_retries(statuses: &mut [Status])
    ensures { statuses.new ≡ map no_retry statuses.old }
{
    for status in statuses.iter_mut() {
        status.retry = 0;
    }
}

// ---- the isolated set: four words, from which the C side drives the reset lines: position p, from 0, is bit p mod 64, lowest
// first, of word p / 64. A chain has at most 255 components, so each has a bit. The contracts speak of `flags s`, the list of all
// 256 bits.

// Four words in fixed memory: the form that document 01 names. The methods copy them: they are 32 bytes.
#[derive(Clone, Copy)]
pub struct Isolated {
    pub words: [u64; 4],
}

impl Isolated {
    // No position is isolated at the start. By name, as in the source, and no `Default`.
    #[tactic(auto, unfolding(crate::specs::Flags::flags, crate::specs::Flags::flags_of, crate::specs::Flags::digits))]
    pub fn new() -> Self
        ensures { (flags result ≡ replicate 256 false) × (result ≡ record { words = 0 ∷ 0 ∷ 0 ∷ 0 ∷ [] }) }
    {
        Isolated { words: [0u64; 4] }
    }

    // A position from 256 on has no bit, so it is never isolated. That there are four words a caller to whom the set is
    // lent knows from here.
    pub fn contains(self, p: usize) -> bool
        ensures { (result ≡ get_or (flags self) p false) × (length self.words ≡ 4) }
    {
        p < 256 && (self.words[p / 64] >> (p % 64)) % 2 == 1
    }

    // A position from 256 on has no bit, so there is nothing to set.
    pub fn insert(mut self, p: usize) -> Isolated
        ensures { flags result ≡ set (flags self) p true }
    {
        if p < 256 {
            self.words[p / 64] |= 1 << (p % 64);
        }
        self
    }

    // The first position from `from` on and below `n` that is not isolated, or `n` where there is
    // none, as for a start past `n`. No Option: that number is promised, and the cursor of a walk that has ended is set to it.
    // A position from 256 on has no bit, so it is never isolated.
    pub fn next_free(self, from: usize, n: usize) -> usize
        ensures { result ≡ next_free (flags self) from n }
    {
        // The loop counts no index: a turn passes a whole run, so that a word is read a few times and not bit by bit.
        let mut p = from;
        while p < n {
            if 256 <= p {
                return p;
            }
            // The shift brings zeros in at the top, so a run ends with its word at the latest, and
            // the next turn goes on in the word after it.
            let run = (!(self.words[p / 64] >> (p % 64))).trailing_zeros() as usize;
            if run == 0 {
                return p;
            }
            p += run;
        }
        n
    }

    // How many positions are isolated. (A `u32` is widened by `as`: no `From` of it for a `usize` is there.)
    pub fn count(self) -> usize
        ensures { (result ≡ trues (flags self)) × (result ≤ 256) }
    {
        self.words.iter().map(|w| w.count_ones() as usize).sum()
    }
}
