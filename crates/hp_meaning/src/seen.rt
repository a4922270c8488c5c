// What an evaluation counts, and why an expression has no value.

ghost use Rattle.std.specs.Prelude.{◌≡◌, ◌+◌, OnOk, IfOk, IfErr};
ghost use Rattle.hp_meaning.specs.FrameRules.{executed};
ghost use Rattle.hp_meaning.specs.Outcomes.{tick};
ghost use Rattle.hp_word.specs.Lengths.{trap};
ghost use Rattle.hp_meaning.specs.declared.seen.Stop.TheVariants.{NoMemory};

use hp_word::place::{Place, Trap, TrapKind};
use hp_word::sequence::Sequence;
use std::alloc::{AllocError, AllocFailed};

/// The joins and aggregates that were met so far, which is all that orders speak of: how many were executed, and the
/// numbers of those whose order was bad.
#[derive(Drop)]
pub struct Met {
    pub executed: u64,
    pub bad: Sequence<u64>,
}

/// What was seen so far: the joins and aggregates that were met, and the ticks, which count the expressions, statements
/// and loop turns that have begun.
#[derive(Drop)]
pub struct Seen {
    pub met: Met,
    pub ticks: u64,
}

impl Seen {
    /// Counts an expression, a statement or a loop turn that begins.
    pub fn begin(&mut self) -> Result<(), Stop>
        ensures ok { OnOk result (self.new ≡ tick self.old) }
        ensures err { IfErr result (λ e. e ≡ Stop.NoMemory) }
    {
        let Some(ticks) = self.ticks.checked_add(1) else {
            return Err(Stop::NoMemory);
        };
        self.ticks = ticks;
        Ok(())
    }
}

impl Met {
    /// The number of the next join or aggregate.
    pub fn next_number(&self) -> Result<u64, Stop>
        ensures ok { IfOk result (λ number. number ≡ self.now.executed + 1) }
        ensures err { IfErr result (λ e. e ≡ Stop.NoMemory) }
    {
        let Some(number) = self.executed.checked_add(1) else {
            return Err(Stop::NoMemory);
        };
        Ok(number)
    }

    /// Counts a join or an aggregate that is executed, in an order that may be bad.
    pub fn execute(&mut self, is_bad: bool) -> Result<(), Stop>
        ensures ok { OnOk result (self.new ≡ executed is_bad self.old) }
        ensures err { IfErr result (λ e. e ≡ Stop.NoMemory) }
    {
        let number = self.next_number()?;
        if is_bad {
            self.bad.push(number)?;
        }
        self.executed = number;
        Ok(())
    }
}

/// Why there is no value.
#[derive(Clone, Copy, PartialEq, Eq)]
pub enum Stop {
    /// A construct has none.
    Trap(Trap),
    /// An operand is of a type, or a name is one, that the construct is not for.
    Wrong,
    /// Memory was refused, or a count would pass the end of its type.
    NoMemory,
}

impl Stop {
    /// The trap of a construct.
    pub fn trap(at: Place, kind: TrapKind) -> Stop
        ensures { result ≡ Stop.Trap (trap at kind) }
    {
        Stop::Trap(Trap { at, kind })
    }
}

impl From<hp_word::place::NoMemory> for Stop {
    ghost from_gives = { λ _ e. e ≡ NoMemory };

    fn from(_error: hp_word::place::NoMemory) -> Stop {
        Stop::NoMemory
    }
}

impl From<AllocError> for Stop {
    ghost from_gives = { λ _ e. e ≡ NoMemory };

    fn from(_error: AllocError) -> Stop {
        Stop::NoMemory
    }
}

impl<T: Drop> From<AllocFailed<T>> for Stop {
    ghost from_gives = { λ _ e. e ≡ NoMemory };

    fn from(_error: AllocFailed<T>) -> Stop {
        Stop::NoMemory
    }
}
