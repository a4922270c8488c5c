// The sequential meaning of a script.

ghost use Rattle.std.specs.Prelude.{◌≡◌, None, IfOk, IfErr};
ghost use Rattle.hp_script.specs.Checked.{Checked, first_break, files_of};
ghost use Rattle.hp_meaning.specs.Fitting.{Serves};
ghost use Rattle.hp_script.specs.Mirror.{block_of};
ghost use Rattle.hp_meaning.specs.Run.{eval, start};
ghost use Rattle.hp_meaning.specs.Running.{EndsAs, IsEndOf, state_in, status_by};

use crate::numbers::Numbering;
use crate::reads::add_reads_of;
use crate::scope::Supply;
pub use crate::seen::Stop;
use crate::seen::{Met, Seen};
use crate::stmts::{Halt, State, run};
use crate::variables::Variables;
use hp_script::tree::Script;
use hp_script::typed::Typed;
use hp_word::order::Orders;
use hp_word::place::{NoMemory, Place, TrapKind};
use hp_word::sequence::Sequence;
use hp_word::table::Tables;
use std::alloc::Global;

/// How the sequential meaning ends.
#[derive(Clone, Copy, PartialEq, Eq)]
pub enum SeqStatus {
    /// After the last statement.
    Done,
    /// At a construct that has no value.
    Trap(Place, TrapKind),
    /// At a loop turn that would be the one after the last allowed.
    Fuel,
}

/// The end of a script: how it ends, what it wrote, and the ticks.
#[derive(Drop)]
pub struct SeqEnd {
    pub status: SeqStatus,
    pub out: Sequence<u8>,
    pub ticks: u64,
    /// The numbers of the joins and aggregates whose order was bad.
    pub bad: Sequence<u64>,
}

/// How a run ends, where it does.
fn status_of(ran: Result<(), Halt>) -> Result<SeqStatus, Stop>
    ensures { result ≡ status_by ran }
{
    match ran {
        Ok(()) => Ok(SeqStatus::Done),
        Err(halt) => match halt {
            Halt::Trap(trap) => Ok(SeqStatus::Trap(trap.at, trap.kind)),
            Halt::Fuel => Ok(SeqStatus::Fuel),
            Halt::Wrong => Err(Stop::Wrong),
            Halt::NoMemory => Err(Stop::NoMemory),
        },
    }
}

/// The state before the first statement.
fn first_state(alloc: Global, fuel: u64) -> State
    ensures { state_in result ≡ start fuel }
{
    let met = Met {
        executed: 0,
        bad: Sequence::new(alloc),
    };
    let seen = Seen { met, ticks: 0 };
    State {
        vars: Variables::new(alloc),
        seen,
        out: Vec::new(alloc),
        fuel,
    }
}

/// The end of a script that ends so, in this state.
fn end_at(status: SeqStatus, state: State) -> SeqEnd
    ensures status { result.status ≡ status }
    ensures out { result.out ≡ state.out.items }
    ensures ticks { result.ticks ≡ state.seen.ticks }
    ensures bad { result.bad ≡ state.seen.met.bad }
{
    let State { seen, out, .. } = state;
    let Seen { met, ticks } = seen;
    let Met { bad, .. } = met;
    let out = Sequence::from_vec(out);
    SeqEnd {
        status,
        out,
        ticks,
        bad,
    }
}

/// The end of a script, as its statements are run one after the other.
fn ended(
    alloc: Global,
    script: &Script,
    tables: &Tables,
    orders: &Orders,
    fuel: u64,
) -> Result<SeqEnd, Stop>
    ensures { EndsAs (eval (block_of script.now.body) tables.now.list orders.now.list fuel) result }
{
    let mut reads = Vec::new(alloc);
    add_reads_of(&mut reads, script.body.as_slice())?;
    let numbering = Numbering::of(alloc, script)?;
    let supply = Supply {
        alloc,
        tables: tables.list.as_slice(),
        reads: reads.as_slice(),
        orders: orders.list.as_slice(),
        numbers: numbering.as_slice(),
    };
    let mut state = first_state(alloc, fuel);
    let status = status_of(run(supply, script.body.as_slice(), &mut state))?;
    Ok(end_at(status, state))
}

/// The sequential meaning of a script over these tables, under these orders, with so many loop turns. `Wrong` where it
/// has none, since a construct has operands that it is not for; a script that fits is never wrong over tables that go
/// with the files that it reads.
pub fn evaluated(
    alloc: Global,
    script: &Script,
    tables: &Tables,
    orders: &Orders,
    fuel: u64,
) -> Result<SeqEnd, Stop>
    ensures ends { EndsAs (eval (block_of script.now.body) tables.now.list orders.now.list fuel) result }
    ensures sound { first_break (block_of script.now.body) ≡ None → Serves tables.now.list (files_of (block_of script.now.body))
        → IfErr result (λ e. e ≡ Stop.NoMemory) }
{
    ended(alloc, script, tables, orders, fuel)
}

/// The sequential meaning of a script that fits, over tables that go with the files that it reads: its status, its
/// output and its ticks, under these orders, of which a missing or ill-formed one counts as the plain one, and with so
/// many loop turns.
pub fn seq(
    alloc: Global,
    typed: &Typed,
    tables: &Tables,
    orders: &Orders,
    fuel: u64,
) -> Result<SeqEnd, NoMemory>
    requires checked { Checked typed.now }
    requires served { Serves tables.now.list typed.now.reads }
    ensures { IfOk result (IsEndOf (eval (block_of typed.now.script.body) tables.now.list orders.now.list fuel)) }
{
    match evaluated(alloc, &typed.script, tables, orders, fuel) {
        Ok(end) => Ok(end),
        // By the clause `sound` this is want of memory.
        Err(_) => Err(NoMemory),
    }
}
