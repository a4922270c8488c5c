// Runs of a code from its start to its end.

ghost use Rattle.std.specs.Prelude.{◌≤◌, ◌^◌};

use hp_machine::machine::Machine;
use hp_machine::running::RunEnd;
use hp_outside::turns::Turns;
use hp_outside::turns::seeded::Seeded;
use hp_spmd::code::Code;
use hp_word::place::NoMemory;
use hp_word::sequence::Sequence;
use hp_word::table::Tables;
use std::alloc::Global;

/// How a run ended, the machine then, and the turns that were made.
#[derive(Drop)]
pub struct Left {
    pub end: RunEnd,
    pub machine: Machine,
    pub taken: Vec<u8>,
}

/// The run of a code without tables, over all that it writes.
#[tactic(auto, using(hp_machine::proofs::RunLemmas::new_is_run, hp_machine::proofs::RunLemmas::later_is_run))]
pub fn run<T: Turns>(
    alloc: Global,
    code: &Code,
    ranks: u32,
    room: u32,
    turns: &mut T,
    bound: u64,
) -> Result<Left, NoMemory>
    requires some { 1 ≤ ranks }
    requires few { ranks ≤ 32 }
    requires least { 1 ≤ room }
    requires most { room ≤ 64 }
    requires bound { bound ≤ 2 ^ 26 }
{
    let tables = Tables {
        list: Sequence::new(alloc),
    };
    let mut machine = Machine::new(alloc, code, &tables, ranks, room)?;
    let mut taken = Vec::new(alloc);
    let mut end = RunEnd::Wrote;
    for _call in 0..bound {
        end = machine.run(code, &tables, turns, bound, &mut taken)?;
        if end != RunEnd::Wrote {
            break;
        }
    }
    Ok(Left {
        end,
        machine,
        taken,
    })
}

/// Whether a code ends on so many ranks, with this much room, under the order of a seed, and has written this.
fn ends_on(
    alloc: Global,
    code: &Code,
    ranks: u32,
    room: u32,
    seed: u64,
    out: &[u8],
) -> Result<bool, NoMemory>
    requires some { 1 ≤ ranks }
    requires few { ranks ≤ 32 }
    requires least { 1 ≤ room }
    requires most { room ≤ 64 }
{
    let mut turns = Seeded::new();
    turns.start(seed);
    let run = run(alloc, code, ranks, room, &mut turns, 1_000_000)?;
    Ok(run.end == RunEnd::Ended && run.machine.out.as_slice() == out)
}

/// Whether a code does so under round robin and 20 other orders, with room for 1, 2 and 64 messages.
pub fn ends(alloc: Global, code: &Code, ranks: u32, out: &[u8]) -> Result<bool, NoMemory>
    requires some { 1 ≤ ranks }
    requires few { ranks ≤ 32 }
{
    for seed in 0..21 {
        if !ends_on(alloc, code, ranks, 1, seed, out)?
            || !ends_on(alloc, code, ranks, 2, seed, out)?
            || !ends_on(alloc, code, ranks, 64, seed, out)?
        {
            return Ok(false);
        }
    }
    Ok(true)
}
