// Tests of orders of turns.

ghost use Rattle.std.specs.Prelude.{◌≤◌, ◌^◌};

use crate::codes::{AT, counted, divided, scanned, summed};
use crate::runs::{Left, ends, run};
use hp_machine::running::RunEnd;
use hp_outside::turns::memory::MemTurns;
use hp_spmd::code::Code;
use hp_word::place::{NoMemory, TrapKind};
use std::alloc::Global;
use std::test::Fail;

/// Whether the sum is the same on 1, 2, 7 and 32 ranks, under each order and with each room.
fn sum_is_written(alloc: Global) -> Result<bool, NoMemory> {
    let code = summed(alloc)?;
    Ok(
        ends(alloc, &code, 1, b"55\n")?
            && ends(alloc, &code, 2, b"55\n")?
            && ends(alloc, &code, 7, b"55\n")?
            && ends(alloc, &code, 32, b"55\n")?,
    )
}

/// Whether the running sums are the same on 1, 4 and 32 ranks, under each order and with each room.
fn sums_are_written(alloc: Global) -> Result<bool, NoMemory> {
    let code = scanned(alloc)?;
    Ok(
        ends(alloc, &code, 1, b"[1, 3, 6, 10, 15]\n")?
            && ends(alloc, &code, 4, b"[1, 3, 6, 10, 15]\n")?
            && ends(alloc, &code, 32, b"[1, 3, 6, 10, 15]\n")?,
    )
}

/// The run of a code on 4 ranks with room for one message, in which the ranks of a list have the turns, again and again.
fn listed(alloc: Global, code: &Code, list: &[u32], bound: u64) -> Result<Left, NoMemory>
    requires { bound ≤ 2 ^ 26 }
{
    let mut turns = MemTurns::new(list.to_vec(alloc)?);
    run(alloc, code, 4, 1, &mut turns, bound)
}

/// Whether a run ended so after so many turns, and has written this.
fn came_to(run: &Left, end: RunEnd, turns: usize, out: &[u8]) -> bool {
    run.end == end && run.taken.len() == turns && run.machine.out.as_slice() == out
}

/// Whether a rank traps on its eighth turn, and where it has none the others wait for it.
fn one_traps(alloc: Global) -> Result<bool, NoMemory> {
    let code = divided(alloc)?;
    let alone = listed(alloc, &code, &[3], 100)?;
    let among = listed(alloc, &code, &[0, 1, 2, 3], 100)?;
    let others = listed(alloc, &code, &[0, 1, 2], 100)?;
    let trap = RunEnd::Trapped(AT, TrapKind::Divide);
    Ok(
        came_to(&alone, trap, 6, b"")
            && came_to(&among, trap, 24, b"")
            && came_to(&others, RunEnd::Spent, 100, b""),
    )
}

/// Whether a rank that has all turns waits, after ten moves, and goes on once the others have had some.
fn one_waits(alloc: Global) -> Result<bool, NoMemory> {
    let code = summed(alloc)?;
    let alone = listed(alloc, &code, &[0], 100)?;
    let late = listed(alloc, &code, &[0, 0, 0, 0, 0, 0, 0, 0, 0, 0, 1, 2, 3], 1000)?;
    Ok(
        came_to(&alone, RunEnd::Spent, 100, b"")
            && alone.machine.moves.as_slice() == [10, 0, 0, 0].as_slice()
            && late.end == RunEnd::Ended
            && late.machine.out.as_slice() == b"55\n".as_slice(),
    )
}

/// Whether each rank leaves the loop after ten moves.
fn loop_ends(alloc: Global) -> Result<bool, NoMemory> {
    let run = listed(alloc, &counted(alloc)?, &[0, 1, 2, 3], 100)?;
    Ok(came_to(&run, RunEnd::Ended, 40, b""))
}

#[test]
fn orders_write_one_output(rt: HostRuntime) -> Result<(), Fail> {
    assert!(rt; sum_is_written(rt.alloc())?);
    assert!(rt; sums_are_written(rt.alloc())?);
    Ok(())
}

#[test]
fn lists_starve_ranks(rt: HostRuntime) -> Result<(), Fail> {
    assert!(rt; one_traps(rt.alloc())?);
    assert!(rt; one_waits(rt.alloc())?);
    assert!(rt; loop_ends(rt.alloc())?);
    Ok(())
}
