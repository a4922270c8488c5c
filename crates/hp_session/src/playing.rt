// A machine that is played: turns in the order that is named, and each write put to a sink before the next turn.

ghost use Rattle.std.specs.Prelude.{◌≡◌, ◌<◌, ◌≤◌, ◌-◌, ◌^◌, ℕ, [], All, length};
ghost use Rattle.hp_network.specs.Network.{run};
ghost use Rattle.hp_outside.specs.Outside.{HasCause};
ghost use Rattle.hp_turns.specs.Turns.{start};
ghost use Rattle.hp_machine.specs.Follows.{AreNamed, Follows};
ghost use Rattle.hp_machine.specs.Machines.{Running, state_of};
ghost use Rattle.hp_session.specs.Playing.{AskedBy, EndsAs, StandsAs, Took, TookBy, WasAsked, end_of, has_failed, put_failed};

use hp_machine::machine::Machine;
use hp_machine::running::RunEnd;
use hp_outside::sinks::{Sink, put_all};
use hp_outside::turns::Turns;
use hp_spmd::code::Code;
use hp_word::place::{NoMemory, Place, TrapKind};
use hp_word::table::Tables;
use std::alloc::Global;

/// How a session ended.
#[derive(Clone, Copy, PartialEq, Eq)]
pub enum PlayEnd {
    /// All ranks have halted.
    Ended,
    /// A rank has trapped.
    Trapped(Place, TrapKind),
    /// As many turns were made as are allowed.
    Spent,
    /// A put to the sink failed.
    PutFailed,
    /// Memory was refused.
    NoMemory,
}

/// What a session leaves: how it ended, the machine then, and the ranks whose turns were made, from the first on.
#[derive(Drop)]
pub struct Played {
    pub end: PlayEnd,
    pub machine: Machine,
    pub taken: Vec<u8>,
}

/// How a session ends with what its machine answered, if it does.
fn end_of(answer: Result<RunEnd, NoMemory>) -> Option<PlayEnd>
    ensures { result ≡ end_of answer }
{
    match answer {
        Ok(RunEnd::Ended) => Some(PlayEnd::Ended),
        Ok(RunEnd::Trapped(at, kind)) => Some(PlayEnd::Trapped(at, kind)),
        Ok(RunEnd::Spent) => Some(PlayEnd::Spent),
        Ok(RunEnd::Wrote) => None,
        Err(_) => Some(PlayEnd::NoMemory),
    }
}

/// The turns up to the next that writes, and the put of what it wrote; and how the session ends with them, if it does.
fn next_write<S: Sink, T: Turns>(
    machine: &mut Machine,
    code: &Code,
    tables: &Tables,
    bound: u64,
    out: &mut S,
    turns: &mut T,
    taken: &mut Vec<u8>,
) -> Option<PlayEnd>
    requires holds { Running machine.old.room code.now tables.now (λ m. state_of machine.old ≡ run m (start code.now (length machine.old.ranks.items)) taken.old.items) }
    requires within { length taken.old.items ≤ bound }
    requires few { bound ≤ 2 ^ 26 }
    ensures follows { Running machine.old.room code.now tables.now (λ m. Follows m (λ k. T.named turns.old (T.seed turns.old) k (length machine.old.ranks.items)) (T.asked turns.old) (state_of machine.old) (state_of machine.new) taken.old.items taken.new.items) }
    ensures within { length taken.new.items ≤ bound }
    ensures told { Running machine.old.room code.now tables.now (λ m. StandsAs m (state_of machine.old) (state_of machine.new) taken.new.items bound result) }
    ensures took { TookBy machine.old.out.items machine.new.out.items (S.written out.old) (S.written out.new) (has_failed result) }
    ensures cause { HasCause (S.faults out.old) (S.faults out.new) (has_failed result) }
    ensures asked { AskedBy (T.asked turns.old) (T.asked turns.new) (length taken.new.items - length taken.old.items) result }
    ensures seed { T.seed turns.new ≡ T.seed turns.old }
    ensures named { (s k n : ℕ) → T.named turns.new s k n ≡ T.named turns.old s k n }
    ensures ranks { length machine.new.ranks.items ≡ length machine.old.ranks.items }
    ensures room { machine.new.room ≡ machine.old.room }
{
    let written = machine.out.len();
    let answer = machine.run(code, tables, turns, bound, taken);
    if put_all(out, &machine.out[written..]).is_err() {
        return Some(PlayEnd::PutFailed);
    }
    end_of(answer)
}

/// Plays a new machine until it has ended or trapped, `bound` turns were made, a put failed or memory was refused.
fn play_on<S: Sink, T: Turns>(
    machine: &mut Machine,
    code: &Code,
    tables: &Tables,
    bound: u64,
    out: &mut S,
    turns: &mut T,
    taken: &mut Vec<u8>,
) -> PlayEnd
    requires begins { state_of machine.old ≡ start code.now (length machine.old.ranks.items) }
    requires none { taken.old.items ≡ [] }
    requires few { bound ≤ 2 ^ 26 }
    ensures run { Running machine.old.room code.now tables.now (λ m. state_of machine.new ≡ run m (start code.now (length machine.old.ranks.items)) taken.new.items) }
    ensures among { All (λ r. r < length machine.old.ranks.items) taken.new.items }
    ensures order { AreNamed (λ k. T.named turns.old (T.seed turns.old) k (length machine.old.ranks.items)) (T.asked turns.old) taken.new.items }
    ensures within { length taken.new.items ≤ bound }
    ensures ended { Running machine.old.room code.now tables.now (λ m. EndsAs m (state_of machine.new) taken.new.items bound result) }
    ensures took { Running machine.old.room code.now tables.now (λ m. Took m (start code.now (length machine.old.ranks.items)) taken.new.items (S.written out.old) (S.written out.new) result) }
    ensures cause { HasCause (S.faults out.old) (S.faults out.new) (put_failed result) }
    ensures asked { WasAsked (T.asked turns.old) (T.asked turns.new) (length taken.new.items) result }
    ensures seed { T.seed turns.new ≡ T.seed turns.old }
    ensures named { (s k n : ℕ) → T.named turns.new s k n ≡ T.named turns.old s k n }
    ensures ranks { length machine.new.ranks.items ≡ length machine.old.ranks.items }
    ensures room { machine.new.room ≡ machine.old.room }
{
    loop {
        if let Some(end) = next_write(machine, code, tables, bound, out, turns, taken) {
            return end;
        }
    }
}

/// Plays a new machine of a code and its tables: it makes turns in the order that is named, at most `bound` of them, and puts
/// each write to the sink before the next turn. After a put that failed it makes no turn.
pub fn play<S: Sink, T: Turns>(
    alloc: Global,
    machine: Machine,
    code: &Code,
    tables: &Tables,
    bound: u64,
    out: &mut S,
    turns: &mut T,
) -> Played
    requires begins { state_of machine ≡ start code.now (length machine.ranks.items) }
    requires few { bound ≤ 2 ^ 26 }
    ensures run { Running machine.room code.now tables.now (λ m. state_of result.machine ≡ run m (start code.now (length machine.ranks.items)) result.taken.items) }
    ensures among { All (λ r. r < length machine.ranks.items) result.taken.items }
    ensures order { AreNamed (λ k. T.named turns.old (T.seed turns.old) k (length machine.ranks.items)) (T.asked turns.old) result.taken.items }
    ensures within { length result.taken.items ≤ bound }
    ensures ended { Running machine.room code.now tables.now (λ m. EndsAs m (state_of result.machine) result.taken.items bound result.end) }
    ensures took { Running machine.room code.now tables.now (λ m. Took m (start code.now (length machine.ranks.items)) result.taken.items (S.written out.old) (S.written out.new) result.end) }
    ensures cause { HasCause (S.faults out.old) (S.faults out.new) (put_failed result.end) }
    ensures asked { WasAsked (T.asked turns.old) (T.asked turns.new) (length result.taken.items) result.end }
    ensures seed { T.seed turns.new ≡ T.seed turns.old }
    ensures named { (s k n : ℕ) → T.named turns.new s k n ≡ T.named turns.old s k n }
    ensures ranks { length result.machine.ranks.items ≡ length machine.ranks.items }
    ensures room { result.machine.room ≡ machine.room }
{
    let mut machine = machine;
    let mut taken = Vec::new(alloc);
    let end = play_on(&mut machine, code, tables, bound, out, turns, &mut taken);
    Played {
        end,
        machine,
        taken,
    }
}
