// Turns one after the other, as an order of turns names them.

ghost use Rattle.std.specs.Prelude.{◌≡◌, ◌<◌, ◌≤◌, ◌-◌, ◌++◌, ◌∷◌, ◌^◌, ℕ, [], None, length, slice_index_or, IfOk, OnOk, OnErr};
ghost use Rattle.hp_network.specs.Network.{HasEnded, run, turn};
ghost use Rattle.hp_outside.specs.Counts.{counted, counted_on};
ghost use Rattle.hp_turns.specs.Turns.{start};
ghost use Rattle.hp_word.specs.declared.table.Tables.{Tables};
ghost use Rattle.hp_machine.specs.declared.running.RunEnd.TheVariants.{Spent};
ghost use Rattle.hp_machine.specs.Ends.{ComesTo, EndsBy, StandsAs, end_of};
ghost use Rattle.hp_machine.specs.Follows.{Follows, Takes};
ghost use Rattle.hp_machine.specs.Machines.{Running, Tells, state_of};

use crate::machine::{Machine, Turned};
use hp_outside::turns::Turns;
use hp_spmd::code::Code;
use hp_word::place::{NoMemory, Place, TrapKind};
use hp_word::table::Tables;

/// How a call that makes many turns ended.
#[derive(Clone, Copy, PartialEq, Eq)]
pub enum RunEnd {
    /// All ranks have halted.
    Ended,
    /// A rank has trapped.
    Trapped(Place, TrapKind),
    /// As many turns were made as are allowed.
    Spent,
    /// The last turn wrote.
    Wrote,
}

/// How a call ends after a turn that wrote or did not, if it does.
fn end_of(turned: Turned, wrote: bool) -> Option<RunEnd>
    ensures { result ≡ end_of turned wrote }
{
    match turned {
        Turned::Ended => Some(RunEnd::Ended),
        Turned::Trapped(at, kind) => Some(RunEnd::Trapped(at, kind)),
        Turned::Moved | Turned::Waited => { if wrote { Some(RunEnd::Wrote) } else { None } }
    }
}

impl Machine {
    /// How the machine has ended or trapped, if it has.
    fn end(&self, code: &Code) -> Option<RunEnd>
        ensures { (tables : Tables) → Running self.now.room code.now tables (λ m. StandsAs m (state_of self.now) result) }
    {
        match self.trap {
            Some((at, kind)) => Some(RunEnd::Trapped(at, kind)),
            None => {
                if self.ended(code) {
                    Some(RunEnd::Ended)
                } else {
                    None
                }
            }
        }
    }

    /// A turn of a rank, whose number is appended. An `Err` changes nothing.
    fn take_turn(
        &mut self,
        code: &Code,
        tables: &Tables,
        rank: u32,
        taken: &mut Vec<u8>,
    ) -> Result<Turned, NoMemory>
        requires among { rank < length self.old.ranks.items }
        requires going { self.old.trap ≡ None }
        requires few { slice_index_or self.old.moves.items rank 0 < 2 ^ 64 - 1 }
        ensures state { IfOk result (λ t. Running self.old.room code.now tables.now (λ m. state_of self.new ≡ turn m (state_of self.old) rank)) }
        ensures told { IfOk result (λ t. Running self.old.room code.now tables.now (λ m. Tells m (state_of self.old) (state_of self.new) rank t)) }
        ensures taken { OnOk result (taken.new.items ≡ taken.old.items ++ rank ∷ []) }
        ensures ranks { length self.new.ranks.items ≡ length self.old.ranks.items }
        ensures room { self.new.room ≡ self.old.room }
        ensures err { OnErr result (state_of self.new ≡ state_of self.old) }
        ensures same { OnErr result (taken.new.items ≡ taken.old.items) }
    {
        taken.push(rank as u8)?;
        let turned = self.turn(code, tables, rank);
        if turned.is_err() {
            taken.pop();
        }
        turned
    }

    /// The turn of the rank that is named next, and how the call ends with it, if it does. An `Err` changes neither the
    /// machine nor the turns.
    fn next_turn<T: Turns>(
        &mut self,
        code: &Code,
        tables: &Tables,
        turns: &mut T,
        taken: &mut Vec<u8>,
    ) -> Result<Option<RunEnd>, NoMemory>
        requires going { self.old.trap ≡ None }
        requires few { (r : ℕ) → slice_index_or self.old.moves.items r 0 < 2 ^ 64 - 1 }
        ensures takes { OnOk result (Running self.old.room code.now tables.now (λ m. Takes m (λ k. T.named turns.old (T.seed turns.old) k (length self.old.ranks.items)) (T.asked turns.old) (state_of self.old) (state_of self.new) taken.old.items taken.new.items)) }
        ensures told { IfOk result (λ end. Running self.old.room code.now tables.now (λ m. (HasEnded m (state_of self.old) → ⊥) → ComesTo m (state_of self.old) (state_of self.new) end)) }
        ensures asked { T.asked turns.new ≡ counted (T.asked turns.old) }
        ensures seed { T.seed turns.new ≡ T.seed turns.old }
        ensures named { (s k n : ℕ) → T.named turns.new s k n ≡ T.named turns.old s k n }
        ensures ranks { length self.new.ranks.items ≡ length self.old.ranks.items }
        ensures room { self.new.room ≡ self.old.room }
        ensures err { OnErr result (state_of self.new ≡ state_of self.old) }
        ensures same { OnErr result (taken.new.items ≡ taken.old.items) }
    {
        let rank = turns.next(self.ranks.len() as u32);
        let written = self.out.len();
        let turned = self.take_turn(code, tables, rank, taken)?;
        Ok(end_of(turned, self.out.len() > written))
    }

    /// Makes turns as they are named, until the machine has ended or trapped, a turn has written, or there were `bound` of them
    /// since the machine was made. An `Err` keeps the turns before the one that was refused.
    pub fn run<T: Turns>(
        &mut self,
        code: &Code,
        tables: &Tables,
        turns: &mut T,
        bound: u64,
        taken: &mut Vec<u8>,
    ) -> Result<RunEnd, NoMemory>
        requires holds { Running self.old.room code.now tables.now (λ m. state_of self.old ≡ run m (start code.now (length self.old.ranks.items)) taken.old.items) }
        requires within { length taken.old.items ≤ bound }
        requires few { bound ≤ 2 ^ 26 }
        ensures follows { Running self.old.room code.now tables.now (λ m. Follows m (λ k. T.named turns.old (T.seed turns.old) k (length self.old.ranks.items)) (T.asked turns.old) (state_of self.old) (state_of self.new) taken.old.items taken.new.items) }
        ensures within { length taken.new.items ≤ bound }
        ensures told { IfOk result (λ end. Running self.old.room code.now tables.now (λ m. EndsBy m (state_of self.old) (state_of self.new) end)) }
        ensures spent { IfOk result (λ end. end ≡ Spent → length taken.new.items ≡ bound) }
        ensures asked { OnOk result (T.asked turns.new ≡ counted_on (T.asked turns.old) (length taken.new.items - length taken.old.items)) }
        ensures refused { OnErr result (T.asked turns.new ≡ counted (counted_on (T.asked turns.old) (length taken.new.items - length taken.old.items))) }
        ensures seed { T.seed turns.new ≡ T.seed turns.old }
        ensures named { (s k n : ℕ) → T.named turns.new s k n ≡ T.named turns.old s k n }
        ensures ranks { length self.new.ranks.items ≡ length self.old.ranks.items }
        ensures room { self.new.room ≡ self.old.room }
    {
        if let Some(end) = self.end(code) {
            return Ok(end);
        }
        while (taken.len() as u64) < bound {
            if let Some(end) = self.next_turn(code, tables, turns, taken)? {
                return Ok(end);
            }
        }
        Ok(RunEnd::Spent)
    }
}
