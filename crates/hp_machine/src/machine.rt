// Ranks of a code that take turns, in any order.

ghost use Rattle.std.specs.Prelude.{◌≡◌, ◌<◌, ◌≤◌, ◌+◌, ◌-◌, ◌^◌, if◌then◌else◌, length, map, max, min, replicate, slice_index_or, slice_set, IfOk, OnErr};
ghost use Rattle.std.specs.List.{range_with_len};
ghost use Rattle.hp_network.specs.Network.{most};
ghost use Rattle.hp_spmd.specs.Store.{first_store, instr_at};
ghost use Rattle.hp_turns.specs.Turns.{cells_of};
ghost use Rattle.hp_machine.specs.Sound.{IsSound, all_over, is_over, keeps_arrays};

use crate::action::{Deed, act};
use hp_links::mailboxes::Mailboxes;
use hp_rank::rank::Rank;
use hp_spmd::code::Code;
use hp_spmd::instr::Instr;
use hp_spmd::store::Store;
use hp_word::place::{NoMemory, Place, TrapKind};
use hp_word::table::Tables;
use std::alloc::Global;

/// What came of a turn.
#[derive(Clone, Copy, PartialEq, Eq)]
pub enum Turned {
    /// The rank has moved, and not all have halted.
    Moved,
    /// It has halted, or has to wait; nothing has changed.
    Waited,
    /// All ranks have halted.
    Ended,
    /// The rank has trapped, and so has the machine.
    Trapped(Place, TrapKind),
}

/// The ranks of a code, the queues between them, what was written, and the trap, if a rank has trapped; and of each rank how
/// often it has moved, how many words it has posted, and the most cells of arrays that it has held after a move. A queue holds
/// at most `room` messages.
#[derive(Drop)]
pub struct Machine {
    pub ranks: Vec<Rank>,
    pub queues: Mailboxes,
    pub out: Vec<u8>,
    pub trap: Option<(Place, TrapKind)>,
    pub moves: Vec<u64>,
    pub words: Vec<u64>,
    pub peak: Vec<u64>,
    pub room: u32,
    pub ghost sound: { IsSound ranks.items queues moves.items words.items peak.items room },
}

/// How many cells of arrays a rank holds, those of loose columns not counted; or the greatest count.
#[tactic(auto, using(crate::proofs::MadeLemmas::cells_more))]
fn cells_held(store: &Store) -> u64
    ensures { result ≡ min (cells_of store.now) most }
{
    let mut cells: u64 = 0;
    for piece in store.arrays.as_slice() {
        cells = cells.saturating_add(piece.cells.len() as u64);
    }
    cells
}

/// Whether an instruction leaves the arrays.
fn keeps_arrays(instr: &Instr) -> bool
    ensures { result ≡ keeps_arrays instr.now }
{
    matches!(
        instr,
        Instr::Const { .. }
            | Instr::Calc { .. }
            | Instr::Jump { .. }
            | Instr::Halt
            | Instr::Length { .. }
            | Instr::Check { .. }
            | Instr::At { .. }
            | Instr::Pack(_)
            | Instr::Post { .. }
            | Instr::Take { .. }
            | Instr::Write(_)
    )
}

/// Whether what a rank does next leaves its arrays.
#[tactic(auto, using(hp_spmd::proofs::LockRound::instr_here, hp_spmd::proofs::LockRound::instr_past))]
fn next_keeps_arrays(code: &Code, store: &Store) -> bool
    ensures { result ≡ keeps_arrays (instr_at code.now.list store.now.position) }
{
    match code.list.get(store.position as usize) {
        Some(instr) => keeps_arrays(instr),
        None => true,
    }
}

/// Whether the next instruction of a rank is Halt.
#[tactic(auto, unfolding(crate::specs::Sound::is_over), using(hp_spmd::proofs::LockRound::instr_here, hp_spmd::proofs::LockRound::instr_past))]
fn is_over(code: &Code, store: &Store) -> bool
    ensures { result ≡ is_over code.now store.now }
{
    match code.list.get(store.position as usize) {
        Some(instr) => matches!(instr, Instr::Halt),
        None => true,
    }
}

/// The cells that a rank has come to hold, or 0 where they are as many as before.
fn cells_after(keeps: bool, store: &Store) -> u64
    ensures { result ≡ (if keeps then 0 else min (cells_of store.now) most) }
{
    if keeps {
        return 0;
    }
    cells_held(store)
}

/// Whether the next instruction of all ranks is Halt.
fn all_over(code: &Code, ranks: &[Rank]) -> bool
    ensures { result ≡ all_over code.now ranks.now }
{
    for rank in ranks {
        if !is_over(code, &rank.store) {
            return false;
        }
    }
    true
}

/// Counts a move of a rank that posted so many words and came to hold so many cells.
fn count(
    moves: &mut Vec<u64>,
    words: &mut Vec<u64>,
    peak: &mut Vec<u64>,
    at: usize,
    posted: u64,
    cells: u64,
)
    requires moves { at < length moves.old.items }
    requires words { at < length words.old.items }
    requires peak { at < length peak.old.items }
    requires room { slice_index_or moves.old.items at 0 < 2 ^ 64 - 1 }
    ensures moves { moves.new.items ≡ slice_set moves.old.items at (slice_index_or moves.old.items at 0 + 1) }
    ensures words { words.new.items ≡ slice_set words.old.items at (min (slice_index_or words.old.items at 0 + posted) most) }
    ensures peak { peak.new.items ≡ slice_set peak.old.items at (max (slice_index_or peak.old.items at 0) cells) }
{
    moves[at] += 1;
    words[at] = words[at].saturating_add(posted);
    peak[at] = peak[at].max(cells);
}

/// The ranks, each before its first action.
#[tactic(auto, using(crate::proofs::MadeLemmas::ranks_more))]
fn first_ranks(alloc: Global, code: &Code, ranks: u32) -> Result<Vec<Rank>, NoMemory>
    requires some { 1 ≤ ranks }
    requires few { ranks ≤ 32 }
    ensures { IfOk result (λ it. map (λ rank. rank.store) it.items ≡ map (λ r. first_store code.now r ranks) (range_with_len 0 ranks)) }
{
    let mut list = Vec::with_capacity(alloc, ranks as usize)?;
    for number in 0..ranks {
        list.push(Rank::new(alloc, code, number, ranks)?)?;
    }
    Ok(list)
}

/// So many counts of nothing.
fn zeros(alloc: Global, count: usize) -> Result<Vec<u64>, NoMemory>
    ensures { IfOk result (λ it. it.items ≡ replicate count 0) }
{
    let list = Vec::from_elem(alloc, 0, count)?;
    Ok(list)
}

impl Machine {
    ghost use Rattle.std.specs.Prelude.{◌≡◌, ◌<◌, ◌≤◌, ◌-◌, ◌^◌, None, length, slice_index_or, Decides, IfOk, OnErr};
    ghost use Rattle.hp_network.specs.Network.{HasEnded, turn};
    ghost use Rattle.hp_turns.specs.Turns.{start};
    ghost use Rattle.hp_word.specs.declared.table.Tables.{Tables};
    ghost use Rattle.hp_machine.specs.Machines.{CameOf, Running, Tells, state_of};

    /// So many ranks before their first turn, with queues that hold at most `room` messages each.
    pub fn new(
        alloc: Global,
        code: &Code,
        _tables: &Tables,
        ranks: u32,
        room: u32,
    ) -> Result<Machine, NoMemory>
        requires some { 1 ≤ ranks }
        requires few { ranks ≤ 32 }
        requires least { 1 ≤ room }
        requires most { room ≤ 64 }
        ensures state { IfOk result (λ it. state_of it ≡ start code.now ranks) }
        ensures ranks { IfOk result (λ it. length it.ranks.items ≡ ranks) }
        ensures room { IfOk result (λ it. it.room ≡ room) }
    {
        let list = first_ranks(alloc, code, ranks)?;
        let queues = Mailboxes::new(alloc, ranks, ranks * ranks * room)?;
        let moves = zeros(alloc, ranks as usize)?;
        let words = zeros(alloc, ranks as usize)?;
        let peak = zeros(alloc, ranks as usize)?;
        let out = Vec::new(alloc);
        Ok(Machine {
            ranks: list,
            queues,
            out,
            trap: None,
            moves,
            words,
            peak,
            room,
        })
    }

    /// Whether all ranks have halted. Takes no memory.
    pub fn ended(&self, code: &Code) -> bool
        ensures { (tables : Tables) → Running self.now.room code.now tables (λ m. Decides result (HasEnded m (state_of self.now))) }
    {
        all_over(code, &self.ranks)
    }

    /// Whether all ranks have halted, of which this one may have been the last.
    fn last_ended(&self, code: &Code, rank: u32) -> bool
        requires { rank < length self.now.ranks.items }
        ensures { (tables : Tables) → Running self.now.room code.now tables (λ m. Decides result (HasEnded m (state_of self.now))) }
    {
        if !is_over(code, &self.ranks[rank as usize].store) {
            return false;
        }
        self.ended(code)
    }

    /// Does what a rank does next, and counts it. An `Err` changes nothing.
    fn advance(&mut self, code: &Code, tables: &Tables, rank: u32) -> Result<Deed, NoMemory>
        requires among { rank < length self.old.ranks.items }
        requires going { self.old.trap ≡ None }
        requires few { slice_index_or self.old.moves.items rank 0 < 2 ^ 64 - 1 }
        ensures state { IfOk result (λ deed. Running self.old.room code.now tables.now (λ m. state_of self.new ≡ turn m (state_of self.old) rank)) }
        ensures deed { IfOk result (λ deed. Running self.old.room code.now tables.now (λ m. CameOf m (state_of self.old) (state_of self.new) rank deed)) }
        ensures ranks { length self.new.ranks.items ≡ length self.old.ranks.items }
        ensures room { self.new.room ≡ self.old.room }
        ensures err { OnErr result (state_of self.new ≡ state_of self.old) }
    {
        let at = rank as usize;
        let keeps = next_keeps_arrays(code, &self.ranks[at].store);
        match act(
            &mut self.ranks[at],
            &mut self.queues,
            &mut self.out,
            code,
            tables,
            rank,
            self.room,
        )? {
            Deed::Waited => Ok(Deed::Waited),
            Deed::Trapped(place, kind) => {
                self.trap = Some((place, kind));
                self.moves[at] += 1;
                Ok(Deed::Trapped(place, kind))
            }
            Deed::Moved(posted) => {
                let cells = cells_after(keeps, &self.ranks[at].store);
                count(
                    &mut self.moves,
                    &mut self.words,
                    &mut self.peak,
                    at,
                    posted,
                    cells,
                );
                Ok(Deed::Moved(posted))
            }
        }
    }

    /// A turn of a rank. An `Err` changes nothing.
    pub fn turn(&mut self, code: &Code, tables: &Tables, rank: u32) -> Result<Turned, NoMemory>
        requires among { rank < length self.old.ranks.items }
        requires going { self.old.trap ≡ None }
        requires few { slice_index_or self.old.moves.items rank 0 < 2 ^ 64 - 1 }
        ensures state { IfOk result (λ t. Running self.old.room code.now tables.now (λ m. state_of self.new ≡ turn m (state_of self.old) rank)) }
        ensures told { IfOk result (λ t. Running self.old.room code.now tables.now (λ m. Tells m (state_of self.old) (state_of self.new) rank t)) }
        ensures ranks { length self.new.ranks.items ≡ length self.old.ranks.items }
        ensures room { self.new.room ≡ self.old.room }
        ensures err { OnErr result (state_of self.new ≡ state_of self.old) }
    {
        match self.advance(code, tables, rank)? {
            Deed::Waited => Ok(Turned::Waited),
            Deed::Trapped(place, kind) => Ok(Turned::Trapped(place, kind)),
            Deed::Moved(_) => {
                if self.last_ended(code, rank) {
                    Ok(Turned::Ended)
                } else {
                    Ok(Turned::Moved)
                }
            }
        }
    }
}
