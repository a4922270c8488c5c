// One instruction of all ranks.

ghost use Rattle.std.specs.Prelude.{◌≡◌, ◌≤◌, ◌<◌, ◌^◌, ◌++◌, ℕ, List, suc, length, map, IfOk, OnOk};
ghost use Rattle.std.specs.List.{All};
ghost use Rattle.hp_spmd.specs.Kinds.{kind_of};
ghost use Rattle.hp_spmd.specs.Local.{local_next};
ghost use Rattle.hp_spmd.specs.Next.{at_place, moved};
ghost use Rattle.hp_spmd.specs.Lockstep.{place_of_first, state, step, step_by, text_of, together};
ghost use Rattle.hp_spmd.specs.Ranks.{AreRanks, AreTogether, HaveRoom, IsTogether, TellsAll, Rounds};
ghost use Rattle.hp_spmd.specs.Store.{instr_at};

use crate::code::Code;
use crate::instr::{Instr, Output};
use crate::local::Local;
use crate::local::jump::next_place;
use crate::lockstep::output::text;
use crate::lockstep::post::{all_go_to, move_on, post, post_root};
use crate::store::Store;
use hp_word::place::{NoMemory, Place, TrapKind};
use hp_word::table::Tables;
use std::alloc::Global;

/// What one instruction of all ranks came to.
#[derive(Clone, Copy, PartialEq, Eq)]
pub enum RoundEnd {
    /// It is the code's Halt.
    Ended,
    /// Some rank trapped; where several do, the lowest one's trap.
    Trapped(Place, TrapKind),
    /// Each rank has taken it.
    Moved,
}

/// What each rank does by the instruction at `at`, in rank order; the first trap ends it, and the stores are then of no
/// use.
fn compute(
    stores: &mut [Store],
    code: &Code,
    tables: &Tables,
    at: u32,
) -> Result<RoundEnd, NoMemory>
    requires inside { at < length code.now.list }
    requires together { IsTogether (kind_of (instr_at code.now.list at)) }
    requires some { 1 ≤ length stores.old }
    requires few { length stores.old ≤ 32 }
    requires ranks { AreRanks at stores.old }
    requires executed { HaveRoom stores.old }
    ensures { IfOk result (λ t. TellsAll (together (local_next code.now.arrays tables.now (instr_at code.now.list at)) stores.old) t stores.new) }
{
    for i in 0..stores.len() {
        match stores[i].local(code, tables)? {
            Local::Moved => {}
            Local::Trapped(place, kind) => return Ok(RoundEnd::Trapped(place, kind)),
        }
    }
    Ok(RoundEnd::Moved)
}

/// An instruction, that at `at`, which each rank does by itself.
#[tactic(auto, using(crate::proofs::LockRound::rounds_together))]
fn compute_round(
    stores: &mut [Store],
    code: &Code,
    tables: &Tables,
    instr: &Instr,
    at: u32,
) -> Result<RoundEnd, NoMemory>
    requires inside { at < length code.now.list }
    requires here { instr.now ≡ instr_at code.now.list at }
    requires together { IsTogether (kind_of instr.now) }
    requires some { 1 ≤ length stores.old }
    requires few { length stores.old ≤ 32 }
    requires ranks { AreRanks at stores.old }
    requires executed { HaveRoom stores.old }
    ensures { IfOk
        result
        (λ t. (out : List ℕ) → Rounds (step_by (kind_of instr.now) (local_next code.now.arrays tables.now instr.now) (state stores.old out)) t out stores.new out) }
{
    compute(stores, code, tables, at)
}

/// Adds what rank 0 writes, and moves all on.
fn write(
    alloc: Global,
    stores: &mut [Store],
    output: &Output,
    out: &mut Vec<u8>,
) -> Result<(), NoMemory>
    requires some { 1 ≤ length stores.old }
    requires room { All (λ x. suc x.position < 2 ^ 32) stores.old }
    ensures out { OnOk result (out.new.items ≡ out.old.items ++ text_of output.now stores.old) }
    ensures moved { OnOk result (stores.new ≡ map moved stores.old) }
{
    let text = text(alloc, output, &stores[0])?;
    out.extend_from_slice(text.as_slice())?;
    move_on(stores);
    Ok(())
}

/// Puts all ranks where rank 0 goes from a Jump.
fn jump(stores: &mut [Store], target: u32, unless: Option<u32>)
    requires some { 1 ≤ length stores.old }
    requires room { All (λ x. suc x.position < 2 ^ 32) stores.old }
    ensures { stores.new ≡ map (at_place (place_of_first target unless stores.old)) stores.old }
{
    let first = &stores[0];
    let place = next_place(target, unless, &first.words, first.position);
    all_go_to(stores, place);
}

/// One instruction, that at `at`, of all ranks; when it traps, the stores are then of no use.
fn execute(
    alloc: Global,
    code: &Code,
    tables: &Tables,
    instr: &Instr,
    at: u32,
    stores: &mut [Store],
    out: &mut Vec<u8>,
) -> Result<RoundEnd, NoMemory>
    requires inside { at < length code.now.list }
    requires here { instr.now ≡ instr_at code.now.list at }
    requires some { 1 ≤ length stores.old }
    requires few { length stores.old ≤ 32 }
    requires ranks { AreRanks at stores.old }
    requires executed { HaveRoom stores.old }
    ensures { IfOk
        result
        (λ t. Rounds (step_by (kind_of instr.now) (local_next code.now.arrays tables.now instr.now) (state stores.old out.old.items)) t out.old.items stores.new out.new.items) }
{
    match instr {
        Instr::Const { .. }
        | Instr::Calc { .. }
        | Instr::Length { .. }
        | Instr::Check { .. }
        | Instr::Fill { .. }
        | Instr::Range { .. }
        | Instr::Table { .. }
        | Instr::Copy { .. }
        | Instr::Loop(_)
        | Instr::Scan { .. }
        | Instr::At { .. }
        | Instr::Pick { .. }
        | Instr::Select { .. }
        | Instr::Join(_)
        | Instr::Group { .. }
        | Instr::Sort { .. }
        | Instr::Stack { .. }
        | Instr::Row { .. }
        | Instr::Product { .. }
        | Instr::Pack(_)
        | Instr::Unpack(_) => {
            let end = compute_round(stores, code, tables, instr, at)?;
            Ok(end)
        }
        Instr::Jump { target, unless } => {
            jump(stores, *target, *unless);
            Ok(RoundEnd::Moved)
        }
        Instr::Post { root: false } => {
            post(alloc, stores)?;
            Ok(RoundEnd::Moved)
        }
        Instr::Post { root: true } => {
            post_root(alloc, stores)?;
            Ok(RoundEnd::Moved)
        }
        Instr::Take { .. } => {
            move_on(stores);
            Ok(RoundEnd::Moved)
        }
        Instr::Write(output) => {
            write(alloc, stores, output, out)?;
            Ok(RoundEnd::Moved)
        }
        Instr::Halt => Ok(RoundEnd::Ended),
    }
}

/// One instruction of all ranks; past the code's end it is Halt. When it traps, the stores are then of no use.
pub fn round(
    alloc: Global,
    code: &Code,
    tables: &Tables,
    stores: &mut [Store],
    out: &mut Vec<u8>,
) -> Result<RoundEnd, NoMemory>
    requires some { 1 ≤ length stores.old }
    requires few { length stores.old ≤ 32 }
    requires ranks { AreTogether stores.old }
    requires executed { HaveRoom stores.old }
    ensures { IfOk result (λ t. Rounds (step code.now tables.now (state stores.old out.old.items)) t out.old.items stores.new out.new.items) }
{
    let at = stores[0].position;
    match code.list.get(at as usize) {
        Some(instr) => {
            let end = execute(alloc, code, tables, instr, at, stores, out)?;
            Ok(end)
        }
        None => Ok(RoundEnd::Ended),
    }
}
