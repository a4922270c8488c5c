// What Unpack makes of the sizes of all ranks' parts: cuts, and the arrays that are cut so.

ghost use Rattle.std.specs.Prelude.{◌≡◌, ◌+◌, ◌<◌, ◌≤◌, ◌^◌, map, nat_le, sum, IfOk, OnErr};
ghost use Rattle.hp_word.specs.Lengths.{longest};
ghost use Rattle.hp_word.specs.ListRules.{at_least_zero};
ghost use Rattle.hp_word.specs.LoopRules.{word_at};
ghost use Rattle.hp_spmd.specs.Next.{Tells, lifted};
ghost use Rattle.hp_spmd.specs.SealParts.{sealed};
ghost use Rattle.hp_spmd.specs.Store.{data_of};
ghost use Rattle.hp_spmd.specs.Unpacks.{running, seal_data, sizes_of};

use crate::local::Local;
use crate::local::exchange::loose_at;
use crate::local::setting::put_all;
use crate::local::words::item_or;
use crate::store::{Piece, Store};
use hp_word::lengths::LONGEST;
use hp_word::place::{NoMemory, Place, TrapKind};
use hp_word::sequence::Sequence;
use hp_word::table::Message;
use std::alloc::Global;

// The size that a message tells; one below 0 counts as 0.
fn size_of(message: &Message) -> u64
    ensures { result ≡ at_least_zero (word_at message.now.words 0) }
{
    let size = item_or(&message.words, 0, 0);
    if size < 0 { 0 } else { size as u64 }
}

// The sizes that the messages tell.
fn sizes_of(alloc: Global, inbox: &[Message]) -> Result<Vec<u64>, NoMemory>
    ensures { IfOk result (λ made. made.items ≡ sizes_of inbox.now) }
{
    let mut made = Vec::with_capacity(alloc, inbox.len())?;
    for message in inbox {
        made.push(size_of(message))?;
    }
    Ok(made)
}

// Whether these are together no more than an array may have.
#[tactic(auto, using(crate::proofs::SealLemmas::sum_past, crate::proofs::SealLemmas::sum_left, crate::proofs::SealLemmas::sum_all))]
fn are_few(sizes: &[u64]) -> bool
    ensures { result ≡ nat_le (sum sizes.now) longest }
{
    let mut left = LONGEST;
    for size in sizes {
        if *size > left {
            return false;
        }
        left -= *size;
    }
    true
}

// Where each of these parts begins, and then the sum.
fn running(alloc: Global, sizes: &[u64]) -> Result<Sequence<u64>, NoMemory>
    requires { sum sizes.now ≤ 1048576 }
    ensures { IfOk result (λ cuts. cuts ≡ running sizes.now) }
{
    let mut cuts = Sequence::new(alloc);
    let mut total = 0;
    cuts.push(total)?;
    for size in sizes {
        total += *size;
        cuts.push(total)?;
    }
    Ok(cuts)
}

// Loose columns as arrays with these cuts.
fn sealed(
    alloc: Global,
    columns: &Sequence<Sequence<i64>>,
    loose: &[u32],
    cuts: &[u64],
) -> Result<Vec<Piece>, NoMemory>
    ensures { IfOk result (λ made. made.items ≡ map (sealed columns.now cuts.now) loose.now) }
{
    let mut made = Vec::with_capacity(alloc, loose.len())?;
    for column in loose {
        made.push(Piece {
            rows: 1,
            cuts: Sequence::from_slice(alloc, cuts)?,
            cells: Sequence::from_slice(alloc, loose_at(columns, *column))?,
        })?;
    }
    Ok(made)
}

/// Makes loose columns arrays, cut by the sizes that the messages tell; traps at `at`.
#[tactic(auto, unfolding(crate::specs::Unpacks::seal_data))]
pub fn do_seal(store: &mut Store, to: &[u32], loose: &[u32], at: Place) -> Result<Local, NoMemory>
    requires next { store.old.position + 1 < 2 ^ 32 }
    ensures told { IfOk result (λ l. Tells (lifted (seal_data to.now loose.now at store.old.inbox (data_of store.old)) store.old) l store.old store.new) }
    ensures err { OnErr result (store.new ≡ store.old) }
    ensures number { store.new.number ≡ store.old.number }
    ensures ranks { store.new.ranks ≡ store.old.ranks }
{
    let alloc = store.words.alloc();
    let sizes = sizes_of(alloc, store.inbox.as_slice())?;
    if !are_few(sizes.as_slice()) {
        return Ok(Local::Trapped(at, TrapKind::TooLong));
    }
    let cuts = running(alloc, sizes.as_slice())?;
    let made = sealed(alloc, &store.loose, loose, cuts.as_slice())?;
    put_all(&mut store.arrays, to, made);
    store.position += 1;
    Ok(Local::Moved)
}
