// What Unpack makes of the messages of a Move: the moved arrays, and a block with the cells round it.

ghost use Rattle.std.specs.Prelude.{◌≡◌, ◌+◌, ◌-◌, ◌*◌, ◌<◌, ◌≤◌, ◌^◌, min, map, length, replicate, sum, take, IfOk, OnErr};
ghost use Rattle.std.specs.List.{range_with_len};
ghost use Rattle.hp_spmd.specs.MoveParts.{begins_of, lengths_from, most_counted, moved_at};
ghost use Rattle.hp_spmd.specs.Next.{Tells, lifted};
ghost use Rattle.hp_spmd.specs.Store.{data_of, message_at};
ghost use Rattle.hp_spmd.specs.Unpacks.{cell_round, halo_data, moved_cells, moved_count, moved_data, part_at, shared_count};

use crate::dist::Dist;
use crate::instr::Need;
use crate::local::Local;
use crate::local::arrays::{cuts_at, rows_at};
use crate::local::check::length_at;
use crate::local::exchange::joined_words;
use crate::local::needs::{block_span, need_cuts, need_span, own_span};
use crate::local::packs::words_behind;
use crate::local::pieces::dist_at;
use crate::local::setting::put_all;
use crate::local::words::{cell_in, put};
use crate::store::{Piece, Store};
use hp_cuts::cuts::Span;
use hp_word::place::NoMemory;
use hp_word::sequence::Sequence;
use hp_word::table::Message;
use std::alloc::Global;

// ---- moved arrays

// How many places two ranges share.
fn shared_count(a: Span, b: Span) -> u64
    ensures { result ≡ shared_count a b }
{
    a.until.min(b.until).saturating_sub(a.from.max(b.from))
}

// How many words of an array came from a rank.
fn moved_count(store: &Store, dists: &Sequence<Dist>, need: Need, array: u32, sender: usize) -> u64
    requires few { store.now.ranks ≤ 32 }
    requires among { store.now.number < store.now.ranks }
    requires sender { sender + 1 < 2 ^ 64 }
    ensures { result ≡ min (moved_count dists.now need store.now.number store.now.ranks store.now.arrays array sender) most_counted }
{
    let arrays = &store.arrays;
    let own = own_span(dist_at(dists, array), cuts_at(arrays, array), sender);
    let length = length_at(arrays, array);
    let needed = need_span(need, dists, arrays, store.number, length, store.ranks);
    rows_at(arrays, array).saturating_mul(shared_count(own, needed))
}

// The words of a message.
fn words_of(inbox: &[Message], sender: usize) -> &[i64]
    ensures { result.now ≡ (message_at inbox.now sender).words }
{
    if sender < inbox.len() {
        inbox[sender].words.as_slice()
    } else {
        &[]
    }
}

// The words of a message that are the j-th moved array's, which begin at `begin`.
#[tactic(auto, using(crate::proofs::MovedLemmas::part_read))]
fn moved_part<'a>(
    store: &'a Store,
    dists: &Sequence<Dist>,
    from: &[u32],
    need: Need,
    j: usize,
    sender: usize,
    begin: u64,
) -> &'a [i64]
    requires few { store.now.ranks ≤ 32 }
    requires among { store.now.number < store.now.ranks }
    requires sender { sender + 1 < 2 ^ 64 }
    requires inside { j < length from.now }
    requires begin { begin ≡ min (sum (take j (lengths_from dists.now from.now need store.now.number store.now.ranks store.now.arrays sender))) most_counted }
    ensures { result.now ≡ part_at (lengths_from dists.now from.now need store.now.number store.now.ranks store.now.arrays sender) j (message_at store.now.inbox sender).words }
{
    let count = moved_count(store, dists, need, from[j], sender);
    words_behind(words_of(store.inbox.as_slice(), sender), begin, count)
}

// The cells of the j-th moved array, in rank order, by where they begin in each message.
fn moved_cells(
    alloc: Global,
    store: &Store,
    dists: &Sequence<Dist>,
    from: &[u32],
    need: Need,
    j: usize,
    begins: &[u64],
) -> Result<Sequence<i64>, NoMemory>
    requires few { store.now.ranks ≤ 32 }
    requires among { store.now.number < store.now.ranks }
    requires inside { j < length from.now }
    requires begins { begins.now ≡ begins_of (lengths_from dists.now from.now need store.now.number store.now.ranks store.now.arrays) j (length store.now.inbox) }
    ensures { IfOk result (λ cells. cells ≡ moved_cells dists.now from.now need store.now.number store.now.ranks store.now.inbox store.now.arrays j) }
{
    let mut cells = Vec::new(alloc);
    for (sender, begin) in begins.iter().enumerate() {
        let part = moved_part(store, dists, from, need, j, sender, *begin);
        cells.extend_from_slice(part)?;
    }
    Ok(Sequence::from_vec(cells))
}

// Where the words of the array behind the j-th begin in a message, by where those of the j-th do.
#[tactic(auto, using(crate::proofs::MovedLemmas::next_begin))]
fn next_begin(
    store: &Store,
    dists: &Sequence<Dist>,
    from: &[u32],
    need: Need,
    j: usize,
    sender: usize,
    begin: u64,
) -> u64
    requires few { store.now.ranks ≤ 32 }
    requires among { store.now.number < store.now.ranks }
    requires sender { sender + 1 < 2 ^ 64 }
    requires inside { j < length from.now }
    requires begin { begin ≡ min (sum (take j (lengths_from dists.now from.now need store.now.number store.now.ranks store.now.arrays sender))) most_counted }
    ensures { result ≡ min (sum (take (j + 1) (lengths_from dists.now from.now need store.now.number store.now.ranks store.now.arrays sender))) most_counted }
{
    begin.saturating_add(moved_count(store, dists, need, from[j], sender))
}

// Where the words of the array behind the j-th begin in each message.
fn next_begins(
    alloc: Global,
    store: &Store,
    dists: &Sequence<Dist>,
    from: &[u32],
    need: Need,
    j: usize,
    begins: &[u64],
) -> Result<Vec<u64>, NoMemory>
    requires few { store.now.ranks ≤ 32 }
    requires among { store.now.number < store.now.ranks }
    requires inside { j < length from.now }
    requires begins { begins.now ≡ begins_of (lengths_from dists.now from.now need store.now.number store.now.ranks store.now.arrays) j (length store.now.inbox) }
    ensures { IfOk result (λ next. next.items ≡ begins_of (lengths_from dists.now from.now need store.now.number store.now.ranks store.now.arrays) (j + 1) (length store.now.inbox)) }
{
    let mut next = Vec::with_capacity(alloc, begins.len())?;
    for (sender, begin) in begins.iter().enumerate() {
        next.push(next_begin(store, dists, from, need, j, sender, *begin))?;
    }
    Ok(next)
}

// The array that is made of the j-th moved one, by where its cells begin in each message.
fn moved_piece(
    alloc: Global,
    store: &Store,
    dists: &Sequence<Dist>,
    from: &[u32],
    need: Need,
    j: usize,
    begins: &[u64],
) -> Result<Piece, NoMemory>
    requires some { 1 ≤ store.now.ranks }
    requires few { store.now.ranks ≤ 32 }
    requires among { store.now.number < store.now.ranks }
    requires inside { j < length from.now }
    requires begins { begins.now ≡ begins_of (lengths_from dists.now from.now need store.now.number store.now.ranks store.now.arrays) j (length store.now.inbox) }
    ensures { IfOk result (λ piece. piece ≡ moved_at dists.now from.now need store.now.number store.now.ranks store.now.inbox store.now.arrays j) }
{
    let cells = moved_cells(alloc, store, dists, from, need, j, begins)?;
    let (arrays, array) = (&store.arrays, from[j]);
    let length = length_at(arrays, array);
    Ok(Piece {
        rows: rows_at(arrays, array),
        cuts: need_cuts(alloc, need, arrays, length, store.ranks)?,
        cells,
    })
}

// The arrays that are made of those that were moved.
#[tactic(auto, using(crate::proofs::GatherLemmas::made_more, crate::proofs::MovedLemmas::no_begins))]
fn moved_pieces(
    alloc: Global,
    store: &Store,
    dists: &Sequence<Dist>,
    from: &[u32],
    need: Need,
) -> Result<Vec<Piece>, NoMemory>
    requires some { 1 ≤ store.now.ranks }
    requires few { store.now.ranks ≤ 32 }
    requires among { store.now.number < store.now.ranks }
    ensures { IfOk result (λ made. made.items ≡ map (moved_at dists.now from.now need store.now.number store.now.ranks store.now.inbox store.now.arrays) (range_with_len 0 (length from.now))) }
{
    let mut made = Vec::with_capacity(alloc, from.len())?;
    let mut begins = first_begins(alloc, store.inbox.len())?;
    for j in 0..from.len() {
        let piece = moved_piece(alloc, store, dists, from, need, j, begins.as_slice())?;
        made.push(piece)?;
        begins = next_begins(alloc, store, dists, from, need, j, begins.as_slice())?;
    }
    Ok(made)
}

// Where the words of the first array begin in each of so many messages.
fn first_begins(alloc: Global, messages: usize) -> Result<Vec<u64>, NoMemory>
    ensures { IfOk result (λ it. it.items ≡ replicate messages 0) }
{
    Ok(vec![in alloc; 0; messages]?)
}

/// Makes arrays of those that were moved.
#[tactic(auto, unfolding(crate::specs::Unpacks::moved_data))]
pub fn do_moved(
    store: &mut Store,
    dists: &Sequence<Dist>,
    to: &[u32],
    from: &[u32],
    need: Need,
) -> Result<Local, NoMemory>
    requires next { store.old.position + 1 < 2 ^ 32 }
    requires some { 1 ≤ store.old.ranks }
    requires few { store.old.ranks ≤ 32 }
    requires among { store.old.number < store.old.ranks }
    ensures told { IfOk result (λ l. Tells (lifted (moved_data dists.now to.now from.now need store.old.number store.old.ranks store.old.inbox (data_of store.old)) store.old) l store.old store.new) }
    ensures err { OnErr result (store.new ≡ store.old) }
    ensures number { store.new.number ≡ store.old.number }
    ensures ranks { store.new.ranks ≡ store.old.ranks }
{
    let alloc = store.words.alloc();
    let made = moved_pieces(alloc, store, dists, from, need)?;
    put_all(&mut store.arrays, to, made);
    store.position += 1;
    Ok(Local::Moved)
}

// ---- halos

// The cell at a place of a block with the cells round it, of which `words` begin `reach` places before the block or with the
// array.
#[tactic(auto, using(crate::proofs::MovedLemmas::cell_outside, crate::proofs::MovedLemmas::cell_inside))]
fn halo_cell(words: &[i64], reach: u64, length: u64, from: u64, place: u64) -> i64
    ensures { result ≡ cell_round reach length (from - reach) words.now (from + place) }
{
    let before = reach.saturating_sub(from);
    let at = u128::from(from) + u128::from(place);
    if place < before || at >= u128::from(length) + u128::from(reach) {
        return 0;
    }
    cell_in(words, (place - before) as usize)
}

// A block with so many cells more at both ends.
#[tactic(auto, using(crate::proofs::GatherLemmas::made_more))]
fn halo_cells(
    alloc: Global,
    words: &[i64],
    reach: u64,
    length: u64,
    block: Span,
) -> Result<Sequence<i64>, NoMemory>
    requires { reach < 2 ^ 32 }
    ensures { IfOk
        result
        (λ cells. cells ≡ map (λ k. cell_round reach length (block.from - reach) words.now (block.from + k)) (range_with_len 0 (block.until - block.from + 2 * reach))) }
{
    let inner = block.until.saturating_sub(block.from);
    let Some(count) = inner.checked_add(2 * reach) else {
        return Err(NoMemory);
    };
    let mut cells = Sequence::new(alloc);
    for place in 0..count {
        cells.push(halo_cell(words, reach, length, block.from, place))?;
    }
    Ok(cells)
}

/// Makes the rank's block of a moved array, with so many cells more at both ends, a loose column.
#[tactic(auto, unfolding(crate::specs::Unpacks::halo_data))]
pub fn do_halo(store: &mut Store, to: u32, array: u32, reach: u32) -> Result<Local, NoMemory>
    requires next { store.old.position + 1 < 2 ^ 32 }
    requires few { store.old.ranks ≤ 32 }
    requires among { store.old.number < store.old.ranks }
    ensures told { IfOk result (λ l. Tells (lifted (halo_data to array reach store.old.number store.old.ranks store.old.inbox (data_of store.old)) store.old) l store.old store.new) }
    ensures err { OnErr result (store.new ≡ store.old) }
    ensures number { store.new.number ≡ store.old.number }
    ensures ranks { store.new.ranks ≡ store.old.ranks }
{
    let alloc = store.words.alloc();
    let words = joined_words(alloc, store.inbox.as_slice())?;
    let length = length_at(&store.arrays, array);
    let block = block_span(store.number, length, store.ranks);
    let cells = halo_cells(alloc, words.as_slice(), u64::from(reach), length, block)?;
    put(&mut store.loose, to, cells);
    store.position += 1;
    Ok(Local::Moved)
}
