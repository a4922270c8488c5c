// What Unpack makes of the other messages: sums, arrays end to end, and rows.

ghost use Rattle.std.specs.Prelude.{◌≡◌, ◌+◌, ◌*◌, ◌++◌, ◌<◌, ◌≤◌, ◌^◌, flat_map, length, map, max, IfOk, OnErr, OnOk};
ghost use Rattle.std.specs.List.{range_with_len};
ghost use Rattle.hp_word.specs.declared.fold.FoldKind.TheVariants.{Sum};
ghost use Rattle.hp_word.specs.Folds.{fold_of};
ghost use Rattle.hp_word.specs.LoopRules.{word_at};
ghost use Rattle.hp_spmd.specs.Messages.{words_across};
ghost use Rattle.hp_spmd.specs.Next.{Tells, lifted};
ghost use Rattle.hp_spmd.specs.Store.{data_of};
ghost use Rattle.hp_spmd.specs.Unpacks.{glued_data, got_data, most_words, row_cells, total_data};

use crate::local::Local;
use crate::local::arrays::rows_at;
use crate::local::check::length_at;
use crate::local::exchange::{add_words, folded_across, loose_at};
use crate::local::needs::both_lengths;
use crate::local::pieces::{block_cuts, whole_piece};
use crate::local::setting::put_all;
use crate::local::words::{cell_in, put};
use crate::store::{Piece, Store};
use hp_word::fold::FoldKind;
use hp_word::place::NoMemory;
use hp_word::sequence::Sequence;
use hp_word::table::Message;
use std::alloc::Global;

// ---- sums

// How many words the longest message has.
fn most_words(inbox: &[Message]) -> usize
    ensures { result ≡ most_words inbox.now }
{
    let mut most: usize = 0;
    for message in inbox {
        most = most.max(message.words.len());
    }
    most
}

// The sums of the messages, place by place.
#[tactic(auto, using(crate::proofs::GatherLemmas::made_more))]
fn sums_across(alloc: Global, inbox: &[Message]) -> Result<Sequence<i64>, NoMemory>
    ensures { IfOk result (λ sums. sums ≡ map (λ k. fold_of Sum (words_across k inbox.now)) (range_with_len 0 (most_words inbox.now))) }
{
    let mut sums = Sequence::new(alloc);
    for place in 0..most_words(inbox) {
        sums.push(folded_across(inbox, place, FoldKind::Sum))?;
    }
    Ok(sums)
}

/// Makes the sums of the messages an array that is whole on each rank, with as many rows as another one.
#[tactic(auto, unfolding(crate::specs::Unpacks::total_data))]
pub fn do_total(store: &mut Store, to: u32, left: u32) -> Result<Local, NoMemory>
    requires next { store.old.position + 1 < 2 ^ 32 }
    ensures told { IfOk result (λ l. Tells (lifted (total_data to left store.old.inbox (data_of store.old)) store.old) l store.old store.new) }
    ensures err { OnErr result (store.new ≡ store.old) }
    ensures number { store.new.number ≡ store.old.number }
    ensures ranks { store.new.ranks ≡ store.old.ranks }
{
    let alloc = store.words.alloc();
    let sums = sums_across(alloc, store.inbox.as_slice())?;
    let piece = whole_piece(alloc, rows_at(&store.arrays, left), sums)?;
    put(&mut store.arrays, to, piece);
    store.position += 1;
    Ok(Local::Moved)
}

// ---- arrays end to end

/// Makes a loose column with the messages' words behind it the rank's block of two arrays, one behind the other.
#[tactic(auto, unfolding(crate::specs::Unpacks::glued_data))]
pub fn do_glued(
    store: &mut Store,
    to: u32,
    loose: u32,
    left: u32,
    right: u32,
) -> Result<Local, NoMemory>
    requires next { store.old.position + 1 < 2 ^ 32 }
    requires some { 1 ≤ store.old.ranks }
    requires few { store.old.ranks ≤ 32 }
    ensures told { IfOk result (λ l. Tells (lifted (glued_data to loose left right store.old.ranks store.old.inbox (data_of store.old)) store.old) l store.old store.new) }
    ensures err { OnErr result (store.new ≡ store.old) }
    ensures number { store.new.number ≡ store.old.number }
    ensures ranks { store.new.ranks ≡ store.old.ranks }
{
    let alloc = store.words.alloc();
    let mut cells = Vec::from_slice(alloc, loose_at(&store.loose, loose))?;
    add_words(&mut cells, store.inbox.as_slice())?;
    let length = both_lengths(
        length_at(&store.arrays, left),
        length_at(&store.arrays, right),
    );
    let piece = Piece {
        rows: 1,
        cuts: block_cuts(alloc, length, store.ranks)?,
        cells: Sequence::from_vec(cells),
    };
    put(&mut store.arrays, to, piece);
    store.position += 1;
    Ok(Local::Moved)
}

// ---- rows

// The cell at a place of a row, of rows of so many cells.
#[tactic(auto, using(crate::proofs::GotLemmas::cell_still))]
fn cell_of_row(words: &[i64], width: usize, place: usize, row: usize) -> i64
    ensures { result ≡ word_at words.now (row * width + place) }
{
    cell_in(words, row.saturating_mul(width).saturating_add(place))
}

// Adds the cells at a place of each whole row, of rows of so many cells.
fn add_column(
    column: &mut Vec<i64>,
    words: &[i64],
    width: usize,
    place: usize,
) -> Result<(), NoMemory>
    ensures { OnOk result (column.new.items ≡ column.old.items ++ row_cells width place words.now) }
{
    for row in 0..words.len() / width.max(1) {
        column.push(cell_of_row(words, width, place, row))?;
    }
    Ok(())
}

// The cells at a place of each row of all messages, in rank order.
fn got_column(
    alloc: Global,
    inbox: &[Message],
    width: usize,
    place: usize,
) -> Result<Sequence<i64>, NoMemory>
    ensures { IfOk result (λ column. column ≡ flat_map (λ m. row_cells width place m.words) inbox.now) }
{
    let mut column = Vec::new(alloc);
    for message in inbox {
        add_column(&mut column, message.words.as_slice(), width, place)?;
    }
    Ok(Sequence::from_vec(column))
}

// The columns of the rows of all messages, in rank order.
#[tactic(auto, using(crate::proofs::GatherLemmas::made_more))]
fn got_columns(
    alloc: Global,
    inbox: &[Message],
    width: usize,
) -> Result<Vec<Sequence<i64>>, NoMemory>
    ensures { IfOk result (λ made. made.items ≡ map (λ j. flat_map (λ m. row_cells width j m.words) inbox.now) (range_with_len 0 width)) }
{
    let mut made = Vec::with_capacity(alloc, width)?;
    for place in 0..width {
        made.push(got_column(alloc, inbox, width, place)?)?;
    }
    Ok(made)
}

/// Makes loose columns of the rows that the messages hold: their places, then their cells.
#[tactic(auto, unfolding(crate::specs::Unpacks::got_data))]
pub fn do_got(store: &mut Store, columns: &[u32]) -> Result<Local, NoMemory>
    requires next { store.old.position + 1 < 2 ^ 32 }
    ensures told { IfOk result (λ l. Tells (lifted (got_data columns.now store.old.inbox (data_of store.old)) store.old) l store.old store.new) }
    ensures err { OnErr result (store.new ≡ store.old) }
    ensures number { store.new.number ≡ store.old.number }
    ensures ranks { store.new.ranks ≡ store.old.ranks }
{
    let alloc = store.words.alloc();
    let made = got_columns(alloc, store.inbox.as_slice(), columns.len())?;
    put_all(&mut store.loose, columns, made);
    store.position += 1;
    Ok(Local::Moved)
}
