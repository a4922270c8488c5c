// Reading and writing a store's lists, and making lists of one value. What is not there counts as 0 or empty.

ghost use Rattle.std.specs.Prelude.{◌≡◌, ◌<◌, ◌^◌, pos, [], replicate, slice_index_or, slice_set, IfOk};
ghost use Rattle.hp_word.specs.LoopRules.{word_at};
ghost use Rattle.hp_spmd.specs.Scalars.{count_word};
ghost use Rattle.hp_spmd.specs.Store.{no_message};

use hp_word::place::NoMemory;
use hp_word::sequence::Sequence;
use hp_word::table::Message;
use std::alloc::Global;

/// A copy of the item at a position, or the default where there is none.
pub fn item_or<T: Copy>(list: &Sequence<T>, at: usize, default: T) -> T
    ensures { result ≡ slice_index_or list.now at default }
{
    let items = list.as_slice();
    if at < items.len() { items[at] } else { default }
}

/// The word at a position, or 0 where there is none.
pub fn word_at(words: &Sequence<i64>, at: u32) -> i64
    ensures { result ≡ word_at words.now at }
{
    item_or(words, at as usize, 0)
}

/// The word at a position of a slice, or 0 where there is none.
pub fn word_in(words: &[i64], at: u32) -> i64
    ensures { result ≡ word_at words.now at }
{
    cell_in(words, at as usize)
}

/// The cell at a place of a slice, or 0 where there is none.
pub fn cell_in(cells: &[i64], place: usize) -> i64
    ensures { result ≡ word_at cells.now place }
{
    if place < cells.len() { cells[place] } else { 0 }
}

/// A count as a word; one above the greatest word counts as that.
#[tactic(auto, unfolding(crate::specs::Scalars::count_word))]
pub fn count_word(count: u64) -> i64
    ensures { result ≡ count_word count }
{
    count.min(i64::MAX as u64) as i64
}

/// Puts an item in the place of the one at a position; where there is none, nothing changes.
#[tactic(auto, using(std::proofs::lemmas::List::set_past))]
pub fn put<T: Drop>(list: &mut Sequence<T>, at: u32, item: T)
    ensures { list.new ≡ slice_set list.old at item }
{
    let at = at as usize;
    if at < list.len() {
        list.set(at, item);
    }
}

/// So many times one word.
pub fn repeated(alloc: Global, count: u64, value: i64) -> Result<Sequence<i64>, NoMemory>
    ensures { IfOk result (λ it. it ≡ replicate count value) }
{
    Ok(Sequence::from_vec(vec![in alloc; value; count as usize]?))
}

/// So many empty messages.
#[tactic(auto, using(std::proofs::lemmas::List::replicate_more))]
pub fn empty_messages(alloc: Global, count: u32) -> Result<Vec<Message>, NoMemory>
    ensures { IfOk result (λ it. it.items ≡ replicate count no_message) }
{
    let mut list = Vec::with_capacity(alloc, count as usize)?;
    for _made in 0..count {
        list.push(Message {
            words: Sequence::new(alloc),
        })?;
    }
    Ok(list)
}

/// So many empty messages, as a list.
pub fn no_messages(alloc: Global, count: u32) -> Result<Sequence<Message>, NoMemory>
    ensures { IfOk result (λ it. it ≡ replicate count no_message) }
{
    Ok(Sequence::from_vec(empty_messages(alloc, count)?))
}

/// So many empty columns.
#[tactic(auto, using(std::proofs::lemmas::List::replicate_more))]
pub fn no_columns(alloc: Global, count: u32) -> Result<Sequence<Sequence<i64>>, NoMemory>
    ensures { IfOk result (λ it. it ≡ replicate count []) }
{
    let mut list = Vec::with_capacity(alloc, count as usize)?;
    for _made in 0..count {
        list.push(Sequence::new(alloc))?;
    }
    Ok(Sequence::from_vec(list))
}
