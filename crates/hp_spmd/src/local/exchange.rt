// What Pack and Unpack do to a store.

ghost use Rattle.std.specs.Prelude.{◌≡◌, ◌+◌, ◌-◌, ◌<◌, ◌≤◌, ◌^◌, ◌∷◌, ◌++◌, [], map, replicate, slice_index_or, take, Ok, IfOk, OnErr, OnOk};
ghost use Rattle.hp_word.specs.Folds.{fold_of};
ghost use Rattle.hp_spmd.specs.Local.{pack_done};
ghost use Rattle.hp_spmd.specs.Exchange.{packed, unpacked, part_of};
ghost use Rattle.hp_spmd.specs.Messages.{words_across, with_words_folded, message_of, of_first};
ghost use Rattle.hp_spmd.specs.Packs.{cells_for_root, parts_for_root};
ghost use Rattle.hp_spmd.specs.Unpacks.{below_data, into_data, joined_words};
ghost use Rattle.hp_word.specs.declared.fold.FoldKind.TheVariants.{Sum};
ghost use Rattle.hp_spmd.specs.Next.{Goes, Tells, lifted};
ghost use Rattle.hp_word.specs.LoopRules.{word_at};
ghost use Rattle.hp_spmd.specs.Store.{data_of, no_message};

use crate::dist::Dist;
use crate::instr::{Output, Packing, Unpacking};
use crate::local::Local;
use crate::local::arrays::cells_at;
use crate::local::moves::{do_halo, do_moved};
use crate::local::packs::{hash_packed, move_packed};
use crate::local::pieces::dist_at;
use crate::local::receipts::{do_glued, do_got, do_total};
use crate::local::seals::do_seal;
use crate::local::words::{count_word, item_or, no_messages, put, word_at};
use crate::store::Store;
use hp_word::fold::{FoldKind, empty, fold};
use hp_word::place::NoMemory;
use hp_word::sequence::Sequence;
use hp_word::table::Message;
use std::alloc::Global;

/// Makes the messages for each rank.
#[tactic(auto, unfolding(crate::specs::Local::pack_done))]
pub fn do_pack(store: &mut Store, dists: &Sequence<Dist>, what: &Packing) -> Result<Local, NoMemory>
    requires next { store.old.position + 1 < 2 ^ 32 }
    requires some { 1 ≤ store.old.ranks }
    requires few { store.old.ranks ≤ 32 }
    requires among { store.old.number < store.old.ranks }
    ensures told { IfOk result (λ l. Tells (Goes (pack_done dists.now what.now store.old)) l store.old store.new) }
    ensures err { OnErr result (store.new ≡ store.old) }
    ensures number { store.new.number ≡ store.old.number }
    ensures ranks { store.new.ranks ≡ store.old.ranks }
{
    let outbox = packed(store, dists, what)?;
    store.outbox = outbox;
    store.sent = 0;
    store.got = 0;
    store.position += 1;
    Ok(Local::Moved)
}

/// Makes of the messages what the unpack says.
#[tactic(auto, unfolding(crate::specs::Exchange::unpacked))]
pub fn do_unpack(
    store: &mut Store,
    dists: &Sequence<Dist>,
    what: &Unpacking,
) -> Result<Local, NoMemory>
    requires next { store.old.position + 1 < 2 ^ 32 }
    requires some { 1 ≤ store.old.ranks }
    requires few { store.old.ranks ≤ 32 }
    requires among { store.old.number < store.old.ranks }
    ensures told { IfOk result (λ l. Tells (lifted (unpacked dists.now what.now store.old.number store.old.ranks store.old.inbox (data_of store.old)) store.old) l store.old store.new) }
    ensures err { OnErr result (store.new ≡ store.old) }
    ensures number { store.new.number ≡ store.old.number }
    ensures ranks { store.new.ranks ≡ store.old.ranks }
{
    match what {
        Unpacking::Folds(list) => Ok(do_folds(store, list)),
        Unpacking::Below(to) => Ok(do_below(store, *to)),
        Unpacking::Seal(to, loose, at) => do_seal(store, to.as_slice(), loose.as_slice(), *at),
        Unpacking::Total(to, left) => do_total(store, *to, *left),
        Unpacking::Moved(to, from, need) => {
            do_moved(store, dists, to.as_slice(), from.as_slice(), *need)
        }
        Unpacking::Halo(to, array, reach) => do_halo(store, *to, *array, *reach),
        Unpacking::Into(to) => do_into(store, *to),
        Unpacking::Glued(to, loose, left, right) => do_glued(store, *to, *loose, *left, *right),
        Unpacking::Got(columns) => do_got(store, columns.as_slice()),
    }
}

// Makes words the folds of the messages' words.
fn do_folds(store: &mut Store, list: &Sequence<(u32, FoldKind)>) -> Local
    requires { store.old.position + 1 < 2 ^ 32 }
    ensures told { Tells (lifted (Ok (record (data_of store.old) { words = with_words_folded 0 store.old.inbox list.now store.old.words })) store.old) result store.old store.new }
    ensures number { store.new.number ≡ store.old.number }
    ensures ranks { store.new.ranks ≡ store.old.ranks }
{
    fold_words(&mut store.words, store.inbox.as_slice(), list);
    store.position += 1;
    Local::Moved
}

// Makes a word the sum of the first words of the messages from the ranks below this one.
#[tactic(auto, unfolding(crate::specs::Unpacks::below_data))]
fn do_below(store: &mut Store, to: u32) -> Local
    requires { store.old.position + 1 < 2 ^ 32 }
    ensures told { Tells (lifted (below_data to store.old.number store.old.inbox (data_of store.old)) store.old) result store.old store.new }
    ensures number { store.new.number ≡ store.old.number }
    ensures ranks { store.new.ranks ≡ store.old.ranks }
{
    let sum = sum_below(store.inbox.as_slice(), store.number);
    put(&mut store.words, to, sum);
    store.position += 1;
    Local::Moved
}

// Makes a loose column of the messages' words.
#[tactic(auto, unfolding(crate::specs::Unpacks::into_data))]
fn do_into(store: &mut Store, to: u32) -> Result<Local, NoMemory>
    requires { store.old.position + 1 < 2 ^ 32 }
    ensures told { IfOk result (λ l. Tells (lifted (into_data to store.old.inbox (data_of store.old)) store.old) l store.old store.new) }
    ensures err { OnErr result (store.new ≡ store.old) }
    ensures number { store.new.number ≡ store.old.number }
    ensures ranks { store.new.ranks ≡ store.old.ranks }
{
    let words = joined_words(store.words.alloc(), store.inbox.as_slice())?;
    put(&mut store.loose, to, words);
    store.position += 1;
    Ok(Local::Moved)
}

// The sum of the first words of the messages from the ranks below this one.
#[tactic(auto, using(std::proofs::lemmas::List::take_min))]
fn sum_below(inbox: &[Message], number: u32) -> i64
    ensures { result ≡ fold_of Sum (words_across 0 (take number inbox.now)) }
{
    let number = number as usize;
    if number < inbox.len() {
        folded_across(&inbox[..number], 0, FoldKind::Sum)
    } else {
        folded_across(inbox, 0, FoldKind::Sum)
    }
}

/// Adds all words of the messages, in rank order.
pub fn add_words(words: &mut Vec<i64>, inbox: &[Message]) -> Result<(), NoMemory>
    ensures { OnOk result (words.new.items ≡ words.old.items ++ joined_words inbox.now) }
{
    for message in inbox {
        words.extend_from_slice(message.words.as_slice())?;
    }
    Ok(())
}

/// All words of the messages, in rank order.
pub fn joined_words(alloc: Global, inbox: &[Message]) -> Result<Sequence<i64>, NoMemory>
    ensures { IfOk result (λ words. words ≡ joined_words inbox.now) }
{
    let mut words = Vec::new(alloc);
    add_words(&mut words, inbox)?;
    Ok(Sequence::from_vec(words))
}

// Makes each word the fold of the messages' words at its position in the list.
fn fold_words(words: &mut Sequence<i64>, inbox: &[Message], list: &Sequence<(u32, FoldKind)>)
    ensures { words.new ≡ with_words_folded 0 inbox.now list.now words.old }
{
    for (at, folding) in list.as_slice().iter().enumerate() {
        let value = folded_across(inbox, at, folding.1);
        put(words, folding.0, value);
    }
}

/// The fold of the messages' words at a position, in rank order.
pub fn folded_across(inbox: &[Message], at: usize, kind: FoldKind) -> i64
    ensures { result ≡ fold_of kind (words_across at inbox.now) }
{
    let mut so_far = empty(kind);
    for message in inbox {
        so_far = fold(kind, so_far, item_or(&message.words, at, 0));
    }
    so_far
}

// The messages for each rank.
#[tactic(auto, unfolding(crate::specs::Exchange::packed, crate::specs::Packs::sizes_packed, crate::specs::Packs::partial_packed))]
fn packed(
    store: &Store,
    dists: &Sequence<Dist>,
    what: &Packing,
) -> Result<Sequence<Message>, NoMemory>
    requires some { 1 ≤ store.now.ranks }
    requires few { store.now.ranks ≤ 32 }
    requires among { store.now.number < store.now.ranks }
    ensures { IfOk result (λ list. list ≡ packed dists.now what.now store.now.number store.now.ranks (data_of store.now)) }
{
    let alloc = store.words.alloc();
    match what {
        Packing::Words(which) => {
            let words = picked(alloc, &store.words, which)?;
            same_messages(alloc, words.as_slice(), store.ranks)
        }
        Packing::Sizes(loose) => {
            let size = count_word(loose_at(&store.loose, *loose).len() as u64);
            same_messages(alloc, &[size], store.ranks)
        }
        Packing::Partial(loose) => {
            same_messages(alloc, loose_at(&store.loose, *loose), store.ranks)
        }
        Packing::Move(arrays, need) => move_packed(alloc, store, dists, arrays.as_slice(), *need),
        Packing::Hash(arrays, key) => hash_packed(alloc, store, dists, arrays.as_slice(), *key),
        Packing::Gather(output) => {
            let part = part_of(alloc, store, dists, output)?;
            gathered(alloc, part, store.ranks)
        }
    }
}

/// The cells of a loose column; none where there is no such column.
pub fn loose_at(loose: &Sequence<Sequence<i64>>, at: u32) -> &[i64]
    ensures { result.now ≡ slice_index_or loose.now at [] }
{
    let (columns, at) = (loose.as_slice(), at as usize);
    if at < columns.len() {
        columns[at].as_slice()
    } else {
        &[]
    }
}

// For each rank a message of these words.
#[tactic(auto, using(std::proofs::lemmas::List::replicate_more))]
fn same_messages(alloc: Global, words: &[i64], ranks: u32) -> Result<Sequence<Message>, NoMemory>
    ensures { IfOk result (λ list. list ≡ replicate ranks (message_of words.now)) }
{
    let mut list = Vec::with_capacity(alloc, ranks as usize)?;
    for _rank in 0..ranks {
        list.push(Message {
            words: Sequence::from_slice(alloc, words)?,
        })?;
    }
    Ok(Sequence::from_vec(list))
}

// The words at these positions.
fn picked(
    alloc: Global,
    words: &Sequence<i64>,
    which: &Sequence<u32>,
) -> Result<Sequence<i64>, NoMemory>
    ensures { IfOk result (λ list. list ≡ map (word_at words.now) which.now) }
{
    let mut list = Vec::with_capacity(alloc, which.len())?;
    for at in which.as_slice() {
        list.push(word_at(words, *at))?;
    }
    Ok(Sequence::from_vec(list))
}

// A rank's part of an output.
fn part_of(
    alloc: Global,
    store: &Store,
    dists: &Sequence<Dist>,
    output: &Output,
) -> Result<Sequence<i64>, NoMemory>
    ensures { IfOk result (λ part. part ≡ part_of dists.now output.now store.now.number (data_of store.now)) }
{
    match output {
        Output::Word(word, _) => of_first(alloc, store.number, word_at(&store.words, *word)),
        Output::List(array, _) => {
            let cells = cells_at(&store.arrays, *array);
            let part = cells_for_root(dist_at(dists, *array), store.number, cells);
            Ok(Sequence::from_slice(alloc, part)?)
        }
        Output::Table(arrays, _) => parts_for_root(alloc, store, dists, arrays.as_slice()),
    }
}

// A rank's parts of these arrays for rank 0, one behind the other.
fn parts_for_root(
    alloc: Global,
    store: &Store,
    dists: &Sequence<Dist>,
    arrays: &[u32],
) -> Result<Sequence<i64>, NoMemory>
    ensures { IfOk result (λ part. part ≡ parts_for_root dists.now arrays.now store.now.number (data_of store.now)) }
{
    let mut parts = Vec::new(alloc);
    for array in arrays {
        let cells = cells_at(&store.arrays, *array);
        parts.extend_from_slice(cells_for_root(dist_at(dists, *array), store.number, cells))?;
    }
    Ok(Sequence::from_vec(parts))
}

// A rank's part of an array for rank 0: of one that all ranks have, rank 0's alone.
fn cells_for_root(dist: Dist, number: u32, cells: &[i64]) -> &[i64]
    ensures { result.now ≡ cells_for_root dist number cells.now }
{
    if dist == Dist::Rep && number > 0 {
        &[]
    } else {
        cells
    }
}

// The word on rank 0, and nothing on the others.
fn of_first(alloc: Global, number: u32, word: i64) -> Result<Sequence<i64>, NoMemory>
    ensures { IfOk result (λ part. part ≡ of_first number word) }
{
    let mut part = Sequence::new(alloc);
    if number == 0 {
        part.push(word)?;
    }
    Ok(part)
}

// A message for rank 0, and empty ones for the others.
fn gathered(alloc: Global, part: Sequence<i64>, ranks: u32) -> Result<Sequence<Message>, NoMemory>
    requires { 1 ≤ ranks }
    ensures { IfOk result (λ list. list ≡ message_of part ∷ replicate (ranks - 1) no_message) }
{
    let mut list = no_messages(alloc, ranks)?;
    list.set(0, Message { words: part });
    Ok(list)
}
