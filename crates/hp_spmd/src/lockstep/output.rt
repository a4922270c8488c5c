// What rank 0 writes of the messages that it took.

ghost use Rattle.std.specs.Prelude.{◌≡◌, ◌++◌, codes, flat_map, map, IfOk, OnOk};
ghost use Rattle.std.specs.Fmt.{signed_decimal};
ghost use Rattle.std.specs.List.{range_with_len};
ghost use Rattle.hp_word.specs.LoopRules.{word_at};
ghost use Rattle.hp_word.specs.Tables.{row_count};
ghost use Rattle.hp_word.specs.Text.{csv, joined_by, row_line};
ghost use Rattle.hp_spmd.specs.Exchange.{written};
ghost use Rattle.hp_spmd.specs.Outputs.{column_in, list_written, table_written};
ghost use Rattle.hp_spmd.specs.Store.{message_at};

use crate::instr::Output;
use crate::local::exchange::joined_words;
use crate::local::packs::words_behind;
use crate::local::words::cell_in;
use crate::store::Store;
use hp_word::name::Name;
use hp_word::place::NoMemory;
use hp_word::sequence::Sequence;
use hp_word::table::Message;
use hp_word::text::{add, add_between, add_list, add_number, printed_word};
use std::alloc::Global;

/// The first word of the first message, or 0.
fn first_word(inbox: &[Message]) -> i64
    ensures { result ≡ word_at (message_at inbox.now 0).words 0 }
{
    match inbox.first() {
        Some(message) => message.words.get(0).copied().unwrap_or(0),
        None => 0,
    }
}

/// The line of an array of which each message has a part.
#[tactic(auto, unfolding(crate::specs::Outputs::list_written))]
fn list_text(alloc: Global, inbox: &[Message], truth: bool) -> Result<Vec<u8>, NoMemory>
    ensures { IfOk result (λ it. it.items ≡ list_written truth inbox.now) }
{
    let words = joined_words(alloc, inbox)?;
    let mut line = Vec::new(alloc);
    add_list(&mut line, words.as_slice(), truth)?;
    Ok(line)
}

// ---- tables

/// A column of so many, which stand behind one another in a message.
#[tactic(auto, using(crate::proofs::OutputLemmas::column_is))]
fn column_in(words: &[i64], width: usize, column: usize) -> &[i64]
    ensures { result.now ≡ column_in width column words.now }
{
    let rows = (words.len() / width.max(1)) as u64;
    words_behind(words, rows.saturating_mul(column as u64), rows)
}

/// A column of a table, of which each message has a part.
fn table_column(
    alloc: Global,
    inbox: &[Message],
    width: usize,
    column: usize,
) -> Result<Sequence<i64>, NoMemory>
    ensures { IfOk result (λ cells. cells ≡ flat_map (λ m. column_in width column m.words) inbox.now) }
{
    let mut cells = Vec::new(alloc);
    for message in inbox {
        cells.extend_from_slice(column_in(message.words.as_slice(), width, column))?;
    }
    Ok(Sequence::from_vec(cells))
}

/// All columns of a table.
#[tactic(auto, using(crate::proofs::GatherLemmas::made_more))]
fn table_columns(
    alloc: Global,
    inbox: &[Message],
    width: usize,
) -> Result<Vec<Sequence<i64>>, NoMemory>
    ensures { IfOk result (λ made. made.items ≡ map (λ j. flat_map (λ m. column_in width j m.words) inbox.now) (range_with_len 0 width)) }
{
    let mut made = Vec::with_capacity(alloc, width)?;
    for column in 0..width {
        made.push(table_column(alloc, inbox, width, column)?)?;
    }
    Ok(made)
}

/// Adds names with a comma between each two.
#[tactic(auto, unfolding(hp_word::specs::Text::joined_by))]
fn add_names(out: &mut Vec<u8>, names: &[Name]) -> Result<(), NoMemory>
    ensures { OnOk result (out.new.items ≡ out.old.items ++ joined_by (codes ",") (map (λ name. name.bytes) names.now)) }
{
    for (i, name) in names.iter().enumerate() {
        add_between(out, b",".as_slice(), i)?;
        add(out, name.bytes.as_slice())?;
    }
    Ok(())
}

/// Adds the cells of a row, by its place from 0, with a comma between each two.
#[tactic(auto, unfolding(hp_word::specs::Text::joined_by))]
fn add_cells(out: &mut Vec<u8>, columns: &[Sequence<i64>], place: usize) -> Result<(), NoMemory>
    ensures { OnOk result (out.new.items ≡ out.old.items ++ joined_by (codes ",") (map (λ cells. signed_decimal (word_at cells place)) columns.now)) }
{
    for (i, column) in columns.iter().enumerate() {
        add_between(out, b",".as_slice(), i)?;
        add_number(out, cell_in(column.as_slice(), place))?;
    }
    Ok(())
}

/// Adds the line of a row.
fn add_row(out: &mut Vec<u8>, columns: &[Sequence<i64>], place: usize) -> Result<(), NoMemory>
    ensures { OnOk result (out.new.items ≡ out.old.items ++ row_line columns.now place) }
{
    add_cells(out, columns, place)?;
    add(out, b"\n".as_slice())?;
    Ok(())
}

/// How many rows columns have, by the first one.
fn row_count(columns: &[Sequence<i64>]) -> usize
    ensures { result ≡ row_count columns.now }
{
    match columns {
        [] => 0,
        [first, ..] => first.len(),
    }
}

/// Adds a table: the names of its columns, and then its rows.
fn add_csv(out: &mut Vec<u8>, names: &[Name], columns: &[Sequence<i64>]) -> Result<(), NoMemory>
    ensures { OnOk result (out.new.items ≡ out.old.items ++ csv (map (λ name. name.bytes) names.now) columns.now) }
{
    add_names(out, names)?;
    add(out, b"\n".as_slice())?;
    for place in 0..row_count(columns) {
        add_row(out, columns, place)?;
    }
    Ok(())
}

/// A table with these names, of which each message has a part.
#[tactic(auto, unfolding(crate::specs::Outputs::table_written))]
fn table_text(alloc: Global, inbox: &[Message], names: &[Name]) -> Result<Vec<u8>, NoMemory>
    ensures { IfOk result (λ it. it.items ≡ table_written names.now inbox.now) }
{
    let columns = table_columns(alloc, inbox, names.len())?;
    let mut out = Vec::new(alloc);
    add_csv(&mut out, names, columns.as_slice())?;
    Ok(out)
}

/// What a rank writes of the messages that it took.
#[tactic(auto, unfolding(crate::specs::Exchange::written))]
pub fn text(alloc: Global, output: &Output, store: &Store) -> Result<Vec<u8>, NoMemory>
    ensures { IfOk result (λ it. it.items ≡ written output.now store.now.inbox) }
{
    let inbox = store.inbox.as_slice();
    match output {
        Output::Word(_, truth) => printed_word(alloc, first_word(inbox), *truth),
        Output::List(_, truth) => list_text(alloc, inbox, *truth),
        Output::Table(_, names) => table_text(alloc, inbox, names.as_slice()),
    }
}
