// What is written for values and frames.

ghost use Rattle.std.specs.Prelude.{◌≡◌, ◌++◌, codes, map, slice_index_or, pos, OnOk};
ghost use Rattle.std.specs.Fmt.{signed_decimal};
ghost use Rattle.hp_word.specs.Text.{joined_by, row_line};
ghost use Rattle.hp_meaning.specs.FrameRules.{cells_of};
ghost use Rattle.hp_meaning.specs.HeldValues.{looked, Writes};
ghost use Rattle.hp_meaning.specs.Printouts.{names_of, frame_text, printout, export_text};

use crate::columns::rows_of;
use crate::held::{Look, is_kind};
use crate::matrices::cell_at;
use crate::seen::Stop;
use crate::value::{Column, Kind};
use hp_word::place::NoMemory;
use hp_word::text::{add, add_between, add_list, add_number, add_word};

/// What `println` writes.
pub fn print(out: &mut Vec<u8>, a: Look) -> Result<(), Stop>
    ensures { Writes (printout (looked a.entry)) result out.old.items out.new.items }
{
    match a {
        Look::Word(kind, x) => {
            add_word(out, x, is_kind(Kind::Truth, kind))?;
            Ok(add(out, b"\n".as_slice())?)
        }
        Look::List(kind, xs) => Ok(add_list(out, xs, is_kind(Kind::Truth, kind))?),
        _ => Err(Stop::Wrong),
    }
}

/// Adds the names of columns with a comma between each two.
#[tactic(auto, unfolding(hp_word::specs::Text::joined_by))]
fn add_names(out: &mut Vec<u8>, columns: &[Column]) -> Result<(), NoMemory>
    ensures { OnOk result (out.new.items ≡ out.old.items ++ joined_by (codes ",") (names_of columns.now)) }
{
    for (i, column) in columns.iter().enumerate() {
        add_between(out, b",".as_slice(), i)?;
        add(out, column.name.bytes.as_slice())?;
    }
    Ok(())
}

/// Adds the cells of a row, by its place from 0, with a comma between each two.
#[tactic(auto, unfolding(hp_word::specs::Text::joined_by))]
fn add_cells(out: &mut Vec<u8>, columns: &[Column], place: usize) -> Result<(), NoMemory>
    ensures { OnOk result (out.new.items ≡ out.old.items ++ joined_by (codes ",") (map (λ c. signed_decimal (slice_index_or c.cells place (pos 0))) columns.now)) }
{
    for (i, column) in columns.iter().enumerate() {
        add_between(out, b",".as_slice(), i)?;
        add_number(out, cell_at(column.cells.as_slice(), place))?;
    }
    Ok(())
}

/// Adds the line of a row.
#[tactic(auto, unfolding(hp_word::specs::Text::row_line))]
fn add_row(out: &mut Vec<u8>, columns: &[Column], place: usize) -> Result<(), NoMemory>
    ensures { OnOk result (out.new.items ≡ out.old.items ++ row_line (cells_of columns.now) place) }
{
    add_cells(out, columns, place)?;
    add(out, b"\n".as_slice())?;
    Ok(())
}

/// Adds the names of a frame's columns, and then its rows.
fn add_csv(out: &mut Vec<u8>, columns: &[Column]) -> Result<(), NoMemory>
    ensures { OnOk result (out.new.items ≡ out.old.items ++ frame_text columns.now) }
{
    add_names(out, columns)?;
    add(out, b"\n".as_slice())?;
    for place in 0..rows_of(columns) {
        add_row(out, columns, place)?;
    }
    Ok(())
}

/// What `write_csv` writes.
pub fn export(out: &mut Vec<u8>, a: Look) -> Result<(), Stop>
    ensures { Writes (export_text (looked a.entry)) result out.old.items out.new.items }
{
    let columns = a.frame()?;
    Ok(add_csv(out, columns)?)
}
