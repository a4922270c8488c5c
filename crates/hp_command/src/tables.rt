// The tables that a script reads.

ghost use Rattle.std.specs.Prelude.{◌≡◌, ◌++◌, ◌∷◌, [], ℕ, ℤ, List, Ok, Err, Result, IfOk, IfErr, OnOk, MatchResult, bytes_eq, find, length};
ghost use Rattle.std.specs.Option.{option_copied};
ghost use Rattle.hp_tables.specs.declared.bad.Bad.{Bad as SpecBad};
ghost use Rattle.hp_tables.specs.Contents.{Tells, answer_of};
ghost use Rattle.hp_meaning.specs.Fitting.{Serves};
ghost use Rattle.hp_command.specs.Session.{FaultOf, IsNoMemory, IsUnread, RefusesTable};
ghost use Rattle.hp_command.specs.TableTexts.{AreTexts, HasNoTable, StandsFor};
ghost use Rattle.hp_command.specs.TablesRead.{MayGive, AreTables, IsFirstBad, IsReached};

use crate::answer::Answer;
use hp_outside::files::{FileError, Files};
use hp_script::typed::ReadSpec;
use hp_tables::bad::{Bad, TableError};
use hp_tables::read::columns;
use hp_word::name::{Name, copied_name};
use hp_word::place::NoMemory;
use hp_word::sequence::Sequence;
use hp_word::table::{Table, Tables};
use std::alloc::Global;

// One byte more than a table's file may have, so that too many are seen.
const TABLE_BYTES: u64 = 67_108_865;

/// A file that was read: its name, and its bytes or the front of them that is read.
#[derive(Drop)]
struct FileText {
    name: Name,
    bytes: Sequence<u8>,
}

/// The tables that calls read, in the order of the text, or the answer that says of which file there is none. A file
/// is read at the first call that names it, and once.
pub fn tables_in<F: Files>(
    alloc: Global,
    files: &mut F,
    reads: &[ReadSpec],
) -> Result<Tables, Answer>
    ensures tables { IfOk result (λ tables. AreTables (MayGive (F.holds files.old)) reads.now tables.list) }
    ensures serve { IfOk result (λ tables. Serves tables.list reads.now) }
    ensures bad { IfErr result (RefusesTable (IsFirstBad (MayGive (F.holds files.old)) reads.now)) }
    ensures fault { MatchResult result (λ _. F.faults files.new ≡ F.faults files.old)
        (FaultOf (IsReached (MayGive (F.holds files.old)) reads.now) (F.faults files.old) (F.faults files.new) (F.failed files.new)) }
    ensures same { (other : List ℕ) → F.holds files.new other ≡ F.holds files.old other }
{
    let mut texts = Sequence::new(alloc);
    let mut list = Sequence::new(alloc);
    for read in reads {
        let table = table_of(alloc, files, &mut texts, read)?;
        added(&mut list, table)?;
    }
    Ok(Tables { list })
}

// The table of a call, of its file, which is read where it is not among those that were.
fn table_of<F: Files>(
    alloc: Global,
    files: &mut F,
    texts: &mut Sequence<FileText>,
    read: &ReadSpec,
) -> Result<Table, Answer>
    requires { AreTexts (F.holds files.old) texts.old }
    ensures table { IfOk result (λ table. MayGive (F.holds files.old) read.now (Ok table.columns)) }
    ensures wide { IfOk result (λ table. length table.columns ≡ length read.now.columns) }
    ensures texts { OnOk result (AreTexts (F.holds files.old) texts.new) }
    ensures bad { IfErr result (RefusesTable (λ name bad. (name ≡ read.now.file) × MayGive (F.holds files.old) read.now (Err bad))) }
    ensures fault { MatchResult result (λ _. F.faults files.new ≡ F.faults files.old)
        (FaultOf (λ name. name ≡ read.now.file.bytes) (F.faults files.old) (F.faults files.new) (F.failed files.new)) }
    ensures same { (other : List ℕ) → F.holds files.new other ≡ F.holds files.old other }
{
    if let Some(text) = text_named(texts.as_slice(), &read.file) {
        return columns_in(alloc, text.bytes.as_slice(), read);
    }
    let text = text_of(alloc, files, &read.file)?;
    let table = columns_in(alloc, text.bytes.as_slice(), read)?;
    added(texts, text)?;
    Ok(table)
}

// The file of this name, where it is among those that were read.
fn text_named<'a>(texts: &'a [FileText], name: &Name) -> Option<&'a FileText>
    ensures { option_copied result ≡ find (λ text. bytes_eq text.name.bytes name.now.bytes) texts.now }
{
    texts
        .iter()
        .find(|text| text.name.bytes.as_slice() == name.bytes.as_slice())
}

// Reads the file of this name.
fn text_of<F: Files>(alloc: Global, files: &mut F, name: &Name) -> Result<FileText, Answer>
    ensures named { IfOk result (λ text. text.name ≡ name.now) }
    ensures text { IfOk result (λ text. StandsFor (F.holds files.old) name.now.bytes text.bytes) }
    ensures unread { IfErr result IsUnread }
    ensures fault { MatchResult result (λ _. F.faults files.new ≡ F.faults files.old)
        (FaultOf (λ other. other ≡ name.now.bytes) (F.faults files.old) (F.faults files.new) (F.failed files.new)) }
    ensures same { (other : List ℕ) → F.holds files.new other ≡ F.holds files.old other }
{
    let name = copied(alloc, name)?;
    match files.read(alloc, &name, TABLE_BYTES) {
        Ok(bytes) => Ok(FileText {
            name,
            bytes: Sequence::from_vec(bytes),
        }),
        Err(FileError::Failed) => Err(Answer::FileFault(name)),
        Err(FileError::NoMemory) => Err(Answer::NoMemory),
    }
}

// The columns of a call in the bytes of its file, or the answer that says why there are none.
fn columns_in(alloc: Global, bytes: &[u8], read: &ReadSpec) -> Result<Table, Answer>
    ensures table { IfOk result (λ table. answer_of read.now.columns bytes.now ≡ Ok table.columns) }
    ensures wide { IfOk result (λ table. length table.columns ≡ length read.now.columns) }
    ensures bad { IfErr result (HasNoTable (λ name bad. (name ≡ read.now.file) × (answer_of read.now.columns bytes.now ≡ Err bad))) }
{
    match columns(alloc, bytes, read.columns.as_slice()) {
        Ok(table) => Ok(table),
        Err(error) => Err(refusal(alloc, &read.file, error)),
    }
}

// The answer for a file that has no table.
fn refusal(alloc: Global, file: &Name, error: TableError) -> Answer
    ensures { (answer : Result (List (List ℤ)) SpecBad) → Tells answer error
        → HasNoTable (λ name bad. (name ≡ file.now) × (answer ≡ Err bad)) result }
{
    match error {
        TableError::Bad(bad) => bad_table(alloc, file, bad),
        TableError::NoMemory => Answer::NoMemory,
    }
}

// The answer for a file with this fault.
fn bad_table(alloc: Global, file: &Name, bad: Bad) -> Answer
    ensures { HasNoTable (λ name fault. (name ≡ file.now) × (fault ≡ bad)) result }
{
    match copied(alloc, file) {
        Ok(name) => Answer::BadTable(name, bad),
        Err(answer) => answer,
    }
}

fn copied(alloc: Global, name: &Name) -> Result<Name, Answer>
    ensures same { IfOk result (λ copy. copy ≡ name.now) }
    ensures only { IfErr result IsNoMemory }
{
    match copied_name(alloc, name) {
        Ok(copy) => Ok(copy),
        Err(NoMemory) => Err(Answer::NoMemory),
    }
}

// Adds an item at the end.
fn added<T: Drop>(list: &mut Sequence<T>, item: T) -> Result<(), Answer>
    ensures items { OnOk result (list.new ≡ list.old ++ item ∷ []) }
    ensures only { IfErr result IsNoMemory }
{
    match list.push(item) {
        Ok(()) => Ok(()),
        Err(_) => Err(Answer::NoMemory),
    }
}
