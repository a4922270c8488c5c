// The records of a text, one after the other.

ghost use Rattle.std.specs.Prelude.{◌≡◌, ◌∷◌, [], IfOk, true, if◌then◌else◌};
ghost use Rattle.csv.specs.Reading.{default_config, error_kind, records, stops_reader, strip_bom};
ghost use Rattle.csv.specs.Records.{fields_of};

use csv::{ByteRecord, Reader, ReaderBuilder};
use hp_word::place::NoMemory;
use std::alloc::Global;
use std::marker::Model;

/// The records of a text that are yet to be read.
#[derive(Drop)]
pub struct Records<'a> {
    reader: Reader<&'a [u8]>,
}

impl<'a> Model for Records<'a> {
    ghost use Rattle.std.specs.Prelude.{List, ℕ};
    ghost use Rattle.hp_tables.specs.RecordsLeft.{IsReading, records_left};

    ghost Value = { List (List (List ℕ)) };

    ghost view = { λ it. records_left it.reader };

    ghost invariant = { λ it. IsReading it.reader };
}

impl<'a> Records<'a> {
    /// All records of a text.
    pub fn new(alloc: Global, text: &'a [u8]) -> Records<'a>
        ensures { result ≡ records default_config (strip_bom text.now) }
    {
        let reader = ReaderBuilder::new()
            .has_headers(false)
            .flexible(true)
            .from_reader(alloc, text);
        Records { reader }
    }

    /// Takes the next record into `row`, and says whether there was one.
    pub fn next(&mut self, row: &mut ByteRecord) -> Result<bool, NoMemory>
        ensures { IfOk result (λ found. self.old ≡ (if found then fields_of row.new ∷ self.new else [])) }
    {
        match self.reader.read_byte_record(row) {
            Ok(found) => Ok(found),
            Err(error) => Err(failure(error)),
        }
    }
}

// What a failed read is. Records of every length and of any bytes are read, so it failed for want of memory, or as a
// text in memory never does.
fn failure(error: csv::Error) -> NoMemory
    requires { stops_reader (error_kind error) ≡ true }
{
    drop(error);
    NoMemory
}
