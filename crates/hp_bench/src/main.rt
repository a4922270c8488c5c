//! What the benchmark measures apart from the program: the reading of a table. It reads the columns `a`, `b` and `c`
//! of the table on standard input, and prints how many rows they have.
#![tactic(auto)]

use hp_tables::read::columns;
use hp_word::name::Name;
use hp_word::place::NoMemory;
use std::alloc::Global;
use std::io::Read;
use std::process::ExitCode;

// The names of the columns.
fn names_of(alloc: Global) -> Result<Vec<Name>, NoMemory> {
    let mut names = Vec::new(alloc);
    for name in [b"a", b"b", b"c"] {
        names.push(Name::of(alloc, name.as_slice())?)?;
    }
    Ok(names)
}

fn main(rt: HostRuntime) -> ExitCode {
    let mut text = Vec::new(rt.alloc());
    if rt.stdin().read_to_end(&mut text).is_err() {
        return ExitCode::from(3);
    }
    let Ok(names) = names_of(rt.alloc()) else {
        return ExitCode::from(8);
    };
    let Ok(table) = columns(rt.alloc(), &text, &names) else {
        return ExitCode::from(4);
    };
    let rows = match table.columns.get(0) {
        Some(column) => column.len(),
        None => 0,
    };
    let _ = println!(rt; "{rows}");
    ExitCode::from(0)
}
