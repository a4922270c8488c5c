// Tests of the command `seq`: its words, its files and tables, its statuses, and sinks that fail.

use crate::tests::{Given, Left, USAGE, call, call_over, leaves, sound, with_room};
use crate::worked::held;
use hp_outside::files::memory::MemFile;
use hp_word::place::NoMemory;
use hp_worked::{file, lines, table_file};
use std::alloc::Global;

/// The words of the command line.
const SEQ: &str = "seq a.hp";

/// A script that reads two tables.
const TWO: &[u8] = b"l = read_csv(\"l.csv\", :id)
r = read_csv(\"r.csv\", :id)
println(nrow(join(l, r, :id)))
";

/// Files, the numbers of the reads that fail behind `; `, and the status and the line of `TWO`, or what it writes.
const FILES: &str = "l.csv: id / 1 / 1 + r.csv: id / 1 => 0 2
l.csv: id / 1 / 1 + r.csv: id / 1; 4 => 0 2
l.csv: id + r.csv: id => 0 0
r.csv: id / 1 + l.csv: id / 1 / 1 => 0 2
r.csv: id / 1 => 3 l.csv: cannot be read
l.csv: id / 1 => 3 r.csv: cannot be read
x.csv: id / 1 => 3 l.csv: cannot be read
l.csv: id / x + r.csv: id / 1 => 4 l.csv: row 1: bad cell in id
l.csv: id / 1 + r.csv: id / 1 / 2 / - => 4 r.csv: row 3: bad cell in id
l.csv: id / x + r.csv: k / 1 => 4 l.csv: row 1: bad cell in id
l.csv: k / 1 + r.csv: k / 1 => 4 l.csv: no column id
l.csv: id / x => 4 l.csv: row 1: bad cell in id
r.csv: id / x => 3 l.csv: cannot be read
l.csv: id / 1 + r.csv: id / 1; 1 => 3 a.hp: cannot be read
l.csv: id / 1 + r.csv: id / 1; 2 => 3 l.csv: cannot be read
l.csv: id / 1 + r.csv: id / 1; 3 => 3 r.csv: cannot be read
l.csv: id / 1 + r.csv: id / 1; 2 3 => 3 l.csv: cannot be read
l.csv: id / x + r.csv: id / 1; 3 => 4 l.csv: row 1: bad cell in id
l.csv: id / 1 + r.csv: id / x; 2 => 3 l.csv: cannot be read
";

/// Files of a text, with ` + ` between them.
fn files(alloc: Global, text: &str) -> Result<Vec<MemFile>, NoMemory> {
    let mut files = Vec::new(alloc);
    for one in text.split(" + ") {
        files.push(held(table_file(alloc, one)?))?;
    }
    Ok(files)
}

/// The numbers of a text.
fn numbers(alloc: Global, text: &str) -> Option<Vec<u64>> {
    let mut numbers = Vec::new(alloc);
    for word in text.split_whitespace() {
        numbers.push(word.parse::<u64>().ok()?).ok()?;
    }
    Some(numbers)
}

/// A line of a table: what is given, the numbers of the reads that fail, and the status with what is said.
#[derive(Clone, Copy)]
struct Row<'a> {
    given: &'a str,
    failing: &'a str,
    status: u8,
    said: &'a str,
}

/// The row of a line.
fn row_of(line: &str) -> Option<Row<'_>> {
    let (before, behind) = line.split_once(" => ")?;
    let (given, failing) = before.split_once("; ").unwrap_or((before, ""));
    let (status, said) = behind.split_once(" ").unwrap_or((behind, ""));
    let status = status.parse::<u8>().ok()?;
    Some(Row {
        given,
        failing,
        status,
        said,
    })
}

/// Whether a call left the status of a row, and its line, if any, on standard output where the status is 0, and else on
/// standard error.
fn is_said(alloc: Global, left: &Left, row: &Row) -> Result<bool, NoMemory> {
    let mut said = String::from_str(alloc, row.said)?;
    if !said.is_empty() {
        said.push('\n')?;
    }
    if row.status == 0 {
        return Ok(left.is(0, said.as_bytes(), b""));
    }
    Ok(left.is(row.status, b"", said.as_bytes()))
}

/// Whether a script over these files, with the reads of a row that fail, is told as the row says.
fn is_told(alloc: Global, script: &[u8], held: &str, row: &Row) -> Option<bool> {
    let reads = numbers(alloc, row.failing)?;
    let given = Given {
        reads: &reads,
        ..sound(script)
    };
    let left = call_over(alloc, &given, files(alloc, held).ok()?, SEQ).ok()?;
    is_said(alloc, &left, row).ok()
}

/// Whether `TWO` over the files of a line is told as the line says.
fn is_told_of_files(alloc: Global, line: &str) -> Option<bool> {
    let row = row_of(line)?;
    is_told(alloc, TWO, row.given, &row)
}

#[test]
fn tables_are_read(rt: HostRuntime) {
    let alloc = rt.alloc();
    for line in FILES.lines() {
        assert_eq!(rt; is_told_of_files(alloc, line), Some(true), "{line}");
    }
}

/// Scripts, with ` / ` between their lines, the numbers of the reads that fail behind `; `, and the status and the line
/// over the file `t.csv` with two columns.
const ONCE: &str = r#"x = read_csv("t.csv", :id) / y = read_csv("t.csv", :v) => 0
x = read_csv("t.csv", :id) / y = read_csv("t.csv", :v); 3 => 0
x = read_csv("t.csv", :id) / y = read_csv("t.csv", :v); 2 => 3 t.csv: cannot be read
x = read_csv("t.csv", :id) / y = read_csv("t.csv", :w) / z = read_csv("u.csv", :id); 3 => 4 t.csv: no column w
x = read_csv("u.csv", :id) / y = read_csv("t.csv", :w) => 3 u.csv: cannot be read
if false / y = read_csv("u.csv", :v) / end => 3 u.csv: cannot be read
println(div(1, 0)) / y = read_csv("t.csv", :w) => 4 t.csv: no column w
y = read_csv("u.csv", :v) / x = y + 1; 2 => 2 2:7: WrongType
"#;

/// Whether the script of a line is told as the line says.
fn is_told_of_script(alloc: Global, line: &str) -> Option<bool> {
    let row = row_of(line)?;
    let script = lines(alloc, row.given).ok()?;
    is_told(alloc, &script, "t.csv: id,v / 1,2", &row)
}

// What is never reached is read all the same, and before anything runs.
#[test]
fn tables_are_read_once(rt: HostRuntime) {
    let alloc = rt.alloc();
    for line in ONCE.lines() {
        assert_eq!(rt; is_told_of_script(alloc, line), Some(true), "{line}");
    }
}

/// A report on sales.
const SALES: &[u8] = b"s = read_csv(\"sales.csv\", :store, :amount)
d = sort(read_csv(\"stores.csv\", :store, :region), :store)
big = filter(s, :amount .>= 50)
j = join(big, d, :store)
a = aggregate(j, :region, total = sum(:amount), n = count())
write_csv(sort(a, :region))
";

/// The sales: 20,000 records of a store and an amount.
fn sales_table(alloc: Global) -> Result<Vec<u8>, NoMemory> {
    let mut bytes = Vec::from_slice(alloc, b"store,amount\n".as_slice())?;
    for i in 1..20_001u32 {
        let store = i % 4;
        let amount = i % 100;
        let record = format!(in alloc; "{store},{amount}\n")?;
        bytes.extend_from_slice(record.as_bytes())?;
    }
    Ok(bytes)
}

/// The sales and their stores.
fn sales_files(alloc: Global) -> Result<Vec<MemFile>, NoMemory> {
    let mut files = files(
        alloc,
        "stores.csv: store,region / 0,10 / 1,20 / 2,10 / 3,20",
    )?;
    files.push(held(file(alloc, "sales.csv", sales_table(alloc)?)?))?;
    Ok(files)
}

/// Whether the report is this.
fn is_sold(alloc: Global, out: &[u8]) -> Option<bool> {
    let files = sales_files(alloc).ok()?;
    let left = call_over(alloc, &sound(SALES), files, SEQ).ok()?;
    Some(left.is(0, out, b""))
}

#[test]
fn sales(rt: HostRuntime) {
    let out = b"region,total,n\n10,370000,5000\n20,375000,5000\n";
    assert!(rt; is_sold(rt.alloc(), out) == Some(true));
}

/// Words, and the status of a script of three turns by them.
const WORDS: &str = "seq a.hp => 0
seq a.hp --turns 3 => 0
seq a.hp --turns 2 => 6
seq a.hp --turns 1 => 6
seq a.hp --turns 67108864 => 0
seq a.hp --turns 00000000000000000003 => 0
seq a.hp --turns 0 => 1
seq a.hp --turns 67108865 => 1
seq a.hp --turns 000000000000000000003 => 1
seq a.hp --turns 99999999999999999999 => 1
seq a.hp --turns -3 => 1
seq a.hp --turns +3 => 1
seq a.hp --turns 3x => 1
seq a.hp --turns => 1
seq a.hp --turns 3 3 => 1
seq a.hp --ranks 3 => 1
seq a.hp a.hp => 1
seq => 1
seq b.hp => 3
check a.hp => 0
";

/// What is put to standard error at a status.
fn line_of(status: u8) -> &'static [u8] {
    match status {
        1 => USAGE,
        3 => b"b.hp: cannot be read\n",
        6 => b"turns spent\n",
        _ => b"",
    }
}

/// A script of three turns.
const THREE: &[u8] = b"i = 0\nwhile i < 3\ni = i + 1\nend\n";

/// Whether the words of a line have their status and its line.
fn has_status(alloc: Global, line: &str) -> Option<bool> {
    let (words, status) = line.split_once(" => ")?;
    let status = status.parse::<u8>().ok()?;
    let left = call(alloc, &sound(THREE), words).ok()?;
    Some(left.status == status && left.err.bytes() == line_of(status))
}

#[test]
fn words(rt: HostRuntime) {
    let alloc = rt.alloc();
    for line in WORDS.lines() {
        assert_eq!(rt; has_status(alloc, line), Some(true), "{line}");
    }
}

/// Prints and ends.
const WRITES: &[u8] = b"println(12)\n";

/// Prints and traps.
const TRAPS: &[u8] = b"println(12)\nx = div(1, 0)\n";

/// Prints and goes on.
const LOOPS: &[u8] = b"println(12)\nwhile true\nend\n";

/// Whether a script ends so, where the first put to standard output fails.
fn ends_unwritten(alloc: Global, script: &[u8], status: u8, err: &[u8]) -> bool {
    let given = Given {
        out_puts: &[1],
        ..sound(script)
    };
    leaves(alloc, &given, "seq a.hp --turns 9", status, b"", err)
}

#[test]
fn output_fails(rt: HostRuntime) {
    let alloc = rt.alloc();
    for (at, (script, status, err)) in [
        (WRITES, 7, b"".as_slice()),
        (TRAPS, 7, b"".as_slice()),
        (LOOPS, 7, b"".as_slice()),
        (
            b"x = div(1, 0)\n".as_slice(),
            5,
            b"1:5: trap Divide\n".as_slice(),
        ),
        (b"".as_slice(), 0, b"".as_slice()),
    ]
    .into_iter()
    .enumerate()
    {
        assert!(rt; ends_unwritten(alloc, script, status, err), "script {at}");
    }
}

/// Whether a script ends so, where the first put to standard error fails.
fn ends_untold(alloc: Global, script: &[u8], status: u8, out: &[u8]) -> bool {
    let given = Given {
        err_puts: &[1],
        ..sound(script)
    };
    leaves(alloc, &given, "seq a.hp --turns 9", status, out, b"")
}

#[test]
fn error_line_fails(rt: HostRuntime) {
    let alloc = rt.alloc();
    for (at, (script, status, out)) in [
        (WRITES, 0, b"12\n".as_slice()),
        (TRAPS, 5, b"12\n".as_slice()),
        (LOOPS, 6, b"12\n".as_slice()),
        (b"println(1".as_slice(), 2, b"".as_slice()),
    ]
    .into_iter()
    .enumerate()
    {
        assert!(rt; ends_untold(alloc, script, status, out), "script {at}");
    }
}

#[test]
fn room_ends(rt: HostRuntime) {
    let alloc = rt.alloc();
    for (room, status, out) in [(3, 0, b"12\n".as_slice()), (2, 7, b"".as_slice())] {
        assert!(rt;
            leaves(alloc, &with_room(WRITES, room), SEQ, status, out, b""),
            "room for {room}"
        );
    }
}
