// Tests of the top call over files and sinks in memory: worked scripts, and each fault of the outside.

use crate::worked::held;
use hp_command::hpat::hpat;
use hp_command::kept::Kept;
use hp_outside::files::memory::{MemFile, MemFiles};
use hp_outside::sinks::memory::MemSink;
use hp_word::place::NoMemory;
use hp_worked::file;
use std::alloc::Global;

/// What a call finds besides its words: the bytes of the file `a.hp`, the numbers of the reads that fail, the room of
/// standard output, and the numbers of the puts that fail there and on standard error.
#[derive(Clone, Copy)]
pub struct Given<'a> {
    pub script: &'a [u8],
    pub reads: &'a [u64],
    pub room: usize,
    pub out_puts: &'a [u64],
    pub err_puts: &'a [u64],
}

/// What a call left.
#[derive(Drop)]
pub struct Left {
    pub status: u8,
    pub out: MemSink,
    pub err: MemSink,
    kept: Option<Kept>,
}

impl Left {
    /// Whether it is this status with these bytes on standard output and on standard error.
    pub fn is(&self, status: u8, out: &[u8], err: &[u8]) -> bool {
        self.status == status && self.out.bytes() == out && self.err.bytes() == err
    }

    /// Whether the call said that memory was refused.
    fn lacks_memory(&self) -> bool {
        self.status == 8 && self.err.bytes() == b"out of memory\n".as_slice()
    }

    /// How many instructions were kept.
    fn instructions(&self) -> Option<usize> {
        match &self.kept {
            Some(kept) => Some(kept.code.list.len()),
            None => None,
        }
    }
}

/// A script, with an outside that never fails.
pub fn sound(script: &[u8]) -> Given<'_> {
    Given {
        script,
        reads: &[],
        room: 64,
        out_puts: &[],
        err_puts: &[],
    }
}

/// A script, with so much room on standard output.
pub fn with_room(script: &[u8], room: usize) -> Given<'_> {
    Given {
        room,
        ..sound(script)
    }
}

/// A script, with a first put to standard output that fails.
fn out_fails(script: &[u8]) -> Given<'_> {
    Given {
        out_puts: &[1],
        ..sound(script)
    }
}

/// A script, with a first put to standard error that fails.
fn err_fails(script: &[u8]) -> Given<'_> {
    Given {
        err_puts: &[1],
        ..sound(script)
    }
}

/// A script, with a third put to standard error that fails.
fn line_stops(script: &[u8]) -> Given<'_> {
    Given {
        err_puts: &[3],
        ..sound(script)
    }
}

/// A script, with a first read that fails.
fn read_fails(script: &[u8]) -> Given<'_> {
    Given {
        reads: &[1],
        ..sound(script)
    }
}

/// A script, with a first read and a first put to standard error that fail.
fn read_and_err_fail(script: &[u8]) -> Given<'_> {
    Given {
        reads: &[1],
        ..err_fails(script)
    }
}

/// The words of a line.
fn words_of(alloc: Global, line: &str) -> Result<Vec<String>, NoMemory> {
    let mut words = Vec::new(alloc);
    for word in line.split_whitespace() {
        words.push(String::from_str(alloc, word)?)?;
    }
    Ok(words)
}

/// The files and the two outputs of a call.
#[derive(Drop)]
struct Outside {
    files: MemFiles,
    out: MemSink,
    err: MemSink,
}

/// The file `a.hp`, behind these.
fn files_of(alloc: Global, given: &Given, mut files: Vec<MemFile>) -> Result<MemFiles, NoMemory> {
    files.push(held(file(alloc, "a.hp", Vec::from_slice(alloc, given.script)?)?))?;
    Ok(MemFiles::new(files, given.reads.to_vec(alloc)?))
}

/// An output with so much room, of which the puts of these numbers fail.
fn sink(alloc: Global, room: usize, failing: &[u64]) -> Result<MemSink, NoMemory> {
    MemSink::new(alloc, room, failing.to_vec(alloc)?)
}

/// What a call finds, where there are these files too.
fn outside_of(alloc: Global, given: &Given, files: Vec<MemFile>) -> Result<Outside, NoMemory> {
    Ok(Outside {
        files: files_of(alloc, given, files)?,
        out: sink(alloc, given.room, given.out_puts)?,
        err: sink(alloc, 256, given.err_puts)?,
    })
}

/// A call with these words.
fn answer(alloc: Global, words: &Vec<String>, outside: Outside) -> Left {
    let Outside {
        mut files,
        mut out,
        mut err,
    } = outside;
    let report = hpat(alloc, words, &mut files, &mut out, &mut err);
    Left {
        status: report.status,
        out,
        err,
        kept: report.kept,
    }
}

/// A call with the words of a line.
pub fn call(alloc: Global, given: &Given, line: &str) -> Result<Left, NoMemory> {
    call_over(alloc, given, Vec::new(alloc), line)
}

/// A call with the words of a line, where there are these files too. `NoMemory` also where the call said so, by its
/// status and its line.
pub fn call_over(
    alloc: Global,
    given: &Given,
    files: Vec<MemFile>,
    line: &str,
) -> Result<Left, NoMemory> {
    let words = words_of(alloc, line)?;
    let left = answer(alloc, &words, outside_of(alloc, given, files)?);
    if left.lacks_memory() {
        return Err(NoMemory);
    }
    Ok(left)
}

const SMALL: &[u8] = b"x = fill(3, 10)\nprintln(sum(x))\n";

const TRAPS: &[u8] = b"x = fill(1, 1048577)\n";

pub const USAGE: &[u8] =
    b"usage: hpat check FILE, dist FILE, code FILE, seq FILE [--turns T], run FILE --ranks N [--order K] [--turns T] [--report], gen K --ranks N\n";

/// Whether a call with these words leaves this status and these bytes on its two outputs. Not where memory was refused.
pub fn leaves(
    alloc: Global,
    given: &Given,
    line: &str,
    status: u8,
    out: &[u8],
    err: &[u8],
) -> bool {
    match call(alloc, given, line) {
        Ok(left) => left.is(status, out, err),
        Err(NoMemory) => false,
    }
}

/// Whether a script run on so many ranks writes this, and ends well.
fn writes(alloc: Global, script: &[u8], line: &str, out: &[u8]) -> bool {
    leaves(alloc, &sound(script), line, 0, out, b"")
}

/// Whether a line of words gives this status and this line, and nothing is written.
fn says(alloc: Global, script: &[u8], line: &str, status: u8, err: &[u8]) -> bool {
    leaves(alloc, &sound(script), line, status, b"", err)
}

/// Whether a call leaves this status, these bytes on its two outputs, and so many instructions, none where it keeps no run.
fn leaves_and_keeps(
    alloc: Global,
    given: &Given,
    line: &str,
    status: u8,
    out: &[u8],
    err: &[u8],
    instructions: Option<usize>,
) -> bool {
    match call(alloc, given, line) {
        Ok(left) => left.is(status, out, err) && left.instructions() == instructions,
        Err(NoMemory) => false,
    }
}

// A row for each answer: a program that always gave the same one, or Done with nothing written or kept, fails here.
#[test]
fn each_answer(rt: HostRuntime) {
    let alloc = rt.alloc();
    let (none, unclosed) = (b"".as_slice(), b"println(1".as_slice());
    let (table, turning) = (b"t = read_csv(\"a.hp\", :x)\n", b"while true\nend\n");
    for (at, (given, line, status, out, err, instructions)) in [
        (
            sound(SMALL),
            "check a.hp",
            0,
            b"ok\n".as_slice(),
            none,
            None,
        ),
        (sound(SMALL), "seq a.hp", 0, b"30\n".as_slice(), none, None),
        (
            sound(SMALL),
            "run a.hp --ranks 4",
            0,
            b"30\n".as_slice(),
            none,
            Some(13),
        ),
        (sound(SMALL), "check", 1, none, USAGE, None),
        (
            sound(unclosed),
            "seq a.hp",
            2,
            none,
            b"1:10: Syntax\n".as_slice(),
            None,
        ),
        (
            read_fails(SMALL),
            "check a.hp",
            3,
            none,
            b"a.hp: cannot be read\n".as_slice(),
            None,
        ),
        (
            sound(table),
            "seq a.hp",
            4,
            none,
            b"a.hp: no column x\n".as_slice(),
            None,
        ),
        (
            sound(TRAPS),
            "seq a.hp",
            5,
            none,
            b"1:5: trap TooLong\n".as_slice(),
            None,
        ),
        (
            sound(turning),
            "seq a.hp --turns 9",
            6,
            none,
            b"turns spent\n".as_slice(),
            None,
        ),
        (out_fails(SMALL), "check a.hp", 7, none, none, None),
    ]
    .into_iter()
    .enumerate()
    {
        assert!(rt;
            leaves_and_keeps(alloc, &given, line, status, out, err, instructions),
            "row {at}"
        );
    }
}

#[test]
fn scripts(rt: HostRuntime) {
    let alloc = rt.alloc();
    let (one, three) = ("run a.hp --ranks 1", "run a.hp --ranks 3");
    let (five, most) = ("run a.hp --ranks 5", "run a.hp --ranks 32");
    let wraps = b"x = fill(999999999999999999, 10)\nprintln(sum(x))\n";
    let short = b"x = fill(7, 2)\nprintln(sum(x))\n";
    let none = b"x = fill(7, 0)\nprintln(sum(x))\n";
    let names = b"x = fill(2, 5)\nab = fill(3, 9)\nprintln(sum(ab))\nprintln(sum(x))\n";
    let again =
        b"x = fill(2, 5)\nprintln(sum(x))\nx = fill(4, 33)\nprintln(sum(x))\nprintln(sum(x))\n";
    for (at, (script, line, out)) in [
        (
            wraps.as_slice(),
            three,
            b"-8446744073709551626\n".as_slice(),
        ),
        (short.as_slice(), five, b"14\n".as_slice()),
        (none.as_slice(), three, b"0\n".as_slice()),
        (SMALL, one, b"30\n".as_slice()),
        (SMALL, most, b"30\n".as_slice()),
        (SMALL, "run a.hp --ranks 04", b"30\n".as_slice()),
        (names.as_slice(), three, b"27\n10\n".as_slice()),
        (again.as_slice(), most, b"10\n132\n132\n".as_slice()),
        (b"".as_slice(), five, b"".as_slice()),
    ]
    .into_iter()
    .enumerate()
    {
        assert!(rt; writes(alloc, script, line, out), "script {at}");
    }
}

#[test]
fn additions(rt: HostRuntime) {
    let alloc = rt.alloc();
    let sums = b"x = fill(1, 5)\ny = x .+ 2\nz = x .+ y\nz = z .+ z\nprintln(sum(z))\n";
    for line in [
        "run a.hp --ranks 2",
        "run a.hp --ranks 3",
        "run a.hp --ranks 32",
    ] {
        assert!(rt; writes(alloc, sums, line, b"40\n"), "{line}");
    }
}

#[test]
fn words(rt: HostRuntime) {
    let alloc = rt.alloc();
    for line in [
        "",
        "run a.hp",
        "run a.hp --ranks",
        "run a.hp --ranks 0",
        "run a.hp --ranks 33",
        "run a.hp --ranks +4",
        "run a.hp --ranks 000000000000000000004",
        "run a.hp --ranks 4294967300",
        "run a.hp --ranks 4 4",
        "run a.hp --rank 4",
        "seq a.hp --ranks 4",
        "check",
        "check a.hp b.hp",
        "dist a.hp",
    ] {
        assert!(rt; says(alloc, SMALL, line, 1, USAGE), "words {line}");
    }
}

#[test]
fn answers(rt: HostRuntime) {
    let alloc = rt.alloc();
    let four = "run a.hp --ranks 4";
    let differ = b"x = fill(1, 3)\ny = fill(1, 4)\nz = x .+ y\nprintln(sum(z))\n";
    for (at, (script, line, status, err)) in [
        (
            b"x = 1\n".as_slice(),
            four,
            2,
            b"1:1: NotBuilt\n".as_slice(),
        ),
        (
            b"x = fill(3, 10)\nx = 1\n".as_slice(),
            four,
            2,
            b"2:1: TypeChanged\n".as_slice(),
        ),
        (
            b"x = fill(3, 10)\ny = x\nz = 1 .+ 2\n".as_slice(),
            four,
            2,
            b"3:7: WrongType\n".as_slice(),
        ),
        (
            SMALL,
            "check none.hp",
            3,
            b"none.hp: cannot be read\n".as_slice(),
        ),
        (
            SMALL,
            "run none.hp --ranks 4",
            3,
            b"none.hp: cannot be read\n".as_slice(),
        ),
        (
            TRAPS,
            "run a.hp --ranks 2",
            5,
            b"1:5: trap TooLong\n".as_slice(),
        ),
        (
            differ.as_slice(),
            "run a.hp --ranks 2",
            5,
            b"3:7: trap Mismatch\n".as_slice(),
        ),
    ]
    .into_iter()
    .enumerate()
    {
        assert!(rt; says(alloc, script, line, status, err), "answer {at}");
    }
}

#[test]
fn outside_fails(rt: HostRuntime) {
    let alloc = rt.alloc();
    let later = b"x = fill(3, 10)\nprintln(sum(x))\ny = fill(1, 1048577)\nprintln(sum(x))\n";
    let trapped = b"3:5: trap TooLong\n".as_slice();
    let unread = b"a.hp: cannot be read\n".as_slice();
    let at_once = b"1:5: trap TooLong\n".as_slice();
    let front = b"1:".as_slice();
    let written = b"30\n".as_slice();
    let nothing = b"".as_slice();
    for (at, (given, status, out, err)) in [
        (with_room(SMALL, 3), 0, written, nothing),
        (with_room(SMALL, 2), 7, nothing, nothing),
        (out_fails(SMALL), 7, nothing, nothing),
        (read_fails(SMALL), 3, nothing, unread),
        (read_and_err_fail(SMALL), 3, nothing, nothing),
        (sound(later), 5, written, trapped),
        (err_fails(later), 5, written, nothing),
        (out_fails(later), 7, nothing, nothing),
        (out_fails(TRAPS), 5, nothing, at_once),
        (line_stops(TRAPS), 5, nothing, front),
    ]
    .into_iter()
    .enumerate()
    {
        assert!(rt;
            leaves(alloc, &given, "run a.hp --ranks 4", status, out, err),
            "outside {at}"
        );
    }
}

#[test]
fn read_freely(rt: HostRuntime) {
    let alloc = rt.alloc();
    let free = b" x=fill( (1) ,2 ) # two\n\nprintln( sum(x) )";
    let wide = b"x = fill(9223372036854775807, 2)\nprintln(sum(x))\n";
    let sums =
        b"\tx_1 = (fill(1,5))\r\n\nz2=x_1.+x_1#\xff\nz2=(z2) .+007\nprintln((sum((z2))))\n\n";
    for (at, (script, out)) in [
        (free.as_slice(), b"2\n".as_slice()),
        (wide.as_slice(), b"-2\n".as_slice()),
        (sums.as_slice(), b"45\n".as_slice()),
        (b"# only".as_slice(), b"".as_slice()),
    ]
    .into_iter()
    .enumerate()
    {
        assert!(rt;
            writes(alloc, script, "run a.hp --ranks 2", out),
            "script {at}"
        );
    }
}

#[test]
fn refused_scripts(rt: HostRuntime) {
    let alloc = rt.alloc();
    let two = "run a.hp --ranks 2";
    for (at, (script, err)) in [
        (
            b"x = 9223372036854775808\n".as_slice(),
            b"1:5: WideNumber\n".as_slice(),
        ),
        (b"x = 1 ? 2\n".as_slice(), b"1:7: BadByte\n".as_slice()),
        (b"x = \"abc".as_slice(), b"1:5: BadByte\n".as_slice()),
        (b"x = fill(1, 3\n".as_slice(), b"1:14: Syntax\n".as_slice()),
        (b"println(1".as_slice(), b"1:10: Syntax\n".as_slice()),
        (b"if true\n".as_slice(), b"2:1: Syntax\n".as_slice()),
        (b"x = 1\nx = ) ?\n".as_slice(), b"2:7: BadByte\n".as_slice()),
        (
            b"x = fill(1, 2)\nprintln(x)\n".as_slice(),
            b"2:1: NotBuilt\n".as_slice(),
        ),
        (
            b"x = fill(1, 2)\n if true\ny = x\nend\n".as_slice(),
            b"2:2: NotBuilt\n".as_slice(),
        ),
        (
            b"y = fill.(1, 2)\n".as_slice(),
            b"1:5: UnknownCall\n".as_slice(),
        ),
        (
            b"x = fill(1, 2)\nz = x + x\n".as_slice(),
            b"2:7: WrongType\n".as_slice(),
        ),
        (
            b"x = fill(1, 2)\nz = x .+ y\n".as_slice(),
            b"2:10: UnknownName\n".as_slice(),
        ),
        (
            b"x = fill(1, 2, 3)\n".as_slice(),
            b"1:5: WrongCount\n".as_slice(),
        ),
        (
            b"x = fill(-1, 2)\n".as_slice(),
            b"1:1: NotBuilt\n".as_slice(),
        ),
        (
            b"x = fill(1, 2)\nwrite_csv(x)\n".as_slice(),
            b"2:1: WrongType\n".as_slice(),
        ),
    ]
    .into_iter()
    .enumerate()
    {
        assert!(rt; says(alloc, script, two, 2, err), "script {at}");
    }
}
