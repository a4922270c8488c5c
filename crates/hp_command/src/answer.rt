// The answers of the program: their statuses, and their lines on standard error.

ghost use Rattle.std.specs.Prelude.{◌≡◌, ◌++◌, true, IfOk, OnErr, codes};
ghost use Rattle.hp_script.specs.Rules.{rule_name};
ghost use Rattle.hp_tables.specs.Texts.{bad_text};
ghost use Rattle.hp_command.specs.Answers.{status_of, status_line, line_text, kind_name, placed, takes_memory};

use hp_script::rule::Rule;
use hp_tables::bad::{Bad, bad_text};
use hp_word::name::Name;
use hp_word::place::{NoMemory, Place, TrapKind};
use std::alloc::Global;

/// How a call of the program ends.
#[derive(Drop)]
pub enum Answer {
    /// The script has ended.
    Done,
    /// The words are of no command's form.
    Usage,
    /// The script breaks a rule, first at this place.
    Refused(Place, Rule),
    /// The file of this name could not be read.
    FileFault(Name),
    /// The file of this name has no table with the columns that are read of it.
    BadTable(Name, Bad),
    /// The script traps.
    Trapped(Place, TrapKind),
    /// The ranks made all the turns that they had.
    TurnsSpent,
    /// Standard output took no more.
    SinkFault,
    /// Memory was refused.
    NoMemory,
}

/// The line of an answer on standard error.
#[derive(Drop)]
pub enum Line {
    /// No line, or one that holds nothing of its own.
    Fixed(&'static [u8]),
    /// The line of a trap.
    Trap(Place, TrapKind),
    /// A line that was made.
    Made(Vec<u8>),
}

/// What is printed where memory was refused.
pub const OUT_OF_MEMORY: &[u8] = b"out of memory\n";

// What is printed for words of no form.
const USAGE: &[u8] =
    b"usage: hpat check FILE, dist FILE, code FILE, seq FILE [--turns T], run FILE --ranks N [--order K] [--turns T] [--report], gen K --ranks N\n";

impl Answer {
    /// The exit status.
    pub fn status(&self) -> u8
        ensures { result ≡ status_of self.now }
    {
        match self {
            Answer::Done => 0,
            Answer::Usage => 1,
            Answer::Refused(_, _) => 2,
            Answer::FileFault(_) => 3,
            Answer::BadTable(_, _) => 4,
            Answer::Trapped(_, _) => 5,
            Answer::TurnsSpent => 6,
            Answer::SinkFault => 7,
            Answer::NoMemory => 8,
        }
    }

    /// The line on standard error. Memory is taken only for a line that has to be made.
    pub fn line(&self, alloc: Global) -> Result<Line, NoMemory>
        ensures text { IfOk result (λ line. line_text line ≡ status_line self.now) }
        ensures memory { OnErr result (takes_memory self.now ≡ true) }
    {
        match self {
            Answer::Done | Answer::SinkFault => Ok(Line::Fixed(b"".as_slice())),
            Answer::Usage => Ok(Line::Fixed(USAGE)),
            Answer::Refused(at, rule) => Ok(Line::Made(refused_line(alloc, *at, *rule)?)),
            Answer::FileFault(name) => Ok(Line::Made(fault_line(alloc, name)?)),
            Answer::BadTable(name, bad) => Ok(Line::Made(table_line(alloc, name, bad)?)),
            Answer::Trapped(at, kind) => Ok(Line::Trap(*at, *kind)),
            Answer::TurnsSpent => Ok(Line::Fixed(b"turns spent\n".as_slice())),
            Answer::NoMemory => Ok(Line::Fixed(OUT_OF_MEMORY)),
        }
    }
}

fn refused_line(alloc: Global, at: Place, rule: Rule) -> Result<Vec<u8>, NoMemory>
    ensures { IfOk result (λ line. line.items ≡ placed at (codes ": " ++ (rule_name rule ++ codes "\n"))) }
{
    let line = at.line;
    let col = at.col;
    let text = format!(in alloc; "{line}:{col}: {rule}\n")?;
    Ok(text.into_bytes())
}

fn fault_line(alloc: Global, name: &Name) -> Result<Vec<u8>, NoMemory>
    ensures { IfOk result (λ line. line.items ≡ name.now.bytes ++ codes ": cannot be read\n") }
{
    let mut line = Vec::from_slice(alloc, name.bytes.as_slice())?;
    line.extend_from_slice(b": cannot be read\n".as_slice())?;
    Ok(line)
}

fn table_line(alloc: Global, name: &Name, bad: &Bad) -> Result<Vec<u8>, NoMemory>
    ensures { IfOk result (λ line. line.items ≡ name.now.bytes ++ (codes ": " ++ (bad_text bad.now ++ codes "\n"))) }
{
    let text = bad_text(alloc, bad)?;
    let mut line = Vec::from_slice(alloc, name.bytes.as_slice())?;
    line.extend_from_slice(b": ".as_slice())?;
    line.extend_from_slice(text.as_slice())?;
    line.extend_from_slice(b"\n".as_slice())?;
    Ok(line)
}

/// The name of a trap.
pub fn kind_text(kind: TrapKind) -> &'static str
    ensures { result.now ≡ kind_name kind }
{
    match kind {
        TrapKind::Divide => "Divide",
        TrapKind::Index => "Index",
        TrapKind::Mismatch => "Mismatch",
        TrapKind::BadLength => "BadLength",
        TrapKind::Empty => "Empty",
        TrapKind::TooLong => "TooLong",
    }
}
