// The commands on a script: reading it, checking it, making its program, running the ranks, and writing what they wrote.

ghost use Rattle.std.specs.Prelude.{◌≡◌, ◌≤◌, ℕ, List, [], Some, false, IfOk, IfErr, OnOk};
ghost use Rattle.std.specs.Bool.{OnFalse};
ghost use Rattle.hp_script.specs.Checked.{Checked};
ghost use Rattle.hp_script.specs.Mirror.{block_of};
ghost use Rattle.hp_meaning.specs.Fitting.{Serves};
ghost use Rattle.hp_meaning.specs.Run.{eval};
ghost use Rattle.hp_command.specs.Command.{checks, evaluates, runs};
ghost use Rattle.hp_outside.specs.Outside.{HasCause};
ghost use Rattle.hp_command.specs.Reading.{FitsFile};
ghost use Rattle.hp_command.specs.Session.{is_sink_fault, answer_of, meant, ComesEarly, Answered, Played, Wrote, Evaluated, ok_line, DidCheck, DidRun, DidSeq};

use crate::answer::Answer;
use crate::compile::{fitting, program_of};
use crate::kept::Kept;
use crate::tables::tables_in;
use hp_meaning::seq::{SeqStatus, seq};
use hp_outside::files::{FileError, Files};
use hp_outside::sinks::{Sink, put_all};
use hp_script::typed::Typed;
use hp_spmd::code::Code;
use hp_spmd::lockstep::{LockEnd, LockStatus, lockstep};
use hp_word::name::Name;
use hp_word::order::Orders;
use hp_word::place::NoMemory;
use hp_word::sequence::Sequence;
use hp_word::table::Tables;
use std::alloc::Global;

// One byte more than a script may have, so that too many are seen.
const SCRIPT_BYTES: u64 = 65_537;

// How many instructions the ranks may do together.
const INSTRUCTIONS: u64 = 16_777_216;

// The script in the file of this name, which fits, or the answer that says why there is none.
fn typed_in<F: Files>(alloc: Global, files: &mut F, name: Name) -> Result<Typed, Answer>
    ensures fits { IfOk result (FitsFile (F.holds files.old name.bytes)) }
    ensures kept { OnOk result (F.faults files.new ≡ F.faults files.old) }
    ensures answered { IfErr result (Answered (F.holds files.old) name.bytes (Some checks)
        (F.faults files.old) (F.faults files.new) (F.failed files.new)) }
    ensures early { IfErr result ComesEarly }
    ensures same { (other : List ℕ) → F.holds files.new other ≡ F.holds files.old other }
{
    match files.read(alloc, &name, SCRIPT_BYTES) {
        Ok(bytes) => fitting(alloc, &bytes),
        Err(FileError::Failed) => Err(Answer::FileFault(name)),
        Err(FileError::NoMemory) => Err(Answer::NoMemory),
    }
}

// Says that a script fits.
fn say_ok<O: Sink>(out: &mut O) -> Answer
    ensures cause { HasCause (O.faults out.old) (O.faults out.new) (is_sink_fault result) }
    ensures wrote { Wrote (is_sink_fault result) (O.written out.old) (O.written out.new) ok_line }
    ensures answer { OnFalse (is_sink_fault result) (result ≡ Answer.Done) }
{
    if put_all(out, b"ok\n".as_slice()).is_err() {
        return Answer::SinkFault;
    }
    Answer::Done
}

/// Checks the script in the file of this name.
pub fn check_file<F: Files, O: Sink>(
    alloc: Global,
    files: &mut F,
    name: Name,
    out: &mut O,
) -> Answer
    ensures answered { Answered (F.holds files.old) name.bytes (Some checks)
        (F.faults files.old) (F.faults files.new) (F.failed files.new) result }
    ensures did { DidCheck (F.holds files.old name.bytes) (O.written out.old) (O.written out.new) (O.faults out.old) (O.faults out.new) result }
    ensures same { (other : List ℕ) → F.holds files.new other ≡ F.holds files.old other }
{
    match typed_in(alloc, files, name) {
        Ok(_typed) => say_ok(out),
        Err(answer) => answer,
    }
}

/// Evaluates the script in the file of this name, with so many loop turns, and writes what it means.
pub fn evaluate_file<F: Files, O: Sink>(
    alloc: Global,
    files: &mut F,
    name: Name,
    turns: u32,
    out: &mut O,
) -> Answer
    ensures answered { Answered (F.holds files.old) name.bytes (Some (evaluates turns))
        (F.faults files.old) (F.faults files.new) (F.failed files.new) result }
    ensures did { DidSeq (F.holds files.old) name.bytes turns (O.written out.old) (O.written out.new) (O.faults out.old) (O.faults out.new) result }
    ensures same { (other : List ℕ) → F.holds files.new other ≡ F.holds files.old other }
{
    let typed = match typed_in(alloc, files, name) {
        Ok(typed) => typed,
        Err(answer) => return answer,
    };
    let tables = match tables_in(alloc, files, typed.reads.as_slice()) {
        Ok(tables) => tables,
        Err(answer) => return answer,
    };
    evaluate(alloc, &typed, &tables, turns, out)
}

// Evaluates a script that fits over its tables, under the plain orders, and writes what it means.
fn evaluate<O: Sink>(
    alloc: Global,
    typed: &Typed,
    tables: &Tables,
    turns: u32,
    out: &mut O,
) -> Answer
    requires checked { Checked typed.now }
    requires served { Serves tables.now.list typed.now.reads }
    ensures { Evaluated (eval (block_of typed.now.script.body) tables.now.list [] turns)
        (O.written out.old) (O.written out.new) (O.faults out.old) (O.faults out.new) result }
{
    let orders = Orders {
        list: Sequence::new(alloc),
    };
    let end = match seq(alloc, typed, tables, &orders, turns.into()) {
        Ok(end) => end,
        Err(NoMemory) => return Answer::NoMemory,
    };
    if put_all(out, end.out.as_slice()).is_err() {
        return Answer::SinkFault;
    }
    meant(end.status)
}

// The answer of the meaning's status.
fn meant(status: SeqStatus) -> Answer
    ensures { result ≡ meant status }
{
    match status {
        SeqStatus::Done => Answer::Done,
        SeqStatus::Trap(at, kind) => Answer::Trapped(at, kind),
        SeqStatus::Fuel => Answer::TurnsSpent,
    }
}

/// Runs the script in the file of this name on this many ranks.
pub fn run_file<F: Files, O: Sink>(
    alloc: Global,
    files: &mut F,
    name: Name,
    ranks: u32,
    out: &mut O,
) -> (Answer, Option<Kept>)
    requires some { 1 ≤ ranks }
    requires few { ranks ≤ 32 }
    ensures answered { Answered (F.holds files.old) name.bytes (Some (runs ranks))
        (F.faults files.old) (F.faults files.new) (F.failed files.new) result.0 }
    ensures did { DidRun (F.holds files.old name.bytes) ranks (O.written out.old) (O.written out.new) (O.faults out.old) (O.faults out.new) result.0 result.1 }
    ensures same { (other : List ℕ) → F.holds files.new other ≡ F.holds files.old other }
{
    let typed = match typed_in(alloc, files, name) {
        Ok(typed) => typed,
        Err(answer) => return (answer, None),
    };
    match program_of(alloc, &typed.script) {
        Ok(code) => play(alloc, code, ranks, out),
        Err(answer) => (answer, None),
    }
}

// Writes what the ranks wrote, and says how the run ended.
fn written<O: Sink>(out: &mut O, end: &LockEnd) -> Answer
    ensures answer { OnFalse (is_sink_fault result) (result ≡ answer_of end.now.status) }
    ensures cause { HasCause (O.faults out.old) (O.faults out.new) (is_sink_fault result) }
    ensures wrote { Wrote (is_sink_fault result) (O.written out.old) (O.written out.new) end.now.out.items }
{
    match put_all(out, &end.out) {
        Ok(()) => status_answer(end.status),
        Err(_) => Answer::SinkFault,
    }
}

// How a run ended.
fn status_answer(status: LockStatus) -> Answer
    ensures answer { result ≡ answer_of status }
    ensures no_fault { is_sink_fault result ≡ false }
{
    match status {
        LockStatus::Ended => Answer::Done,
        LockStatus::Trapped(at, kind) => Answer::Trapped(at, kind),
        LockStatus::Limit => Answer::TurnsSpent,
    }
}

// Runs a program on this many ranks, and writes what they write.
fn play<O: Sink>(alloc: Global, code: Code, ranks: u32, out: &mut O) -> (Answer, Option<Kept>)
    requires some { 1 ≤ ranks }
    requires few { ranks ≤ 32 }
    ensures { Played code ranks (O.written out.old) (O.written out.new) (O.faults out.old) (O.faults out.new) result.0 result.1 }
{
    let tables = Tables {
        list: Sequence::new(alloc),
    };
    let end = match lockstep(alloc, &code, &tables, ranks, INSTRUCTIONS) {
        Ok(end) => end,
        Err(NoMemory) => return (Answer::NoMemory, None),
    };
    let answer = written(out, &end);
    (
        answer,
        Some(Kept {
            code,
            tables,
            ranks,
        }),
    )
}
