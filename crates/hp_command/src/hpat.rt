// The call that the program makes: the words of its command line, its files and its two outputs.

ghost use Rattle.std.specs.Prelude.{◌≡◌, ◌≢◌, ◌↔◌, ℕ, List, Some, None, map};
ghost use Rattle.std.specs.String.{string_bytes};
ghost use Rattle.hp_word.specs.declared.name.Name.{Name as SpecName};
ghost use Rattle.hp_word.specs.declared.place.Place.{Place as SpecPlace};
ghost use Rattle.hp_script.specs.declared.rule.Rule.{Rule};
ghost use Rattle.hp_script.specs.declared.typed.Typed.{Typed};
ghost use Rattle.hp_tables.specs.declared.bad.Bad.{Bad};
ghost use Rattle.hp_reader.specs.Reading.{Fits};
ghost use Rattle.hp_command.specs.Answers.{status_of, status_line, line_text, trap_line, SameOrNoMemory};
ghost use Rattle.hp_command.specs.Command.{runs, file_of, asked_by};
ghost use Rattle.hp_command.specs.Session.{Answered, RefusesFor, IsRefusal, IsBadTable, ReadsTables, NoFault, HasToAnswer, Did, Put};
ghost use Rattle.hp_command.specs.TablesRead.{DoesGive, IsFirstBad};

use crate::answer::{Answer, Line, OUT_OF_MEMORY, kind_text};
use crate::commands::{check_file, evaluate_file, run_file};
use crate::kept::Kept;
use crate::words::{Asked, asked_by, file_asked};
use hp_outside::files::Files;
use hp_outside::sinks::{Sink, put_all, put_pieces};
use hp_reader::laws::reading_laws;
use hp_word::name::Name;
use hp_word::place::{NoMemory, Place, TrapKind};
use itoa::Buffer;
use std::alloc::Global;

/// What a call of the program answers: its exit status, why, and what was kept of a run.
#[derive(Drop)]
pub struct Report {
    pub status: u8,
    pub answer: Answer,
    pub kept: Option<Kept>,
}

/// Does what the words of the command line, after the program's name, ask for.
pub fn hpat<F: Files, O: Sink, E: Sink>(
    alloc: Global,
    words: &Vec<String>,
    files: &mut F,
    out: &mut O,
    err: &mut E,
) -> Report
    ensures status { result.status ≡ status_of result.answer }
    // Usage is the answer exactly where the words are of no command's form.
    ensures usage { (result.answer ≡ Answer.Usage) ↔ (asked_by (map string_bytes words.now.items) ≡ None) }

    // A refusal is that of the file's bytes by what is asked, and a file's fault comes only where the count of faults rose.
    ensures answered { Answered (F.holds files.old) (file_of (map string_bytes words.now.items)) (asked_by (map string_bytes words.now.items))
        (F.faults files.old) (F.faults files.new) (F.failed files.new) result.answer }

    // Where the bytes are to be refused, they are.
    ensures exact { (b : List ℕ) (at : SpecPlace) (rule : Rule) → F.holds files.old (file_of (map string_bytes words.now.items)) ≡ Some b
        → RefusesFor (asked_by (map string_bytes words.now.items)) b at rule → IsRefusal at rule result.answer }

    // Of the tables of a script that fits, the first that has a fault is named, where the files were read.
    ensures table { (b : List ℕ) (typed : Typed) (name : SpecName) (bad : Bad) → ReadsTables (asked_by (map string_bytes words.now.items))
        → F.holds files.old (file_of (map string_bytes words.now.items)) ≡ Some b → Fits b typed → IsFirstBad (DoesGive (F.holds files.old)) typed.reads name bad
        → IsBadTable name bad result.answer }

    // A script that fits is answered as it has to be, where no fault was told and memory was not refused.
    ensures complete { (b : List ℕ) (typed : Typed) → F.holds files.old (file_of (map string_bytes words.now.items)) ≡ Some b → Fits b typed
        → NoFault (F.faults files.old) (F.faults files.new) → NoFault (O.faults out.old) (O.faults out.new)
        → HasToAnswer (F.holds files.old) (asked_by (map string_bytes words.now.items)) typed result.answer }
    ensures same { (other : List ℕ) → F.holds files.new other ≡ F.holds files.old other }

    // `check` says that the script fits; `seq` writes what it means over the tables of its files; the code that `run`
    // keeps runs the script, and what was written is its run's output; or a front of it where a put failed.
    ensures did { Did (F.holds files.old) (file_of (map string_bytes words.now.items)) (asked_by (map string_bytes words.now.items))
        (O.written out.old) (O.written out.new) (O.faults out.old) (O.faults out.new) result.answer result.kept }

    // No script makes the ranks spend all the instructions that they may do.
    ensures never { (ranks : ℕ) → asked_by (map string_bytes words.now.items) ≡ Some (runs ranks) → result.answer ≢ Answer.TurnsSpent }

    // The line of the answer, or a front of it where a put failed.
    ensures line { Put (E.written err.old) (E.written err.new) (E.faults err.old) (E.faults err.new) (status_line result.answer) }
{
    reading_laws();
    let (answer, kept) = attempt(alloc, words, files, out);
    let answer = tell(alloc, err, answer);
    Report {
        status: answer.status(),
        answer,
        kept,
    }
}

// All but the line on standard error.
fn attempt<F: Files, O: Sink>(
    alloc: Global,
    words: &[String],
    files: &mut F,
    out: &mut O,
) -> (Answer, Option<Kept>)
    ensures answered { Answered (F.holds files.old) (file_of (map string_bytes words.now)) (asked_by (map string_bytes words.now))
        (F.faults files.old) (F.faults files.new) (F.failed files.new) result.0 }
    ensures did { Did (F.holds files.old) (file_of (map string_bytes words.now)) (asked_by (map string_bytes words.now))
        (O.written out.old) (O.written out.new) (O.faults out.old) (O.faults out.new) result.0 result.1 }
    ensures same { (other : List ℕ) → F.holds files.new other ≡ F.holds files.old other }
{
    let Some(asked) = asked_by(words) else {
        return (Answer::Usage, None);
    };
    let name = match Name::of(alloc, file_asked(words).as_bytes()) {
        Ok(name) => name,
        Err(NoMemory) => return (Answer::NoMemory, None),
    };
    match asked {
        Asked::Check => (check_file(alloc, files, name, out), None),
        Asked::Seq(turns) => (evaluate_file(alloc, files, name, turns, out), None),
        Asked::Run(ranks) => run_file(alloc, files, name, ranks, out),
    }
}

// Puts the line of an answer, or says that there was no memory for it.
fn tell<E: Sink>(alloc: Global, err: &mut E, answer: Answer) -> Answer
    ensures answer { SameOrNoMemory answer result }
    ensures line { Put (E.written err.old) (E.written err.new) (E.faults err.old) (E.faults err.new) (status_line result) }
{
    match answer.line(alloc) {
        Ok(line) => {
            say_line(err, &line);
            answer
        }
        Err(NoMemory) => {
            say(err, OUT_OF_MEMORY);
            Answer::NoMemory
        }
    }
}

// Puts a line.
fn say_line<E: Sink>(err: &mut E, line: &Line)
    ensures { Put (E.written err.old) (E.written err.new) (E.faults err.old) (E.faults err.new) (line_text line.now) }
{
    match line {
        Line::Fixed(bytes) => say(err, bytes),
        Line::Trap(at, kind) => say_trap(err, *at, *kind),
        Line::Made(bytes) => say(err, bytes),
    }
}

// Puts the line of a trap. It takes no memory, since the output before it was written.
fn say_trap<E: Sink>(err: &mut E, at: Place, kind: TrapKind)
    ensures { Put (E.written err.old) (E.written err.new) (E.faults err.old) (E.faults err.new) (trap_line at kind) }
{
    let mut line = Buffer::new();
    let mut col = Buffer::new();
    let _ = put_pieces(
        err,
        &[
            line.format(at.line).as_bytes(),
            b":".as_slice(),
            col.format(at.col).as_bytes(),
            b": trap ".as_slice(),
            kind_text(kind).as_bytes(),
            b"\n".as_slice(),
        ],
    );
}

// Puts bytes; what can't be put is lost.
fn say<E: Sink>(err: &mut E, bytes: &[u8])
    ensures { Put (E.written err.old) (E.written err.new) (E.faults err.old) (E.faults err.new) bytes.now }
{
    let _ = put_all(err, bytes);
}
