//! What the benchmark measures of the machine: turns that set a word. It reads a number of ranks and a number of turns from
//! standard input, makes them in rounds over a code that sets a word again and again, and prints how many it has made.
#![tactic(auto)]

ghost use Rattle.std.specs.Prelude.{◌≡◌, ◌≤◌, ◌^◌, IfSome};

use hp_machine::machine::Machine;
use hp_outside::turns::seeded::Seeded;
use hp_spmd::code::Code;
use hp_spmd::instr::Instr;
use hp_word::place::NoMemory;
use hp_word::sequence::Sequence;
use hp_word::table::Tables;
use std::alloc::Global;
use std::io::Read;
use std::process::ExitCode;

// How often the code sets the word.
const LENGTH: u32 = 65_536;

// The most turns: that many may be made.
const MOST: u64 = 1 << 26;

// The code: it sets a word again and again.
#[tactic(auto, using(crate::proofs::CodeLemmas::sets_none, crate::proofs::CodeLemmas::sets_const))]
fn code(alloc: Global) -> Result<Code, NoMemory> {
    let mut list = Sequence::new(alloc);
    for value in 0..LENGTH {
        list.push(Instr::Const {
            to: 0,
            value: i64::from(value),
        })?;
    }
    list.push(Instr::Halt)?;
    Ok(Code {
        list,
        words: 1,
        arrays: Sequence::new(alloc),
        loose: 0,
    })
}

// The ranks and the turns that a text asks for.
fn asked(text: &str) -> Option<(u32, u64)>
    ensures some { IfSome result (λ asked. 1 ≤ asked.0) }
    ensures few { IfSome result (λ asked. asked.0 ≤ 32) }
    ensures most { IfSome result (λ asked. asked.1 ≤ 2 ^ 26) }
{
    let mut words = text.split_ascii_whitespace();
    let ranks: u32 = words.next()?.parse().ok()?;
    let turns: u64 = words.next()?.parse().ok()?;
    if ranks == 0 || ranks > 32 || turns > MOST {
        return None;
    }
    Some((ranks, turns))
}

// How many turns were made.
#[tactic(auto, using(hp_machine::proofs::RunLemmas::new_is_run))]
fn made(alloc: Global, ranks: u32, turns: u64) -> Result<usize, NoMemory>
    requires some { 1 ≤ ranks }
    requires few { ranks ≤ 32 }
    requires most { turns ≤ 2 ^ 26 }
{
    let code = code(alloc)?;
    let tables = Tables {
        list: Sequence::new(alloc),
    };
    let mut machine = Machine::new(alloc, &code, &tables, ranks, 64)?;
    let mut taken = Vec::new(alloc);
    machine.run(&code, &tables, &mut Seeded::new(), turns, &mut taken)?;
    Ok(taken.len())
}

fn main(rt: HostRuntime) -> ExitCode {
    let mut text = String::new(rt.alloc());
    if rt.stdin().read_to_string(&mut text).is_err() {
        return ExitCode::from(3);
    }
    let Some((ranks, turns)) = asked(&text) else {
        return ExitCode::from(1);
    };
    let Ok(made) = made(rt.alloc(), ranks, turns) else {
        return ExitCode::from(8);
    };
    let _ = println!(rt; "{made}");
    ExitCode::from(0)
}
