// The loop of every form of the program: at each of its places the values of its lets, each of which may read those
// before it. It goes let after let over a block of places: a trap becomes the one that counts so far, and its place the
// limit for all that follows, so that at the end it is the trap of the first row that has one.

mod cells;
mod columns;
pub mod made;
pub mod reads;
mod values;

ghost use Rattle.std.specs.Prelude.{◌+◌, ◌<◌, ◌^◌, [], IfOk};
ghost use Rattle.hp_word.specs.LoopRules.{lets_after, rows_below};
ghost use Rattle.hp_kernels.specs.LoopColumns.{Computes};
ghost use Rattle.hp_kernels.specs.Loops.{MakesAll};

use crate::loops::columns::{Operand, Reach};
use crate::loops::made::{LetFold, Made, add_block, nothing_made};
use crate::loops::reads::Sources;
use crate::loops::values::{Block, let_column};
use hp_word::elem::Elem;
use hp_word::place::{NoMemory, Trap};
use std::alloc::Global;

/// How many places are gone over at once: so few that their columns stay near and that a copy of one is some vector moves,
/// and enough that what a block costs by itself counts little.
const BLOCK: usize = 256;

// The columns of the lets at the places of a block, as far as it goes.
fn lets_of_block<'a, S: Sources>(
    alloc: Global,
    lets: &[Elem],
    source: &'a S,
    first: usize,
    reach: &mut Reach,
) -> Result<Vec<Operand<'a>>, NoMemory>
    requires { first + reach.old.places < 2 ^ 64 }
    ensures { IfOk result (λ kept. Computes (λ i. S.sight source.now (first + i)) lets.now reach.old reach.new kept.items) }
{
    let mut kept = Vec::with_capacity(alloc, lets.len())?;
    for elem in lets {
        let column = let_column(alloc, elem, source, first, kept.as_slice(), reach)?;
        kept.push(column)?;
    }
    Ok(kept)
}

/// What a loop over so many places makes: the columns of the lets that are asked for, and folds of their values; or the
/// trap of the first row that has one.
pub fn run_loop<S: Sources>(
    alloc: Global,
    lets: &[Elem],
    source: &S,
    count: usize,
    outs: &[u32],
    folds: &[LetFold],
) -> Result<Result<Made, Trap>, NoMemory>
    ensures { IfOk result (MakesAll outs.now folds.now (rows_below (λ i. lets_after (S.sight source.now i) [] lets.now) count)) }
{
    let mut made = nothing_made(alloc, count, outs, folds)?;
    let mut first = 0;
    while first < count {
        let places = BLOCK.min(count - first);
        let mut reach = Reach { places, trap: None };
        let kept = lets_of_block(alloc, lets, source, first, &mut reach)?;
        match reach.trap {
            Some(trap) => return Ok(Err(trap)),
            None => add_block(&mut made, outs, folds, kept.as_slice(), places)?,
        }
        first += places;
    }
    Ok(Ok(made))
}
