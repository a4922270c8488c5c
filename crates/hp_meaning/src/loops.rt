// Loops over arrays: the words of an element at each of their places.

ghost use Rattle.std.specs.Prelude.{◌≡◌, ◌∷◌, [], ℤ, List, map, slice_index_or, refl, IfOk};
ghost use Rattle.hp_word.specs.declared.elem.Elem.TheViews.{Calc};
ghost use Rattle.hp_word.specs.LoopRules.{sight_in};
ghost use Rattle.hp_meaning.specs.LoopLaws.{looped};
ghost use Rattle.hp_meaning.specs.Outcomes.{Tells, told};

use crate::seen::Stop;
use hp_kernels::loops::made::Made;
use hp_kernels::loops::reads::{Halo, Sources};
use hp_kernels::loops::run_loop;
use hp_word::elem::Elem;
use hp_word::place::{NoMemory, Place};
use hp_word::sequence::Sequence;
use hp_word::word::CalcOp;
use sqlite_items::Boxed;
use std::alloc::Global;

/// Arrays, which a loop reads as inputs, and each as its own halo.
#[derive(Drop)]
pub struct Arrays<'a> {
    pub arrays: &'a [&'a [i64]],
}

// The array with a number; no cells where there is none.
#[tactic(auto, using(crate::proofs::LoopLemmas::array_there, crate::proofs::LoopLemmas::array_none))]
fn array_at<'a>(arrays: &[&'a [i64]], k: u32) -> &'a [i64]
    ensures { result.now ≡ slice_index_or (map (λ a. a.now) arrays.now) k [] }
{
    let k = k as usize;
    if k < arrays.len() { arrays[k] } else { &[] }
}

#[tactic(auto, using(crate::proofs::LoopLemmas::own_halo))]
impl Sources for Arrays<'_> {
    ghost sight = { λ s i lets. sight_in (map (λ a. a.now) s.arrays.now) i lets };

    fn word(&self, _k: u32) -> i64 {
        0
    }

    fn input(&self, k: u32) -> &[i64] {
        array_at(self.arrays, k)
    }

    fn halo(&self, k: u32) -> Halo<'_> {
        Halo {
            cells: array_at(self.arrays, k),
            reach: 0,
        }
    }

    ghost reads_lets = { λ s i lets k. refl };
}

/// An operation on two elements.
pub fn operation(alloc: Global, at: Place, op: CalcOp, a: Elem, b: Elem) -> Result<Elem, NoMemory>
    ensures { IfOk result (λ e. e ≡ Calc op at a b) }
{
    Ok(Elem::Calc(op, at, Boxed::new(alloc, a)?, Boxed::new(alloc, b)?))
}

// The only column that a loop has made.
fn only_column(alloc: Global, made: Made) -> Sequence<i64>
    ensures { (cells : List ℤ) → map (λ c. c.items) made.columns.items ≡ cells ∷ [] → result ≡ cells }
{
    let Made {
        mut columns,
        words: _words,
    } = made;
    match columns.pop() {
        Some(cells) => Sequence::from_vec(cells),
        None => Sequence::new(alloc),
    }
}

/// The words of an element at each of the first places of arrays, or the trap of the first one that has one.
pub fn looped(
    alloc: Global,
    elem: Elem,
    arrays: &[&[i64]],
    count: usize,
) -> Result<Sequence<i64>, Stop>
    ensures { Tells (told (looped (sight_in (map (λ a. a.now) arrays.now)) elem count)) result }
{
    let mut lets = Vec::with_capacity(alloc, 1)?;
    lets.push(elem)?;
    let ran = run_loop(alloc, lets.as_slice(), &Arrays { arrays }, count, &[0], &[])?;
    match ran {
        Ok(made) => Ok(only_column(alloc, made)),
        Err(trap) => Err(Stop::Trap(trap)),
    }
}
