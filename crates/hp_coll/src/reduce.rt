// Words folded over all ranks.

ghost use Rattle.std.specs.Prelude.{◌≡◌, [], ◌∷◌, IfOk, map};
ghost use Rattle.hp_spmd.specs.declared.instr.Folding.{Folding};
ghost use Rattle.std.specs.List.{AllByRecursion};
ghost use Rattle.hp_spmd.specs.declared.code.Code.{Code};
ghost use Rattle.hp_snippet.specs.Promises.{IsStraight, IsWork, LeavesShared, Performs};
ghost use Rattle.hp_coll.specs.Reducing.{FoldsOfParts, FoldsOnce, named_folds, reduce_code, reduce_writes, reduced, word_names};

use hp_spmd::instr::{Folding, Instr, Packing, Unpacking};
use hp_word::fold::FoldKind;
use hp_word::place::NoMemory;
use hp_word::sequence::Sequence;
use std::alloc::Global;

/// The words of these folds.
fn words_of(alloc: Global, folds: &[Folding]) -> Result<Sequence<u32>, NoMemory>
    ensures { IfOk result (λ words. words ≡ word_names folds.now) }
{
    let mut words = Sequence::new(alloc);
    for fold in folds {
        words.push(fold.word)?;
    }
    Ok(words)
}

/// The words of these folds, each with its kind.
fn kinds_of(alloc: Global, folds: &[Folding]) -> Result<Sequence<(u32, FoldKind)>, NoMemory>
    ensures { IfOk result (λ kinds. kinds ≡ named_folds folds.now) }
{
    let mut kinds = Sequence::new(alloc);
    for fold in folds {
        kinds.push((fold.word, fold.kind))?;
    }
    Ok(kinds)
}

/// The instructions of the exchange.
fn instructions(alloc: Global, folds: &Sequence<Folding>) -> Result<Sequence<Instr>, NoMemory>
    ensures { IfOk result (λ list. list ≡ reduce_code folds.now) }
{
    let mut list = Sequence::new(alloc);
    list.push(Instr::Pack(Packing::Words(words_of(alloc, folds.as_slice())?)))?;
    list.push(Instr::Post { root: false })?;
    list.push(Instr::Take { root: false })?;
    list.push(Instr::Unpack(Unpacking::Folds(kinds_of(alloc, folds.as_slice())?)))?;
    Ok(list)
}

/// One exchange, after which each of these words is on every rank the fold of all ranks' words, in rank order; where no word is
/// named twice. All else that a rank has stays. `NoMemory` for want of memory alone.
#[tactic(auto, using(crate::proofs::Folding::list_reduces, crate::proofs::Folding::reduce_straight, crate::proofs::Folding::reduce_shares, crate::proofs::Folding::reduce_work, crate::proofs::Folding::folds_of_parts))]
pub fn reduce(alloc: Global, folds: &Sequence<Folding>) -> Result<Sequence<Instr>, NoMemory>
    ensures exact { IfOk result (λ list. list ≡ reduce_code folds.now) }
    ensures does { IfOk result (λ list. Performs (FoldsOnce folds.now) (reduced folds.now) (reduce_writes folds.now) list) }
    ensures parts { FoldsOfParts }
    ensures form { IfOk result IsStraight }
    ensures shares { IfOk result (λ list. (code : Code) → AllByRecursion (LeavesShared code) list) }
    ensures work { IfOk result (IsWork 1) }
{
    let list = instructions(alloc, folds)?;
    Ok(list)
}
