// Pieces of code that are one instruction, or two.

ghost use Rattle.std.specs.Prelude.{◌≡◌, [], ◌∷◌, IfOk};

use hp_spmd::instr::Instr;
use hp_word::place::NoMemory;
use hp_word::sequence::Sequence;
use std::alloc::Global;

/// This instruction alone.
pub(crate) fn single(alloc: Global, instr: Instr) -> Result<Sequence<Instr>, NoMemory>
    ensures { IfOk result (λ list. list ≡ instr ∷ []) }
{
    let mut list = Sequence::new(alloc);
    list.push(instr)?;
    Ok(list)
}

/// These two instructions.
pub(crate) fn pair(alloc: Global, first: Instr, second: Instr) -> Result<Sequence<Instr>, NoMemory>
    ensures { IfOk result (λ list. list ≡ first ∷ second ∷ []) }
{
    let mut list = Sequence::new(alloc);
    list.push(first)?;
    list.push(second)?;
    Ok(list)
}
