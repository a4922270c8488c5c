// The check of a script.

ghost use Rattle.std.specs.Prelude.{◌≡◌, IfOk, IfErr};
ghost use Rattle.hp_script.specs.Checked.{Checked, assigned_in, first_break};
ghost use Rattle.hp_script.specs.Fitting.{IsSound};
ghost use Rattle.hp_script.specs.Mirror.{block_of};
ghost use Rattle.hp_script.specs.Scope.{Scope as SpecScope};
ghost use Rattle.hp_types.specs.Answers.{Refuses};
ghost use Rattle.hp_types.specs.Statements.{IsAt, TellsBlock};

use crate::error::CheckError;
use crate::found::Found;
use crate::statements::test_script;
use crate::variables::Variables;
use hp_script::tree::{Script, Stmt};
use hp_script::typed::{Typed, Var};
use hp_word::sequence::Sequence;
use std::alloc::Global;

/// The script with its variables, the types of its expressions and the files that it reads; or the first rule that
/// breaks, in the order in which a script is tested.
pub fn check(alloc: Global, script: Script) -> Result<Typed, CheckError>
    // What is given fits, and is said as it is.
    ensures checked { IfOk result Checked }
    ensures same { IfOk result (λ typed. typed.script ≡ script) }
    // It fits by the typing of each construct.
    ensures sound { IfOk result IsSound }
    // A refusal is the first test that fails.
    ensures refused { IfErr result (Refuses (first_break (block_of script.body))) }
{
    let mut variables = Variables::new(alloc);
    let mut found = Found::new(alloc);
    let vars = tested(alloc, script.body.as_slice(), &mut variables, &mut found)?;
    Ok(Typed {
        script,
        vars,
        shapes: found.shapes,
        reads: found.reads,
    })
}

/// Tests the statements of a script, and lists its variables.
fn tested(
    alloc: Global,
    body: &[Stmt],
    variables: &mut Variables,
    found: &mut Found,
) -> Result<Sequence<Var>, CheckError>
    ensures told { (s : SpecScope) → IsAt s (assigned_in (block_of body.now)) variables.old → TellsBlock s (assigned_in (block_of body.now)) (block_of body.now) found.old variables.new found.new result }
    ensures listed { IfOk result (λ vars. vars ≡ variables.new.list) }
{
    test_script(alloc, body, variables, found)?;
    Ok(variables.list.listed(alloc)?)
}
