// The arguments of calls that are values, by their numbers.

ghost use Rattle.std.specs.Prelude.{◌≡◌, ◌∷◌, [], ◌++◌, OnOk, IfOk};
ghost use Rattle.hp_script.specs.Mirror.{args_of};
ghost use Rattle.hp_normal.specs.Values.{values_among};

use hp_script::tree::Arg;
use hp_word::place::NoMemory;
use std::alloc::Global;

/// Adds the number of an argument that is a value.
#[tactic(auto, using(crate::proofs::ValueForms::value_forms))]
fn add_value(values: &mut Vec<u32>, arg: &Arg) -> Result<(), NoMemory>
    ensures { OnOk result (values.new.items ≡ values.old.items ++ values_among (args_of (arg.now ∷ []))) }
{
    match arg {
        Arg::Plain(x) | Arg::Named(_, _, x) => {
            values.push(x.id.0)?;
            Ok(())
        }
        Arg::Range(..) | Arg::Lambda(..) => Ok(()),
    }
}

/// The numbers of the arguments that are values.
#[tactic(auto, using(crate::proofs::ValueForms::value_forms))]
pub fn values_among(alloc: Global, args: &[Arg]) -> Result<Vec<u32>, NoMemory>
    ensures { IfOk result (λ values. values.items ≡ values_among (args_of args.now)) }
{
    let mut values = Vec::new(alloc);
    for arg in args {
        add_value(&mut values, arg)?;
    }
    Ok(values)
}
