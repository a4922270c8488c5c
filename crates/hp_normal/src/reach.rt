// How far a body of a stencil looks.

ghost use Rattle.std.specs.Prelude.{◌≡◌, ◌∷◌, [], pos, nat_abs, max, unwrap_or, IfOk};
ghost use Rattle.hp_script.specs.Mirror.{tree_of, args_of};
ghost use Rattle.hp_meaning.specs.LambdaRules.{distance};
ghost use Rattle.hp_flat.specs.Elements.{reach_of, reach_among};

use crate::elements::place_distance;
use hp_script::tree::{Arg, Expr, Form};

/// The greater of two reaches.
fn greater(a: u64, b: u64) -> u64
    ensures { result ≡ max a b }
{
    a.max(b)
}

/// How far a place is.
fn distance_of(x: &Expr) -> u64
    ensures { result ≡ nat_abs (unwrap_or (distance (tree_of x.now)) (pos 0)) }
{
    place_distance(x).unsigned_abs()
}

/// The greatest distance of a `p[d]` of a body, or 0 where there is none.
#[cycle(reaches)]
#[tactic(auto, using(crate::proofs::ReachForms::reach_forms))]
pub fn reach_of(x: &Expr) -> u64
    ensures { result ≡ reach_of (tree_of x.now) }
{
    match &x.form {
        Form::Unary(_, _, operand) => reach_of(operand.get()),
        Form::Binary(_, _, left, right) => greater(reach_of(left.get()), reach_of(right.get())),
        Form::Index(_, place) => distance_of(place.get()),
        Form::Call(_, _, args) => reach_among(args.as_slice()),
        Form::Number(_)
        | Form::Truth(_)
        | Form::Text(_)
        | Form::Name(_)
        | Form::Column(_)
        | Form::Field(..) => 0,
    }
}

/// The greatest distance among the arguments of a call.
#[cycle(reaches)]
#[tactic(auto, using(crate::proofs::ReachForms::reach_forms))]
fn reach_among(args: &[Arg]) -> u64
    ensures { result ≡ reach_among (args_of args.now) }
{
    let mut reach = 0;
    for arg in args {
        reach = greater(reach, reach_in(arg));
    }
    reach
}

/// The greatest distance of an argument.
#[cycle(reaches)]
#[tactic(auto, using(crate::proofs::ReachForms::reach_forms))]
fn reach_in(arg: &Arg) -> u64
    ensures { result ≡ reach_among (args_of (arg.now ∷ [])) }
{
    match arg {
        Arg::Plain(x) => reach_of(x),
        Arg::Range(..) | Arg::Lambda(..) | Arg::Named(..) => 0,
    }
}
