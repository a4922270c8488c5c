// The first place of a script at which something is not built for ranks.

ghost use Rattle.std.specs.Prelude.{◌≡◌, ◌∷◌, [], Bool};
ghost use Rattle.std.specs.Option.{option_copied};
ghost use Rattle.hp_script.specs.Mirror.{tree_of, args_of, block_of};
ghost use Rattle.hp_built.specs.declared.construct.Construct.{Construct as SpecConstruct};
ghost use Rattle.hp_built.specs.declared.construct.Construct.TheVariants as construct;
ghost use Rattle.hp_built.specs.Constructs.{construct_of};
ghost use Rattle.hp_built.specs.Unbuilt.{is_before, earlier, least, place_unless, unbuilt_in, unbuilt_among, unbuilt_of, statement_places, shape_of, first_unbuilt};

use crate::construct::{Construct, assigned_construct, construct_of, printed_construct, shape_at};
use hp_script::tree::{Arg, Expr, Form, Stmt};
use hp_script::typed::{Shape, Typed};
use hp_word::place::Place;

/// Says which constructs are built for ranks.
pub trait Builds {
    ghost built: { Self → SpecConstruct → Bool };

    /// Whether a construct is built.
    fn builds(&self, construct: Construct) -> bool
        ensures { result ≡ (built self.now) construct };
}

/// Whether a place is before another, by line and then by column.
fn is_before(p: Place, q: Place) -> bool
    ensures { result ≡ is_before p q }
{
    p.line < q.line || (p.line == q.line && p.col < q.col)
}

/// The earlier of two places that may not be there.
fn earlier(a: Option<Place>, b: Option<Place>) -> Option<Place>
    ensures { result ≡ earlier a b }
{
    let Some(p) = a else {
        return b;
    };
    match b {
        Some(q) if is_before(q, p) => Some(q),
        _ => Some(p),
    }
}

/// The place of a construct, where it is one and is not built.
#[tactic(auto, unfolding(crate::specs::Unbuilt::least))]
fn place_unless<B: Builds>(built: &B, at: Place, construct: Option<Construct>) -> Option<Place>
    ensures { result ≡ least (place_unless (B.built built.now) at construct) }
{
    match construct {
        Some(construct) => {
            if built.builds(construct) {
                None
            } else {
                Some(at)
            }
        }
        None => None,
    }
}

/// The least place of the parts of an expression that are not built.
#[cycle(expressions)]
#[tactic(auto, using(crate::proofs::WalkLemmas::expression_places, crate::proofs::LeastPlaces::least_joined))]
fn in_expression<B: Builds>(built: &B, shapes: &[Option<Shape>], x: &Expr) -> Option<Place>
    ensures { result ≡ least (unbuilt_in (B.built built.now) shapes.now (tree_of x.now)) }
{
    let own = place_unless(built, x.at, construct_of(shapes, x));
    match &x.form {
        Form::Unary(_, _, operand) => earlier(own, in_expression(built, shapes, operand.get())),
        Form::Binary(_, _, left, right) => {
            let first = in_expression(built, shapes, left.get());
            let second = in_expression(built, shapes, right.get());
            earlier(own, earlier(first, second))
        }
        Form::Index(indexed, index) => {
            let first = in_expression(built, shapes, indexed.get());
            let second = in_expression(built, shapes, index.get());
            earlier(own, earlier(first, second))
        }
        Form::Call(_, _, args) => earlier(own, in_arguments(built, shapes, args.as_slice())),
        Form::Number(_)
        | Form::Truth(_)
        | Form::Text(_)
        | Form::Name(_)
        | Form::Column(_)
        | Form::Field(..) => own,
    }
}

/// The least place of arguments.
#[cycle(expressions)]
#[tactic(auto, using(crate::proofs::WalkLemmas::expression_places, crate::proofs::LeastPlaces::least_joined))]
fn in_arguments<B: Builds>(built: &B, shapes: &[Option<Shape>], args: &[Arg]) -> Option<Place>
    ensures { result ≡ least (unbuilt_among (B.built built.now) shapes.now (args_of args.now)) }
{
    let mut found = None;
    for arg in args {
        found = earlier(found, in_argument(built, shapes, arg));
    }
    found
}

/// The least place of an argument.
#[cycle(expressions)]
#[tactic(auto, using(crate::proofs::WalkLemmas::expression_places, crate::proofs::LeastPlaces::least_joined))]
fn in_argument<B: Builds>(built: &B, shapes: &[Option<Shape>], arg: &Arg) -> Option<Place>
    ensures { result ≡ least (unbuilt_among (B.built built.now) shapes.now (args_of (arg.now ∷ []))) }
{
    match arg {
        Arg::Plain(x) | Arg::Lambda(_, x) | Arg::Named(_, _, x) => in_expression(built, shapes, x),
        Arg::Range(first, last) => {
            let from = in_expression(built, shapes, first);
            let until = in_expression(built, shapes, last);
            earlier(from, until)
        }
    }
}

/// The least place of a statement and of the expression that it holds.
#[tactic(auto, using(crate::proofs::LeastPlaces::least_joined))]
fn in_held<B: Builds>(
    built: &B,
    shapes: &[Option<Shape>],
    at: Place,
    construct: Option<Construct>,
    x: &Expr,
) -> Option<Place>
    ensures { result ≡ least (statement_places (B.built built.now) shapes.now at construct (tree_of x.now)) }
{
    let own = place_unless(built, at, construct);
    earlier(own, in_expression(built, shapes, x))
}

/// The least place of statements.
#[cycle(statements)]
#[tactic(auto, using(crate::proofs::WalkLemmas::block_places, crate::proofs::LeastPlaces::least_joined))]
fn in_statements<B: Builds>(built: &B, shapes: &[Option<Shape>], body: &[Stmt]) -> Option<Place>
    ensures { result ≡ least (unbuilt_of (B.built built.now) shapes.now (block_of body.now)) }
{
    let mut found = None;
    for stmt in body {
        found = earlier(found, in_statement(built, shapes, stmt));
    }
    found
}

/// The least place of a statement.
#[cycle(statements)]
#[tactic(auto, using(crate::proofs::WalkLemmas::block_places, crate::proofs::LeastPlaces::least_joined))]
fn in_statement<B: Builds>(built: &B, shapes: &[Option<Shape>], stmt: &Stmt) -> Option<Place>
    ensures { result ≡ least (unbuilt_of (B.built built.now) shapes.now (block_of (stmt.now ∷ []))) }
{
    match stmt {
        Stmt::Assign(at, _, x) => {
            let construct = assigned_construct(shape_at(shapes, x.id));
            in_held(built, shapes, *at, construct, x)
        }
        Stmt::Print(at, x) => {
            let construct = printed_construct(shape_at(shapes, x.id));
            in_held(built, shapes, *at, construct, x)
        }
        Stmt::Export(at, x) => in_held(built, shapes, *at, Some(Construct::Export), x),
        Stmt::If(at, test, first, second) => {
            let own = in_held(built, shapes, *at, Some(Construct::If), test);
            let body = in_statements(built, shapes, first.as_slice());
            let other = in_statements(built, shapes, second.as_slice());
            earlier(own, earlier(body, other))
        }
        Stmt::While(at, test, turn) => {
            let own = in_held(built, shapes, *at, Some(Construct::While), test);
            earlier(own, in_statements(built, shapes, turn.as_slice()))
        }
    }
}

/// The least place, by line and then by column, of an expression or a statement of a script whose construct is not
/// built; none where all are. Takes no memory.
#[tactic(auto, unfolding(crate::specs::Unbuilt::first_unbuilt))]
pub fn first_unbuilt<B: Builds>(built: &B, typed: &Typed) -> Option<Place>
    ensures { result ≡ first_unbuilt (B.built built.now) typed.now }
{
    in_statements(built, typed.shapes.as_slice(), typed.script.body.as_slice())
}
