// What is known of names at one point of a script.

ghost use Rattle.std.specs.Prelude.{◌≡◌, [], map, IfOk, MatchResult, Some, None};
ghost use Rattle.std.specs.Option.{option_map};
ghost use Rattle.hp_script.specs.Breaks.{variable_break, name_break, field_break, column_break, is_scalar};
ghost use Rattle.hp_script.specs.Scope.{shape_among, role_of, is_in_lambda, has, has_column, with_columns, with_parameter};
ghost use Rattle.hp_script.specs.Typing.{name_shape};
ghost use Rattle.hp_types.specs.Answers.{Passes, Refuses, Tells};
ghost use Rattle.hp_types.specs.Known.{role_seen, parameter_seen, point};

use crate::copied::copied;
use crate::error::{CheckError, broken, demand};
use crate::names::Assigned;
use crate::variables::Variables;
use hp_script::columns::ColumnName;
use hp_script::rule::Rule;
use hp_script::typed::Shape;
use hp_word::name::Name;
use hp_word::place::{NoMemory, Place};
use std::alloc::Global;
use std::marker::Model;

/// What a lambda's parameter is.
#[derive(Clone, Copy, Debug, PartialEq, Eq)]
pub enum ParameterRole {
    /// A number of an array.
    Number,
    /// A truth value of an array.
    Truth,
    /// A place of an array.
    Window,
}

/// A lambda's parameter.
#[derive(Clone, Copy)]
pub struct Parameter<'a> {
    name: &'a Name,
    role: ParameterRole,
}

/// A point of a script, with what surrounds it.
#[derive(Drop)]
pub struct Scope<'a> {
    assigned: &'a Assigned<'a>,
    variables: &'a Variables,
    around: Option<&'a [ColumnName]>,
    /// the innermost first
    parameters: Vec<Parameter<'a>>,
}

impl<'a> Model for Scope<'a> {
    ghost use Rattle.std.specs.Prelude.{map};
    ghost use Rattle.std.specs.Option.{option_map};
    ghost use Rattle.hp_script.specs.Scope.{Scope};
    ghost use Rattle.hp_types.specs.Known.{point, parameter_seen};

    ghost Value = { Scope };

    ghost view = { λ it. point it.assigned.now it.variables.now (option_map (λ columns. columns.now) it.around) (map parameter_seen it.parameters.items) };
}

impl<'a> Scope<'a> {
    /// A point outside filters and lambdas.
    pub fn new(alloc: Global, assigned: &'a Assigned<'a>, variables: &'a Variables) -> Scope<'a>
        ensures { result ≡ point assigned.now variables.now None [] }
    {
        Scope {
            assigned,
            variables,
            around: None,
            parameters: Vec::new(alloc),
        }
    }

    /// The same point inside the second argument of a filter of these columns.
    pub fn with_columns(
        &self,
        alloc: Global,
        columns: Option<&'a [ColumnName]>,
    ) -> Result<Scope<'a>, NoMemory>
        ensures { IfOk result (λ inner. inner ≡ with_columns self.now (option_map (λ names. names.now) columns.entry)) }
    {
        Ok(Scope {
            assigned: self.assigned,
            variables: self.variables,
            around: columns,
            parameters: Vec::from_slice(alloc, self.parameters.as_slice())?,
        })
    }

    /// The same point inside a lambda.
    pub fn with_parameter(
        &self,
        alloc: Global,
        name: &'a Name,
        role: ParameterRole,
    ) -> Result<Scope<'a>, NoMemory>
        ensures { IfOk result (λ inner. inner ≡ with_parameter self.now name.now.bytes (role_seen role)) }
    {
        let mut parameters = Vec::new(alloc);
        parameters.push(Parameter { name, role })?;
        parameters.extend_from_slice(self.parameters.as_slice())?;
        Ok(Scope {
            assigned: self.assigned,
            variables: self.variables,
            around: self.around,
            parameters,
        })
    }

    /// Whether the point is inside a lambda.
    pub fn is_in_lambda(&self) -> bool
        ensures { result ≡ is_in_lambda self.now }
    {
        !self.parameters.is_empty()
    }

    /// What the innermost parameter of this name is.
    pub fn role_of(&self, name: &[u8]) -> Option<ParameterRole>
        ensures { option_map role_seen result ≡ role_of self.now.parameters name.now }
    {
        role_among(self.parameters.as_slice(), name)
    }

    /// The type of a variable.
    pub fn variable(&self, name: &[u8]) -> Option<&'a Shape>
        ensures { option_map (λ shape. shape.now) result ≡ shape_among self.now.vars name.now }
    {
        self.variables.list.shape_of(name)
    }

    /// The type of a variable at a place, where the script assigns it, and on each way that leads here.
    #[tactic(auto, using(crate::proofs::KnownVariables::named_known))]
    fn set_variable(&self, at: Place, name: &[u8]) -> Result<&'a Shape, CheckError>
        ensures { MatchResult result (λ shape. (variable_break self.now at name.now ≡ None) × (shape_among self.now.vars name.now ≡ Some shape.now)) (λ error. Refuses (variable_break self.now at name.now) error) }
    {
        demand(self.assigned.has(name), at, Rule::UnknownName)?;
        match self.variables.list.shape_of(name) {
            Some(shape) if self.variables.sure.has(name) => Ok(shape),
            _ => Err(broken(at, Rule::MaybeUnset)),
        }
    }
}

/// What the first of these parameters of a name is.
fn role_among(parameters: &[Parameter], name: &[u8]) -> Option<ParameterRole>
    ensures { option_map role_seen result ≡ role_of (map parameter_seen parameters.now) name.now }
{
    for parameter in parameters {
        if name == parameter.name.bytes.as_slice() {
            return Some(parameter.role);
        }
    }
    None
}

/// Whether a frame of these columns has a column.
pub fn has_column(columns: &[ColumnName], name: &[u8]) -> bool
    ensures { result ≡ has_column name.now columns.now }
{
    for column in columns {
        if name == column.name().bytes.as_slice() {
            return true;
        }
    }
    false
}

/// Whether a value of this type is a number or a truth value.
fn is_scalar(shape: &Shape) -> bool
    ensures { result ≡ is_scalar (Some shape.now) }
{
    matches!(shape, Shape::Int | Shape::Bool)
}

impl<'a> Scope<'a> {
    /// The type of a variable as a value, where no parameter has its name.
    #[tactic(auto, unfolding(hp_script::specs::Breaks::name_break))]
    fn variable_value(&self, at: Place, name: &[u8]) -> Result<Shape, CheckError>
        ensures { Tells (name_break None self.now at name.now) (shape_among self.now.vars name.now) result }
    {
        let shape = self.set_variable(at, name)?;
        demand(
            !self.is_in_lambda() || is_scalar(shape),
            at,
            Rule::WrongType,
        )?;
        Ok(copied(shape)?)
    }

    /// The type of a name as a value.
    #[tactic(auto, unfolding(hp_script::specs::Breaks::name_break))]
    pub fn name(&self, at: Place, name: &[u8]) -> Result<Shape, CheckError>
        ensures { Tells (name_break (role_of self.now.parameters name.now) self.now at name.now) (name_shape (role_of self.now.parameters name.now) (shape_among self.now.vars name.now)) result }
    {
        match self.role_of(name) {
            Some(ParameterRole::Number) => Ok(Shape::Int),
            Some(ParameterRole::Truth) => Ok(Shape::Bool),
            Some(ParameterRole::Window) => Err(broken(at, Rule::WrongType)),
            None => self.variable_value(at, name),
        }
    }

    /// Tests a column of a variable as a value.
    #[tactic(auto, unfolding(hp_script::specs::Breaks::field_break))]
    pub fn field(&self, at: Place, name: &[u8], column: &[u8]) -> Result<(), CheckError>
        ensures { Passes (field_break (role_of self.now.parameters name.now) self.now at name.now column.now) result }
    {
        if self.role_of(name).is_some() {
            return Err(broken(at, Rule::WrongType));
        }
        let shape = self.set_variable(at, name)?;
        demand(!self.is_in_lambda(), at, Rule::WrongType)?;
        match shape {
            Shape::Frame(columns) => {
                demand(
                    has_column(columns.as_slice(), column),
                    at,
                    Rule::UnknownColumn,
                )
            }
            _ => Err(broken(at, Rule::WrongType)),
        }
    }

    /// Tests a column of the frame of the innermost filter as a value.
    #[tactic(auto, unfolding(hp_script::specs::Breaks::column_break))]
    pub fn column(&self, at: Place, column: &[u8]) -> Result<(), CheckError>
        ensures { Passes (column_break self.now.around self.now at column.now) result }
    {
        let Some(columns) = self.around else {
            return Err(broken(at, Rule::WrongType));
        };
        demand(!self.is_in_lambda(), at, Rule::WrongType)?;
        demand(has_column(columns, column), at, Rule::UnknownColumn)
    }
}
