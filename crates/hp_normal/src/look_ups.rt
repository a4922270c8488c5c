// Which frames are looked into often. Their columns are found by a hash, and those of others by a search: as both find
// the same, no contract speaks of this.

use hp_script::tree::{Arg, Expr, Form, Stmt};
use hp_word::place::NoMemory;
use indexmap::IndexMap;
use std::alloc::Global;

/// Up to so many look-ups in a frame are few: searches cost less than a hash of its columns.
const FEW: u32 = 8;

/// Look-ups of columns, as they are counted along a script.
#[derive(Drop)]
pub struct LookUps {
    /// Expressions by their numbers, of which columns are looked up often where they are frames.
    nodes: Vec<u32>,
    /// How often columns of any frame around were looked up so far.
    columns: u32,
    /// How often columns of each variable were, by its place.
    fields: Vec<u32>,
}

impl LookUps {
    /// The look-ups of columns in a script with so many variables, which have these places.
    pub fn of(
        alloc: Global,
        body: &[Stmt],
        vars: usize,
        places: &IndexMap<Vec<u8>, usize>,
    ) -> Result<LookUps, NoMemory> {
        let mut fields = Vec::new(alloc);
        for _ in 0..vars {
            fields.push(0)?;
        }
        let mut looks = LookUps {
            nodes: Vec::new(alloc),
            columns: 0,
            fields,
        };
        count_block(body, places, &mut looks)?;
        Ok(looks)
    }

    /// The expressions of which columns are looked up often, by their numbers.
    pub fn nodes(&self) -> &[u32] {
        self.nodes.as_slice()
    }

    /// The variables of which columns are looked up often, by their places.
    pub fn vars(&self, alloc: Global) -> Result<Vec<usize>, NoMemory> {
        let mut places = Vec::new(alloc);
        for (place, times) in self.fields.iter().enumerate() {
            if *times > FEW {
                places.push(place)?;
            }
        }
        Ok(places)
    }

    /// Counts a column of the frame around.
    fn note_column(&mut self) {
        self.columns = self.columns.saturating_add(1);
    }

    /// Counts a column of a variable.
    fn note_field(&mut self, place: Option<usize>) {
        if let Some(place) = place {
            if place < self.fields.len() {
                self.fields[place] = self.fields[place].saturating_add(1);
            }
        }
    }

    /// Notes the first argument of a call in which columns are looked up often: it is the frame around, where there is
    /// one.
    fn note_call(&mut self, args: &[Arg], before: u32) -> Result<(), NoMemory> {
        if self.columns.saturating_sub(before) <= FEW {
            return Ok(());
        }
        if let [Arg::Plain(x), ..] = args {
            self.nodes.push(x.id.0)?;
        }
        Ok(())
    }
}

/// Counts in an expression.
#[cycle(counted)]
fn count_expr(
    x: &Expr,
    places: &IndexMap<Vec<u8>, usize>,
    looks: &mut LookUps,
) -> Result<(), NoMemory> {
    match &x.form {
        Form::Column(_) => {
            looks.note_column();
            Ok(())
        }
        Form::Field(name, _) => {
            looks.note_field(places.get(name.bytes.as_slice()).copied());
            Ok(())
        }
        Form::Unary(_, _, operand) => count_expr(operand.get(), places, looks),
        Form::Binary(_, _, left, right) => {
            count_expr(left.get(), places, looks)?;
            count_expr(right.get(), places, looks)
        }
        Form::Index(array, index) => {
            count_expr(array.get(), places, looks)?;
            count_expr(index.get(), places, looks)
        }
        Form::Call(_, _, args) => {
            let before = looks.columns;
            count_args(args.as_slice(), places, looks)?;
            looks.note_call(args.as_slice(), before)
        }
        Form::Number(_) | Form::Truth(_) | Form::Text(_) | Form::Name(_) => Ok(()),
    }
}

/// Counts in arguments.
#[cycle(counted)]
fn count_args(
    args: &[Arg],
    places: &IndexMap<Vec<u8>, usize>,
    looks: &mut LookUps,
) -> Result<(), NoMemory> {
    for arg in args {
        count_arg(arg, places, looks)?;
    }
    Ok(())
}

/// Counts in an argument.
#[cycle(counted)]
fn count_arg(
    arg: &Arg,
    places: &IndexMap<Vec<u8>, usize>,
    looks: &mut LookUps,
) -> Result<(), NoMemory> {
    match arg {
        Arg::Plain(x) | Arg::Named(_, _, x) => count_expr(x, places, looks),
        Arg::Range(first, last) => {
            count_expr(first, places, looks)?;
            count_expr(last, places, looks)
        }
        Arg::Lambda(..) => Ok(()),
    }
}

/// Counts in statements.
#[cycle(counted_statements)]
fn count_block(
    body: &[Stmt],
    places: &IndexMap<Vec<u8>, usize>,
    looks: &mut LookUps,
) -> Result<(), NoMemory> {
    for stmt in body {
        count_stmt(stmt, places, looks)?;
    }
    Ok(())
}

/// Counts in a statement.
#[cycle(counted_statements)]
fn count_stmt(
    stmt: &Stmt,
    places: &IndexMap<Vec<u8>, usize>,
    looks: &mut LookUps,
) -> Result<(), NoMemory> {
    match stmt {
        Stmt::Assign(_, _, x) | Stmt::Print(_, x) | Stmt::Export(_, x) => {
            count_expr(x, places, looks)
        }
        Stmt::If(_, test, first, second) => {
            count_expr(test, places, looks)?;
            count_block(first.as_slice(), places, looks)?;
            count_block(second.as_slice(), places, looks)
        }
        Stmt::While(_, test, turn) => {
            count_expr(test, places, looks)?;
            count_block(turn.as_slice(), places, looks)
        }
    }
}
