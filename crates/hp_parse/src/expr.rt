// Expressions: chains of operators by their levels, operands, and calls with their arguments.

ghost use Rattle.std.specs.Prelude.{◌<◌, [], ◌∷◌, IsSome, IfOk, IfErr};
ghost use Rattle.hp_script.specs.Depth.{deepest};
ghost use Rattle.hp_parse.specs.Machine.{want, expr, arg, args, operand, Chain, Unary, Indexed, Primary, AfterName, Arguments, Argument, Phrase};
ghost use Rattle.hp_parse.specs.Readers.{next, Brackets, Reaches, Stops};

use crate::cursor::Cursor;
use crate::error::ParseError;
use crate::node::Head;
use hp_script::token::{Keyword, Lexeme, Sign};
use hp_script::tree::{Arg, Expr, Level};
use hp_word::name::Name;
use sqlite_items::Items;

/// An expression of operators of this level and of those that bind more tightly. Of comparisons there is at most one.
#[cycle(expressions)]
pub fn chain(cursor: &mut Cursor<'_>, level: Level) -> Result<Expr, ParseError>
    ensures read { IfOk result (λ x. Reaches cursor.old (want (Chain level) ∷ []) [] cursor.new [] (expr x ∷ [])) }
    ensures stopped { IfErr result (λ e. Stops cursor.old (want (Chain level) ∷ []) [] e) }
{
    let mut left = operand(cursor, level)?;
    while let Some((op, dotted)) = cursor.operator(level) {
        cursor.deepen(1)?;
        let head = cursor.head();
        let right = operand(cursor, level)?;
        left = head.binary(cursor.alloc(), op, dotted, left, right)?;
        if let Level::Comparison = level {
            return Ok(left);
        }
    }
    Ok(left)
}

/// An operand of an operator of this level.
#[cycle(expressions)]
fn operand(cursor: &mut Cursor<'_>, level: Level) -> Result<Expr, ParseError>
    ensures read { IfOk result (λ x. Reaches cursor.old (operand level ∷ []) [] cursor.new [] (expr x ∷ [])) }
    ensures stopped { IfErr result (λ e. Stops cursor.old (operand level ∷ []) [] e) }
{
    match level.tighter() {
        Some(next) => chain(cursor, next),
        None => unary(cursor),
    }
}

/// Operators with one operand, and what they stand before.
#[cycle(expressions)]
fn unary(cursor: &mut Cursor<'_>) -> Result<Expr, ParseError>
    ensures read { IfOk result (λ x. Reaches cursor.old (want Unary ∷ []) [] cursor.new [] (expr x ∷ [])) }
    ensures stopped { IfErr result (λ e. Stops cursor.old (want Unary ∷ []) [] e) }
{
    if let Some((op, dotted)) = cursor.unary_operator() {
        cursor.deepen(1)?;
        let head = cursor.head();
        let operand = unary(cursor)?;
        return Ok(head.unary(cursor.alloc(), op, dotted, operand)?);
    }
    let first = primary(cursor)?;
    indexed(cursor, first)
}

/// The indices behind what is indexed.
#[cycle(expressions)]
fn indexed(cursor: &mut Cursor<'_>, first: Expr) -> Result<Expr, ParseError>
    ensures read { IfOk result (λ x. Reaches cursor.old (want Indexed ∷ []) (expr first ∷ []) cursor.new [] (expr x ∷ [])) }
    ensures stopped { IfErr result (λ e. Stops cursor.old (want Indexed ∷ []) (expr first ∷ []) e) }
{
    let mut left = first;
    while cursor.is_at(Sign::OpenIndex) {
        let before = cursor.depth();
        cursor.deepen(2)?;
        let head = cursor.head();
        let index = chain(cursor, Level::Disjunction)?;
        cursor.close(Sign::CloseIndex, before + 1)?;
        left = head.index(cursor.alloc(), left, index)?;
    }
    Ok(left)
}

/// A literal, a column, a name, a call, or an expression in brackets.
#[cycle(expressions)]
fn primary(cursor: &mut Cursor<'_>) -> Result<Expr, ParseError>
    ensures read { IfOk result (λ x. Reaches cursor.old (want Primary ∷ []) [] cursor.new [] (expr x ∷ [])) }
    ensures stopped { IfErr result (λ e. Stops cursor.old (want Primary ∷ []) [] e) }
{
    let Some(next) = cursor.peek() else {
        return Err(cursor.syntax());
    };
    match next {
        Lexeme::Numeral(value) => Ok(cursor.head().number(value)),
        Lexeme::Quoted(bytes) => Ok(cursor.head().text(cursor.alloc(), bytes)?),
        Lexeme::Word(word) => match word {
            Keyword::True => Ok(cursor.head().truth(true)),
            Keyword::False => Ok(cursor.head().truth(false)),
            _ => Err(cursor.syntax()),
        },
        Lexeme::Mark(sign) => match sign {
            Sign::Colon => {
                let head = cursor.head();
                let name = cursor.name()?;
                Ok(head.column(cursor.alloc(), name)?)
            }
            Sign::Open => bracketed(cursor),
            _ => Err(cursor.syntax()),
        },
        Lexeme::Identifier(name) => {
            let head = cursor.head();
            after_name(cursor, head, name)
        }
        Lexeme::Newline => Err(cursor.syntax()),
    }
}

/// An expression in brackets, of which the first is the next token.
#[cycle(expressions)]
pub fn bracketed(cursor: &mut Cursor<'_>) -> Result<Expr, ParseError>
    requires { IsSome (next cursor.old) }
    ensures read { IfOk result (λ x. (phrase : Phrase) → Brackets phrase cursor.old → Reaches cursor.old (want phrase ∷ []) [] cursor.new [] (expr x ∷ [])) }
    ensures stopped { IfErr result (λ e. (phrase : Phrase) → Brackets phrase cursor.old → Stops cursor.old (want phrase ∷ []) [] e) }
{
    let before = cursor.open()?;
    let inner = chain(cursor, Level::Disjunction)?;
    cursor.close(Sign::Close, before)?;
    Ok(inner)
}

/// A variable, a column of a variable, or a call, behind its name.
#[cycle(expressions)]
fn after_name(cursor: &mut Cursor<'_>, head: Head, name: &[u8]) -> Result<Expr, ParseError>
    ensures read { IfOk result (λ x. Reaches cursor.old (want (AfterName head.id.0 head.at name.now) ∷ []) [] cursor.new [] (expr x ∷ [])) }
    ensures stopped { IfErr result (λ e. Stops cursor.old (want (AfterName head.id.0 head.at name.now) ∷ []) [] e) }
{
    let dotted = cursor.takes(Sign::Dot);
    if cursor.is_at(Sign::Open) {
        let before = cursor.open()?;
        let args = arguments(cursor, before)?;
        return Ok(head.call(cursor.alloc(), name, dotted, args)?);
    }
    if dotted {
        let column = cursor.name()?;
        return Ok(head.field(cursor.alloc(), name, column)?);
    }
    Ok(head.name(cursor.alloc(), name)?)
}

/// The arguments of a call behind the bracket that opens them, and the one that closes them.
#[cycle(expressions)]
fn arguments(cursor: &mut Cursor<'_>, before: u32) -> Result<Items<Arg>, ParseError>
    requires { before < deepest }
    ensures read { IfOk result (λ xs. Reaches cursor.old (want (Arguments before) ∷ []) (args [] ∷ []) cursor.new [] (args xs ∷ [])) }
    ensures stopped { IfErr result (λ e. Stops cursor.old (want (Arguments before) ∷ []) (args [] ∷ []) e) }
{
    let mut args = Vec::new(cursor.alloc());
    if cursor.takes(Sign::Close) {
        cursor.restore(before);
        return Ok(Items::from_vec(args));
    }
    args.push(argument(cursor)?)?;
    while cursor.takes(Sign::Comma) {
        cursor.restore(before + 1);
        args.push(argument(cursor)?)?;
    }
    cursor.close(Sign::Close, before)?;
    Ok(Items::from_vec(args))
}

/// An argument: `NAME -> EXPR`, `NAME = EXPR`, `EXPR : EXPR` or an expression.
#[cycle(expressions)]
fn argument(cursor: &mut Cursor<'_>) -> Result<Arg, ParseError>
    ensures read { IfOk result (λ x. Reaches cursor.old (want Argument ∷ []) [] cursor.new [] (arg x ∷ [])) }
    ensures stopped { IfErr result (λ e. Stops cursor.old (want Argument ∷ []) [] e) }
{
    if let Some(name) = cursor.name_before(Sign::Arrow) {
        cursor.advance();
        cursor.advance();
        let value = chain(cursor, Level::Disjunction)?;
        return Ok(Arg::Lambda(Name::of(cursor.alloc(), name)?, value));
    }
    if let Some(name) = cursor.name_before(Sign::Assign) {
        let at = cursor.place();
        cursor.advance();
        cursor.advance();
        let value = chain(cursor, Level::Disjunction)?;
        return Ok(Arg::Named(Name::of(cursor.alloc(), name)?, at, value));
    }
    let first = chain(cursor, Level::Disjunction)?;
    if cursor.takes(Sign::Colon) {
        let last = chain(cursor, Level::Disjunction)?;
        return Ok(Arg::Range(first, last));
    }
    Ok(Arg::Plain(first))
}
