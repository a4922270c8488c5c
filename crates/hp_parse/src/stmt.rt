// Statements, their blocks, and the body of a script.

ghost use Rattle.std.specs.Prelude.{◌≡◌, ◌≤◌, [], ◌∷◌, Some, IfOk, IfErr};
ghost use Rattle.hp_script.specs.declared.token.Keyword.TheVariants as words;
ghost use Rattle.hp_script.specs.Lexemes.{Word, Identifier};
ghost use Rattle.hp_script.specs.Depth.{deepest};
ghost use Rattle.hp_parse.specs.Machine.{want, stmt, stmts, expr, Statement, EndLine, Block, Body, Bracket};
ghost use Rattle.hp_parse.specs.Readers.{next, Reaches, Stops, Finishes, EndsConditional, StopsConditional};

use crate::cursor::Cursor;
use crate::error::ParseError;
use crate::expr::{bracketed, chain};
use hp_script::token::{Keyword, Lexeme, Sign};
use hp_script::tree::{Expr, Level, Stmt};
use hp_word::name::Name;
use sqlite_items::Items;

/// A statement.
#[cycle(statements)]
pub fn statement(cursor: &mut Cursor<'_>) -> Result<Stmt, ParseError>
    ensures read { IfOk result (λ x. Reaches cursor.old (want Statement ∷ []) [] cursor.new [] (stmt x ∷ [])) }
    ensures stopped { IfErr result (λ e. Stops cursor.old (want Statement ∷ []) [] e) }
{
    let Some(next) = cursor.peek() else {
        return Err(cursor.syntax());
    };
    match next {
        Lexeme::Identifier(name) => assignment(cursor, name),
        Lexeme::Word(word) => match word {
            Keyword::Println => {
                let at = cursor.place();
                cursor.advance();
                Ok(Stmt::Print(at, bracket(cursor)?))
            }
            Keyword::WriteCsv => {
                let at = cursor.place();
                cursor.advance();
                Ok(Stmt::Export(at, bracket(cursor)?))
            }
            Keyword::If => conditional(cursor),
            Keyword::While => repeated(cursor),
            _ => Err(cursor.syntax()),
        },
        _ => Err(cursor.syntax()),
    }
}

/// `NAME = EXPR`
fn assignment(cursor: &mut Cursor<'_>, name: &[u8]) -> Result<Stmt, ParseError>
    requires { next cursor.old ≡ Some (Identifier name.now) }
    ensures read { IfOk result (λ x. Reaches cursor.old (want Statement ∷ []) [] cursor.new [] (stmt x ∷ [])) }
    ensures stopped { IfErr result (λ e. Stops cursor.old (want Statement ∷ []) [] e) }
{
    let at = cursor.place();
    cursor.advance();
    cursor.expect(Sign::Assign)?;
    let value = chain(cursor, Level::Disjunction)?;
    Ok(Stmt::Assign(at, Name::of(cursor.alloc(), name)?, value))
}

/// `(EXPR)`
fn bracket(cursor: &mut Cursor<'_>) -> Result<Expr, ParseError>
    ensures read { IfOk result (λ x. Reaches cursor.old (want Bracket ∷ []) [] cursor.new [] (expr x ∷ [])) }
    ensures stopped { IfErr result (λ e. Stops cursor.old (want Bracket ∷ []) [] e) }
{
    if !cursor.is_at(Sign::Open) {
        return Err(cursor.syntax());
    }
    bracketed(cursor)
}

/// `if EXPR`, a block, an `else` with its block or none, and `end`.
#[cycle(statements)]
fn conditional(cursor: &mut Cursor<'_>) -> Result<Stmt, ParseError>
    requires { next cursor.old ≡ Some (Word words.If) }
    ensures read { IfOk result (λ x. Reaches cursor.old (want Statement ∷ []) [] cursor.new [] (stmt x ∷ [])) }
    ensures stopped { IfErr result (λ e. Stops cursor.old (want Statement ∷ []) [] e) }
{
    let at = cursor.place();
    let before = cursor.open()?;
    let test = chain(cursor, Level::Disjunction)?;
    cursor.expect_newline()?;
    let body = block(cursor)?;
    let other = alternative(cursor, before)?;
    Ok(Stmt::If(at, test, body, other))
}

/// What stands behind the block of an `if`: an `else` with its block or none, and `end`, which closes down to a depth.
#[cycle(statements)]
fn alternative(cursor: &mut Cursor<'_>, before: u32) -> Result<Items<Stmt>, ParseError>
    requires { before ≤ deepest }
    ensures read { IfOk result (λ xs. EndsConditional before cursor.old xs cursor.new) }
    ensures stopped { IfErr result (StopsConditional before cursor.old) }
{
    if cursor.takes_word(Keyword::Else) {
        cursor.expect_newline()?;
        let other = block(cursor)?;
        cursor.end(before)?;
        return Ok(other);
    }
    cursor.end(before)?;
    Ok(Items::new(cursor.alloc()))
}

/// `while EXPR`, a block, and `end`.
#[cycle(statements)]
fn repeated(cursor: &mut Cursor<'_>) -> Result<Stmt, ParseError>
    requires { next cursor.old ≡ Some (Word words.While) }
    ensures read { IfOk result (λ x. Reaches cursor.old (want Statement ∷ []) [] cursor.new [] (stmt x ∷ [])) }
    ensures stopped { IfErr result (λ e. Stops cursor.old (want Statement ∷ []) [] e) }
{
    let at = cursor.place();
    let before = cursor.open()?;
    let test = chain(cursor, Level::Disjunction)?;
    cursor.expect_newline()?;
    let body = block(cursor)?;
    cursor.end(before)?;
    Ok(Stmt::While(at, test, body))
}

/// Statements, each with its newline, and empty lines.
#[cycle(statements)]
fn block(cursor: &mut Cursor<'_>) -> Result<Items<Stmt>, ParseError>
    ensures read { IfOk result (λ xs. Reaches cursor.old (want Block ∷ []) (stmts [] ∷ []) cursor.new [] (stmts xs ∷ [])) }
    ensures stopped { IfErr result (λ e. Stops cursor.old (want Block ∷ []) (stmts [] ∷ []) e) }
{
    let mut list = Vec::new(cursor.alloc());
    loop {
        if cursor.takes_newline() {
            continue;
        }
        if !cursor.begins_statement() {
            return Ok(Items::from_vec(list));
        }
        let before = cursor.depth();
        list.push(statement(cursor)?)?;
        cursor.end_line(before)?;
    }
}

/// All tokens: statements and empty lines; the last statement may lack its newline.
pub fn body(cursor: &mut Cursor<'_>) -> Result<Items<Stmt>, ParseError>
    ensures read { IfOk result (λ xs. Finishes cursor.old xs cursor.new.number) }
    ensures stopped { IfErr result (λ e. Stops cursor.old (want Body ∷ []) (stmts [] ∷ []) e) }
{
    let mut list = Vec::new(cursor.alloc());
    while !cursor.is_at_end() {
        if cursor.takes_newline() {
            continue;
        }
        let before = cursor.depth();
        list.push(statement(cursor)?)?;
        if cursor.is_at_end() {
            return Ok(Items::from_vec(list));
        }
        cursor.end_line(before)?;
    }
    Ok(Items::from_vec(list))
}
