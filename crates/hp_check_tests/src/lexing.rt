// Tests of the lexer: the tokens of a text as one line, or where it has none.

use hp_lex::lexer::{LexError, lex};
use hp_script::token::{Kind, Lexeme, Token};
use hp_word::place::NoMemory;
use std::alloc::Global;
use std::test::*;

/// What a token is, in one word.
fn word_of(kind: Kind) -> &'static [u8] {
    match kind {
        Kind::Number => b"number ",
        Kind::Name => b"name ",
        Kind::Text => b"text ",
        Kind::Word => b"word ",
        Kind::Sign => b"sign ",
        Kind::Line => b"line ",
        Kind::Eof => b"end",
    }
}

/// Adds a token: its kind, the bytes that it stands for, and `;`.
fn add(line: &mut Vec<u8>, source: &[u8], token: &Token) -> Result<(), NoMemory> {
    line.extend_from_slice(word_of(token.kind))?;
    match source.get(token.from as usize..token.until as usize) {
        Some(text) => line.extend_from_slice(text)?,
        None => line.extend_from_slice(b"nothing".as_slice())?,
    }
    line.push(b';')?;
    Ok(())
}

/// The tokens of a text as one line, or how it is refused.
fn tokens(alloc: Global, source: &[u8]) -> Result<Vec<u8>, NoMemory> {
    let mut line = Vec::new(alloc);
    match lex(alloc, source) {
        Ok(found) => {
            for token in found.list.as_slice() {
                add(&mut line, source, token)?;
            }
        }
        Err(LexError::NoMemory) => return Err(NoMemory),
        Err(error) => {
            let told = format!(in alloc; "{error}")?;
            line.extend_from_slice(told.as_bytes())?;
        }
    }
    Ok(line)
}

/// Whether the tokens of a text are this line.
fn are_tokens(alloc: Global, source: &[u8], line: &[u8]) -> bool {
    match tokens(alloc, source) {
        Ok(found) => found.as_slice() == line,
        Err(NoMemory) => false,
    }
}

#[test]
fn texts_and_their_tokens(rt: HostRuntime) {
    for (source, line) in [
        // Numbers.
        (
            b"x = 9223372036854775808".as_slice(),
            b"1:5: WideNumber".as_slice(),
        ),
        (b"0018446744073709551616", b"1:1: WideNumber"),
        (b"1\n99999999999999999999 ?", b"2:1: WideNumber"),
        // Bytes of no token.
        (b"x = 1 ? 2", b"1:7: BadByte"),
        (b"a & b", b"1:3: BadByte"),
        (b"a\n\n  | b", b"3:3: BadByte"),
        (b"\xff", b"1:1: BadByte"),
        (b"# \xff\n\xff", b"2:1: BadByte"),
        (b"x\x0c", b"1:2: BadByte"),
        (b"\\", b"1:1: BadByte"),
        // Texts.
        (b"x = \"abc", b"1:5: BadByte"),
        (b"\"\"", b"1:1: BadByte"),
        (b"\"a\nb\"", b"1:1: BadByte"),
        (b"\"a\\b\"", b"1:1: BadByte"),
        (b"\"a\x7f\"", b"1:1: BadByte"),
        (b"\" ~\"", b"text \" ~\";end;"),
        (b"\"a\"b", b"text \"a\";name b;end;"),
        // Signs.
        (b".+", b"sign .+;end;"),
        (b". +", b"sign .;sign +;end;"),
        (b"->-", b"sign ->;sign -;end;"),
        (b"- >", b"sign -;sign >;end;"),
        (b".=", b"sign .;sign =;end;"),
        (b".==", b"sign .==;end;"),
        (b".!=!", b"sign .!=;sign !;end;"),
        (b"<==", b"sign <=;sign =;end;"),
        (b"===", b"sign ==;sign =;end;"),
        (b"a.b", b"name a;sign .;name b;end;"),
        (b"1.+2", b"number 1;sign .+;number 2;end;"),
        // Words and names.
        (b"", b"end;"),
        (b"iffy", b"name iffy;end;"),
        (b"if", b"word if;end;"),
        (b"If", b"name If;end;"),
        (b"write_csv", b"word write_csv;end;"),
        (b"_", b"name _;end;"),
        (b"a1_Z9", b"name a1_Z9;end;"),
        (b"12ab", b"number 12;name ab;end;"),
        // What stands between tokens.
        (b" \t\r", b"end;"),
        (b"# any \xff\x00\"", b"end;"),
        (b"#\n#", b"line \n;end;"),
        (b"a#b\nc", b"name a;line \n;name c;end;"),
    ] {
        assert!(rt; are_tokens(rt.alloc(), source, line));
    }
}

/// A text of so many bytes in quotes.
fn quoted(alloc: Global, size: usize) -> Result<Vec<u8>, NoMemory> {
    let mut text = Vec::new(alloc);
    text.push(b'"')?;
    for _ in 0..size {
        text.push(b'a')?;
    }
    text.push(b'"')?;
    Ok(text)
}

/// Whether a text of so many bytes in quotes is one token.
fn is_text(alloc: Global, size: usize) -> Result<bool, NoMemory> {
    let text = quoted(alloc, size)?;
    match lex(alloc, text.as_slice()) {
        Ok(found) => Ok(found.list.len() == 2),
        Err(_) => Ok(false),
    }
}

#[test]
fn long_texts(rt: HostRuntime) -> Result<(), Fail> {
    assert!(rt; is_text(rt.alloc(), 255)?);
    assert!(rt; !is_text(rt.alloc(), 256)?);
    Ok(())
}

/// Whether the first token is a number of this value.
fn is_number(alloc: Global, source: &[u8], value: i64) -> bool {
    let Ok(found) = lex(alloc, source) else {
        return false;
    };
    match found.lexeme(0) {
        Some(Lexeme::Numeral(number)) => number == value,
        _ => false,
    }
}

#[test]
fn numbers(rt: HostRuntime) {
    for (source, value) in [
        (b"0".as_slice(), 0),
        (b"007", 7),
        (b"0000000000000000000000000001", 1),
        (b"9223372036854775807", i64::MAX),
        (b"009223372036854775807 ", i64::MAX),
    ] {
        assert!(rt; is_number(rt.alloc(), source, value));
    }
}

/// Whether the tokens of a text stand at these places.
fn are_places(alloc: Global, source: &[u8], wanted: &[(u32, u32)]) -> bool {
    let Ok(found) = lex(alloc, source) else {
        return false;
    };
    let list = found.list.as_slice();
    list.len() == wanted.len()
        && list.iter().zip(wanted).all(|(token, (line, col))| token.at.line == *line
            && token.at.col == *col)
}

#[test]
fn places(rt: HostRuntime) -> Result<(), Fail> {
    let alloc = rt.alloc();
    let wanted = [
        (1, 1),
        (1, 4),
        (1, 6),
        (1, 12),
        (2, 1),
        (3, 2),
        (3, 3),
        (4, 1),
    ];
    assert!(rt; are_places(alloc, b"ab = 1 # c\r\n\n\tx\n", &wanted));
    let blanks = vec![in alloc; b' '; 65_537]?;
    assert!(rt; are_tokens(alloc, blanks.as_slice(), b"1:1: TooLongScript"));
    assert!(rt; are_places(alloc, &blanks[..65_536], &[(1, 65_537)]));
    Ok(())
}
