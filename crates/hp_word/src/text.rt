// How values are printed.

ghost use Rattle.std.specs.Prelude.{◌≡◌, ◌++◌, ◌==◌, [], codes, map, if◌then◌else◌, IfOk, OnOk};
ghost use Rattle.std.specs.Fmt.{signed_decimal};
ghost use Rattle.hp_word.specs.Text.{joined_by, list_line, printed, word_text};

use crate::place::NoMemory;
use crate::word::is_true;
use std::alloc::Global;

/// Adds bytes.
pub fn add(out: &mut Vec<u8>, bytes: &[u8]) -> Result<(), NoMemory>
    ensures { OnOk result (out.new.items ≡ out.old.items ++ bytes.now) }
{
    out.extend_from_slice(bytes)?;
    Ok(())
}

/// Adds a number in decimal.
pub fn add_number(out: &mut Vec<u8>, value: i64) -> Result<(), NoMemory>
    ensures { OnOk result (out.new.items ≡ out.old.items ++ signed_decimal value) }
{
    let decimal = format!(in *out.allocator(); "{value}")?;
    out.extend_from_slice(decimal.as_bytes())?;
    Ok(())
}

/// Adds a word: a number in decimal, or `true` or `false` where `truth` is set.
pub fn add_word(out: &mut Vec<u8>, value: i64, truth: bool) -> Result<(), NoMemory>
    ensures { OnOk result (out.new.items ≡ out.old.items ++ word_text truth value) }
{
    if !truth {
        return add_number(out, value);
    }
    if is_true(value) {
        add(out, b"true".as_slice())
    } else {
        add(out, b"false".as_slice())
    }
}

/// Adds a separator before a text, but not before the first one.
pub fn add_between(out: &mut Vec<u8>, separator: &[u8], place: usize) -> Result<(), NoMemory>
    ensures { OnOk result (out.new.items ≡ out.old.items ++ (if place == 0 then [] else separator.now)) }
{
    if place == 0 {
        return Ok(());
    }
    add(out, separator)
}

/// Adds words with a comma and a blank between each two.
#[tactic(auto, unfolding(crate::specs::Text::joined_by))]
fn add_words(out: &mut Vec<u8>, xs: &[i64], truth: bool) -> Result<(), NoMemory>
    ensures { OnOk result (out.new.items ≡ out.old.items ++ joined_by (codes ", ") (map (word_text truth) xs.now)) }
{
    for (i, x) in xs.iter().enumerate() {
        add_between(out, b", ".as_slice(), i)?;
        add_word(out, *x, truth)?;
    }
    Ok(())
}

/// Adds the line of an array.
#[tactic(auto, unfolding(crate::specs::Text::list_line))]
pub fn add_list(out: &mut Vec<u8>, xs: &[i64], truth: bool) -> Result<(), NoMemory>
    ensures { OnOk result (out.new.items ≡ out.old.items ++ list_line truth xs.now) }
{
    add(out, b"[".as_slice())?;
    add_words(out, xs, truth)?;
    add(out, b"]\n".as_slice())
}

/// The line of a word: its text and a newline.
pub fn printed_word(alloc: Global, value: i64, truth: bool) -> Result<Vec<u8>, NoMemory>
    ensures { IfOk result (λ line. line.items ≡ printed truth value) }
{
    let mut line = Vec::new(alloc);
    add_word(&mut line, value, truth)?;
    add(&mut line, b"\n".as_slice())?;
    Ok(line)
}
