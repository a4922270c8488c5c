// The laws of reading: of each list of bytes exactly one thing is said.

ghost use Rattle.std.specs.Prelude.{ℕ, List};
ghost use Rattle.hp_script.specs.OneOfTwo.{OneOfTwo};
ghost use Rattle.hp_reader.specs.Reading.{IsSpelled, IsUnspelled, FitsAs, IsRefused};

use hp_lex::laws::lexing_laws;
use hp_parse::laws::parsing_laws;

/// The laws of reading, as the clauses of a function that does nothing: each list of bytes spells one script, or shows
/// at one place by one rule that it spells none; and it spells a script that fits, of which one thing is said, or is
/// refused at one place by one rule. It is never both, and never neither.
pub fn reading_laws()
    ensures spelled { (bytes : List ℕ) → OneOfTwo (IsSpelled bytes) (IsUnspelled bytes) }
    ensures one_of_two { (bytes : List ℕ) → OneOfTwo (FitsAs bytes) (IsRefused bytes) }
{
    lexing_laws();
    parsing_laws();
}
