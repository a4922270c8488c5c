// The law of scripts: each list of tokens spells one, or shows at one token that it spells none.

ghost use Rattle.std.specs.Prelude.{ℕ, List};
ghost use Rattle.hp_script.specs.declared.token.Token.{Token};
ghost use Rattle.hp_script.specs.OneOfTwo.{OneOfTwo};
ghost use Rattle.hp_parse.specs.Parsing.{IsParsed, IsUnparsed};

/// The law of scripts, as the clause of a function that does nothing: of the tokens of each source exactly one holds.
/// They spell a script within the depth, and one only; or they spell none, which shows at one place by one rule.
pub fn parsing_laws()
    ensures one_of_two { (source : List ℕ) (list : List Token) → OneOfTwo (IsParsed source list) (IsUnparsed source list) }
{}
