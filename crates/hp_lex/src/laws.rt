// The law of tokens: each list of bytes has one list of them, or one first place that has none.

ghost use Rattle.std.specs.Prelude.{ℕ, List};
ghost use Rattle.hp_script.specs.OneOfTwo.{OneOfTwo};
ghost use Rattle.hp_script.specs.Tokens.{HasTokens};
ghost use Rattle.hp_lex.specs.Lexing.{IsUnlexed};

/// The law of tokens, as the clause of a function that does nothing: of each list of bytes exactly one holds. It has
/// tokens, and one list of them; or it has none, which shows at one place by one rule.
pub fn lexing_laws()
    ensures one_of_two { (bytes : List ℕ) → OneOfTwo (HasTokens bytes) (IsUnlexed bytes) }
{}
