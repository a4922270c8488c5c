// Laws of the types of scripts: what the tests accept, in their order, is what the relations say.

ghost use Rattle.std.specs.Prelude.{◌≡◌, Some};
ghost use Rattle.hp_script.specs.declared.typed.Shape.{Shape};
ghost use Rattle.hp_script.specs.declared.typed.Typed.{Typed};
ghost use Rattle.hp_word.specs.declared.place.Place.{Place};
ghost use Rattle.hp_script.specs.declared.rule.Refusal.{Refusal};
ghost use Rattle.hp_script.specs.declared.rule.Rule.TheVariants.{MaybeUnset};
ghost use Rattle.hp_script.specs.Breaks.{broken};
ghost use Rattle.hp_script.specs.Checked.{Checked, first_break, start_of};
ghost use Rattle.hp_script.specs.Fitting.{IsSound};
ghost use Rattle.hp_script.specs.OneAnswer.{HasOneAnswer};
ghost use Rattle.hp_script.specs.Mirror.{Block, Tree};
ghost use Rattle.hp_script.specs.Runs.{IsScopeAt, Position, SetsLikeRuns};
ghost use Rattle.hp_script.specs.Scope.{Scope};
ghost use Rattle.hp_script.specs.Shaped.{HasShape};
ghost use Rattle.hp_script.specs.Told.{IsTold};
ghost use Rattle.hp_script.specs.Unset.{IsUnset};

/// The laws of typing, as the clauses of a function that does nothing: what passes all tests is what the relations say,
/// and what they say passes; an expression has one type; each script fits or has a first test that fails, and not both;
/// a name is set at a position where each run that comes there assigns it; where a variable is refused as maybe unset,
/// some run comes there and has not assigned it; and each refusal tells the fact of its rule at its place.
pub fn typing_laws()
    ensures sound { (typed : Typed) → Checked typed → IsSound typed }
    ensures whole { (typed : Typed) → IsSound typed → Checked typed }
    ensures one_type { (s : Scope) (x : Tree) (a b : Shape) → HasShape s x a → HasShape s x b → a ≡ b }
    ensures one_of_both { (body : Block) → HasOneAnswer body }
    ensures ways { (body : Block) (p : Position body) (known : Scope) → IsScopeAt (start_of body) body p known → SetsLikeRuns body p known }
    ensures unset { (body : Block) (at : Place) → first_break body ≡ broken at MaybeUnset → IsUnset body at }
    ensures tells { (body : Block) (refusal : Refusal) → first_break body ≡ Some refusal → IsTold body refusal }
{}
