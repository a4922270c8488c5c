// The laws of what is worked out element by element.

ghost use Rattle.std.specs.Prelude.{◌≡◌, ◌<◌, ℕ, ℤ, pos, List, [], ◌∷◌, length, slice_index_or};
ghost use Rattle.hp_word.specs.declared.elem.Elem.{Elem};
ghost use Rattle.hp_word.specs.declared.elem.Elem.TheVariants.{Number, Input};
ghost use Rattle.hp_word.specs.declared.elem.Elem.TheViews.{Calc};
ghost use Rattle.hp_word.specs.declared.place.Place.{Place};
ghost use Rattle.hp_word.specs.declared.word.CalcOp.{CalcOp};
ghost use Rattle.hp_word.specs.declared.word.CalcOp.TheVariants.{Not};
ghost use Rattle.hp_word.specs.Elem.{Sight};
ghost use Rattle.hp_word.specs.LoopRules.{sight_in};
ghost use Rattle.hp_script.specs.Mirror.{Tree};
ghost use Rattle.hp_meaning.specs.declared.value.Kind.{Kind};
ghost use Rattle.hp_meaning.specs.declared.value.Var.{Var};
ghost use Rattle.hp_meaning.specs.LambdaRules.{Element, Around, inside, scalar, word_in, number_in, mapped_words, stencil_words};
ghost use Rattle.hp_meaning.specs.LoopLaws.{element_of, looped};
ghost use Rattle.hp_meaning.specs.Outcomes.{Gives, also, told};
ghost use Rattle.hp_meaning.specs.WordRules.{negated, pairwise, with_left, with_right};

/// The laws of loops, as the clauses of a function that does nothing: an operator on arrays of one length, or on an
/// array and a word, is the loop of its operation, with the trap of the first place that has one; and where at each
/// place the body of a lambda gives what an element does, `map` and `stencil` are the loop of that element.
pub fn loop_laws()
    ensures pairs { (at : Place) (op : CalcOp) (xs ys : List ℤ) → length xs ≡ length ys → pairwise at op xs ys ≡ told (looped (sight_in (xs ∷ ys ∷ [])) (Calc op at (Input 0) (Input 1)) (length xs)) }
    ensures right { (at : Place) (op : CalcOp) (xs : List ℤ) (y : ℤ) → with_right at op xs y ≡ told (looped (sight_in (xs ∷ [])) (Calc op at (Input 0) (Number y)) (length xs)) }
    ensures left { (at : Place) (op : CalcOp) (x : ℤ) (ys : List ℤ) → with_left at op x ys ≡ told (looped (sight_in (ys ∷ [])) (Calc op at (Number x) (Input 0)) (length ys)) }
    ensures opposite { (at : Place) (xs : List ℤ) → Gives (negated xs) ≡ told (looped (sight_in (xs ∷ [])) (Calc Not at (Input 0) (Number (pos 0))) (length xs)) }
    ensures mapped { (vars : List Var) (parameter : List ℕ) (body : Tree) (kind : Kind) (xs : List ℤ) (sight : ℕ → List ℤ → Sight) (e : Elem) → ((i : ℕ) → i < length xs → also (scalar body (inside parameter (Element kind (slice_index_or xs i (pos 0))) vars)) word_in ≡ element_of sight e i) → mapped_words vars parameter body kind xs ≡ told (looped sight e (length xs)) }
    ensures stencilled { (vars : List Var) (parameter : List ℕ) (body : Tree) (xs : List ℤ) (sight : ℕ → List ℤ → Sight) (e : Elem) → ((i : ℕ) → i < length xs → also (scalar body (inside parameter (Around xs i) vars)) number_in ≡ element_of sight e i) → stencil_words vars parameter body xs ≡ told (looped sight e (length xs)) }
{}
