// The laws of what a script is flattened into, as clauses.

ghost use Rattle.hp_flat.specs.FlatLaws.{AreApart, AreCarried, AreFound, AreKeptSlots, AreServed, AreStepByStep, AreTold, AskTheSame, CopiesHaveSlots, ExpressionsHaveSlots, GiveGreatest, HaveOneEach, HaveOneMeaning, MeanTheSame, VariablesHaveSlots};
ghost use Rattle.hp_flat.specs.KeptLaws.{AreKept, AreSmall, HaveFewNames};

/// What holds of the slots of every script: an array of it stands in its slot, and no other array has that slot; each
/// column of the value of an expression has one, each column of a variable, and the balanced copy of each stencil; there is
/// exactly one for each array and no other; and each stands for one value, with its columns in order. In a script in which
/// no rule breaks each expression has its type at its number; apart from scalar work its program has one operation for each
/// construct, over the same arrays and in the same order, and carries the script; the program asks of how its arrays lie
/// what the script asks, so that the greatest distributions of its slots are the greatest of the script's arrays; and tables
/// that have the columns of the script's files serve the program, which over them means what the script means: it ends as the
/// script does, and so the two have one meaning. Each operation of the program keeps the laws of operations: its slots and
/// words are there, what it writes is apart from what it reads, and its lists, frames, copies and matrices are as it asks for.
/// The program is small, and so are its lists together.
pub fn flat_laws()
    ensures found { AreFound }
    ensures apart { AreApart }
    ensures expressions { ExpressionsHaveSlots }
    ensures variables { VariablesHaveSlots }
    ensures copies { CopiesHaveSlots }
    ensures one_each { HaveOneEach }
    ensures kept { AreKeptSlots }
    ensures told { AreTold }
    ensures step_by_step { AreStepByStep }
    ensures carried { AreCarried }
    ensures constraints { AskTheSame }
    ensures greatest { GiveGreatest }
    ensures served { AreServed }
    ensures meaning { MeanTheSame }
    ensures one_meaning { HaveOneMeaning }
    ensures keeps { AreKept }
    ensures small { AreSmall }
    ensures few_names { HaveFewNames }
{}
