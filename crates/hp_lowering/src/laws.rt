// What the codes of steps and of programs have, as clauses.

ghost use Rattle.hp_lowering.specs.CodeLaws.{CodeHasForm, CodeLoops, CodePacks, LoweredArrays, LoweredFollows, LoweredHasForm, LoweredIsCode, LoweredLoops, LoweredPacks, StepsAreStraight, StepsAreWork};
ghost use Rattle.hp_lowering.specs.RunLaws.{RanksAgree, RanksRunParts, RanksStop, StepsAreCarried};

/// Where the instructions of each step have the form of exchanges and none of them jumps, the whole code of a program has the
/// form; its packs and its loops are those of its steps, in the order of the text. The code of each step is such, and is the
/// work of the step's units; so the code of each program has the form,
/// and where all its steps are built, its packs are what the ranks send for it. Its loops are the program's, and each slot is the
/// array of its number: so it follows the program. And it is a code that a rank can take: what it names is there, and it is short.
pub fn code_laws()
    ensures form { CodeHasForm }
    ensures packs { CodePacks }
    ensures loops { CodeLoops }
    ensures straight { StepsAreStraight }
    ensures work { StepsAreWork }
    ensures lowered { LoweredHasForm }
    ensures sent { LoweredPacks }
    ensures looped { LoweredLoops }
    ensures laid { LoweredArrays }
    ensures follows { LoweredFollows }
    ensures code { LoweredIsCode }
{}

/// Where the code of each step of a program carries the step, the lockstep of the whole code comes as far as the program at each
/// limit: it ends with the same output and what the ranks stand for, it traps at the very place and kind, or it has written a front of
/// what the program writes, under all orders that the ranks have logged by then. Where the program stops, 16 instructions for each
/// unit of its work are enough; and the ranks agree at every instruction. The codes of numbers, of operations on words, of fills and
/// ranges, and of the outputs of words and lists carry their steps.
pub fn run_laws()
    ensures runs { RanksRunParts }
    ensures stops { RanksStop }
    ensures agree { RanksAgree }
    ensures carried { StepsAreCarried }
{}
