// What ranks that run a program's code have in common with what is meant, as clauses.

ghost use Rattle.hp_compile.specs.HeadlineLaws.{AirEndIsHeld, AirIsOver, AirIsWritten, BuiltMeansAsAir, Headline, ScriptIsOver, ScriptIsWritten, ScriptProgramsMean};
ghost use Rattle.hp_compile.specs.RanksLaws.{ProgramsAreCarried, ProgramsAreOver, ProgramsEndAlike, ProgramsHoldEnd, ProgramsRunApart, ProgramsStand, ProgramsWrite};

use hp_flat::laws::flat_laws;

/// Of 1 to 32 ranks that run the code of a program with loops, over any tables, with any room of the queues and after any list of
/// turns, where the code of each step does the step: they may run apart; they are not stuck, and each stands at its number with its
/// arrays shared as the code says; what they have written is a front of what the program writes under the orders of rows that they
/// have kept, with as many loop turns as they had turns; where all have halted, the program is done with exactly that output, and
/// they hold what it has made; where one has trapped, the program traps. In rounds they are over soon; and two orders of turns that
/// end leave the same. Of programs of which all steps are built all this hangs on no promise.
pub fn ranks_laws()
    ensures apart { ProgramsRunApart }
    ensures stand { ProgramsStand }
    ensures write { ProgramsWrite }
    ensures ends { ProgramsHoldEnd }
    ensures over { ProgramsAreOver }
    ensures alike { ProgramsEndAlike }
    ensures carried { ProgramsAreCarried }
{}

/// The same of a program of the array IR, where one with loops means the same as it, as the one that is built of it does; and of a script,
/// where one with loops means what the script means, as the one that is built of its program does. So of each script in which no rule
/// breaks, over tables that go with its files, on 1 to 32 ranks, with any room and after any list of turns: the ranks are not stuck; they
/// have written a front of the script's output under the orders of rows that they have kept; where all have halted, the script is done with
/// exactly that output; where one has trapped, the script traps; and as many turns in rounds as its budget are enough.
pub fn headline_laws()
    ensures air { AirIsWritten }
    ensures air_ends { AirEndIsHeld }
    ensures air_over { AirIsOver }
    ensures air_built { BuiltMeansAsAir }
    ensures script { ScriptIsWritten }
    ensures script_over { ScriptIsOver }
    ensures script_built { ScriptProgramsMean }
    ensures headline { Headline }
{
    flat_laws();
}
