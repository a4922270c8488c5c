// The laws of turns, as clauses.

ghost use Rattle.hp_turns.specs.Apart.{EndsOnly, LogsWithOutput, NeverStuck, OneEnd, RoundsEnd, RoundsPass, SharesAlways, TrapsOnly, WritesFront};

/// What every order of turns has in common with the lockstep, of each code whose ranks may run apart: it never gets stuck;
/// it writes a front of what the lockstep writes, which belongs to the orders that the ranks have logged; it ends and traps
/// only where the lockstep does; the ranks share their arrays as the code says; all orders that end leave the same; and turns
/// in rounds are over soon, and where they are not, have come as far as the lockstep.
pub fn turn_laws()
    ensures stuck { NeverStuck }
    ensures writes { WritesFront }
    ensures orders { LogsWithOutput }
    ensures ends { EndsOnly }
    ensures traps { TrapsOnly }
    ensures shares { SharesAlways }
    ensures same { OneEnd }
    ensures rounds { RoundsEnd }
    ensures passes { RoundsPass }
{}
