// The laws of the ranks' program, as clauses.

ghost use Rattle.std.specs.Prelude.{ℕ, ◌≤◌};
ghost use Rattle.hp_word.specs.declared.table.Tables.{Tables};
ghost use Rattle.hp_spmd.specs.declared.code.Code.{Code};
ghost use Rattle.hp_spmd.specs.Exchanges.{HasForm};
ghost use Rattle.hp_spmd.specs.Laws.{ExchangeActs, IsRun, LocalActs, LocalShares, PhasesJoin, SizesJoin};
ghost use Rattle.hp_spmd.specs.Lockstep.{first_state};

/// The laws that later theorems stand on: the form of exchanges joins; a run by whole exchanges is one by single
/// instructions; the lockstep is made of the ranks' own acts; and what a rank does alone leaves its arrays shared.
pub fn program_laws()
    ensures joins { PhasesJoin }
    ensures sizes { SizesJoin }
    ensures exchanges { (code : Code) (tables : Tables) (ranks limit : ℕ) → 1 ≤ ranks → HasForm code.list → IsRun code tables limit (first_state code ranks) }
    ensures local { LocalActs }
    ensures acts { ExchangeActs }
    ensures shares { LocalShares }
{}
