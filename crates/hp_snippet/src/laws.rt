// The laws that each piece of code stands on, as clauses.

ghost use Rattle.hp_snippet.specs.Laws.{ExchangeLeads, ExchangeStops, JumpLeads, LayoutEach, LeadsJoin, RangesMove, TogetherLeads, TogetherStops, WriteLeads};

/// What leads on from where something leads leads from there, and the counts add; an instruction leads by one, or trips, and a jump by one; what
/// the ranks stand for together is what each of them holds by itself; an exchange leads by four instructions to what each rank
/// unpacks of the messages for it from all ranks in order, or trips with the lowest rank's trap; one at the root, to what rank 0
/// writes of them; and the cells of a range that the ranks have of an array are, in rank order, that range of the whole.
pub fn snippet_laws()
    ensures joins { LeadsJoin }
    ensures together { TogetherLeads }
    ensures trips { TogetherStops }
    ensures jumps { JumpLeads }
    ensures layout { LayoutEach }
    ensures exchange { ExchangeLeads }
    ensures stops { ExchangeStops }
    ensures writes { WriteLeads }
    ensures ranges { RangesMove }
{}
