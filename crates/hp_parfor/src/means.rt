// What programs with loops mean.

ghost use Rattle.std.specs.Prelude.{[]};
ghost use Rattle.hp_parfor.specs.Parts.{program_of};
ghost use Rattle.hp_parfor.specs.LoopMeaning.{PartsServed, parts_mean, parts_work};
ghost use Rattle.hp_parfor.specs.PlacedParts.{PlacedParts};
ghost use Rattle.hp_parfor.specs.CarriedParts.{CarriedParts};

use crate::parfors::Parfors;
use hp_air::means::Means;

impl Means for Parfors {
    ghost slots = { λ parfors. parfors.slots };

    ghost serves = { λ parfors. PartsServed (program_of parfors.body) };

    ghost mean = { λ parfors. parts_mean parfors.slots [] (program_of parfors.body) };

    ghost work = { λ parfors. parts_work parfors.slots (program_of parfors.body) };

    ghost placed = { λ parfors. PlacedParts parfors.slots (program_of parfors.body) };

    ghost carried = { λ parfors typed. CarriedParts typed parfors.slots (program_of parfors.body) };
}
