// Which constructs ranks can run today.

ghost use Rattle.std.specs.Prelude.{◌≡◌};
ghost use Rattle.hp_built.specs.Ranks.{for_ranks};

use crate::construct::Construct;
use crate::unbuilt::Builds;

/// The constructs that have a program for ranks: all of words, of arrays and of the flow of control. Those of frames and
/// matrices have none yet.
#[derive(Clone, Copy, Drop)]
pub struct ForRanks;

impl Builds for ForRanks {
    ghost use Rattle.hp_built.specs.Ranks.{for_ranks};

    ghost built = { λ r. for_ranks };

    fn builds(&self, construct: Construct) -> bool {
        match construct {
            Construct::Arithmetic
            | Construct::Negation
            | Construct::Comparison
            | Construct::Lazy
            | Construct::ScalarCall
            | Construct::DottedArithmetic
            | Construct::DottedComparison
            | Construct::DottedLogic
            | Construct::Map
            | Construct::Fill
            | Construct::Collect
            | Construct::Length
            | Construct::Reduction
            | Construct::Count
            | Construct::Cumsum
            | Construct::Stencil
            | Construct::Element
            | Construct::Elements
            | Construct::Vcat
            | Construct::AssignWord
            | Construct::AssignArray
            | Construct::PrintWord
            | Construct::PrintArray
            | Construct::If
            | Construct::While => true,
            Construct::DataFrame
            | Construct::ReadCsv
            | Construct::Field
            | Construct::Column
            | Construct::Nrow
            | Construct::Filter
            | Construct::Join
            | Construct::Aggregate
            | Construct::Sort
            | Construct::Stack
            | Construct::Row
            | Construct::Product
            | Construct::TransposedProduct
            | Construct::AssignMatrix
            | Construct::AssignFrame
            | Construct::Export => false,
        }
    }
}
