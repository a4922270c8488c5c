// The rows that a filter keeps.

ghost use Rattle.std.specs.Prelude.{◌≡◌, IfOk};
ghost use Rattle.hp_word.specs.RowRules.{filter_rows};

use hp_word::place::NoMemory;
use hp_word::word::is_true;
use std::alloc::Global;

/// The cells of the rows at which the mask is true; where one list is shorter, its rows alone count.
#[tactic(auto, unfolding(hp_word::specs::RowRules::filter_rows))]
pub fn select(alloc: Global, mask: &[i64], column: &[i64]) -> Result<Vec<i64>, NoMemory>
    ensures { IfOk result (λ made. made.items ≡ filter_rows mask.now column.now) }
{
    let mut made = Vec::new(alloc);
    for (i, test) in mask.iter().enumerate() {
        if i < column.len() && is_true(*test) {
            made.push(column[i])?;
        }
    }
    Ok(made)
}
