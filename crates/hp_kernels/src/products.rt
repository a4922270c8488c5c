// Products of the rows of a matrix with a column.

ghost use Rattle.std.specs.Prelude.{◌≡◌, ◌++◌, OnOk};
ghost use Rattle.hp_word.specs.MatrixRules.{dot_product, products_of};

use hp_word::place::NoMemory;
use hp_word::sequence::Sequence;
use hp_word::word::{add, mul};

/// The wrapped sum of the products of two lists' elements, place by place.
fn dot_product(xs: &[i64], ys: &[i64]) -> i64
    ensures { result ≡ dot_product xs.now ys.now }
{
    let mut total = 0;
    for (i, x) in xs.iter().enumerate() {
        if i < ys.len() {
            total = add(total, mul(*x, ys[i]));
        }
    }
    total
}

/// Adds the products of rows with a column.
#[tactic(auto, unfolding(hp_word::specs::MatrixRules::products_of))]
pub fn add_products(
    made: &mut Vec<i64>,
    rows: &[Sequence<i64>],
    column: &[i64],
) -> Result<(), NoMemory>
    ensures { OnOk result (made.new.items ≡ made.old.items ++ products_of rows.now column.now) }
{
    for row in rows {
        made.push(dot_product(row.as_slice(), column))?;
    }
    Ok(())
}
