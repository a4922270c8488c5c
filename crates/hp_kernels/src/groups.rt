// The rows that an aggregate groups.

ghost use Rattle.std.specs.Prelude.{◌≡◌, IfOk};
ghost use Rattle.hp_word.specs.RowRules.{firsts_from_0, group_of};

use hp_word::place::NoMemory;
use indexmap::IndexSet;
use std::alloc::Global;

/// The groups of rows with equal keys: the first row of each, and the number of each row's group, from 0.
#[derive(Drop)]
pub struct Groups {
    pub firsts: Vec<u64>,
    pub group_of: Vec<u64>,
}

/// The groups of rows with equal keys, by their first rows.
pub fn group_rows(alloc: Global, keys: &[i64]) -> Result<Groups, NoMemory>
    ensures firsts { IfOk result (λ made. made.firsts.items ≡ firsts_from_0 keys.now) }
    ensures numbers { IfOk result (λ made. made.group_of.items ≡ group_of keys.now) }
{
    let mut numbered = IndexSet::new(alloc);
    let mut firsts = Vec::new(alloc);
    let mut group_of = Vec::new(alloc);
    for (i, key) in keys.iter().enumerate() {
        let (group, is_new) = numbered.insert_full(*key)?;
        if is_new {
            firsts.push(i as u64)?;
        }
        group_of.push(group as u64)?;
    }
    Ok(Groups { firsts, group_of })
}
