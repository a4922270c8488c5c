// What an aggregate works out of each group of rows.

ghost use Rattle.std.specs.Prelude.{◌≡◌, map, IfOk, pos, length};
ghost use Rattle.hp_kernels.specs.Grouping.{AreGroupsOf};
ghost use Rattle.hp_word.specs.Folds.{fold_of};
ghost use Rattle.hp_word.specs.RowRules.{group_keys, measured, with_key};

use crate::groups::Groups;
use hp_word::fold::{FoldKind, empty, fold};
use hp_word::place::NoMemory;
use hp_word::table::MeasureKind;
use std::alloc::Global;

/// The fold of the cells of each group.
fn fold_groups(
    alloc: Global,
    kind: FoldKind,
    keys: &[i64],
    groups: &Groups,
    cells: &[i64],
) -> Result<Vec<i64>, NoMemory>
    requires { AreGroupsOf keys.now groups.now }
    ensures { IfOk result (λ made. made.items ≡ map (λ key. fold_of kind (with_key keys.now key cells.now)) (group_keys keys.now)) }
{
    let mut made = vec![in alloc; empty(kind); groups.firsts.len()]?;
    for i in 0..keys.len() {
        if i < cells.len() {
            let group = groups.group_of[i] as usize;
            made[group] = fold(kind, made[group], cells[i]);
        }
    }
    Ok(made)
}

/// How many rows each group has.
fn count_groups(alloc: Global, keys: &[i64], groups: &Groups) -> Result<Vec<i64>, NoMemory>
    requires { AreGroupsOf keys.now groups.now }
    ensures { IfOk result (λ made. made.items ≡ map (λ key. pos (length (with_key keys.now key keys.now))) (group_keys keys.now)) }
{
    let mut made = vec![in alloc; 0i64; groups.firsts.len()]?;
    for i in 0..keys.len() {
        let group = groups.group_of[i] as usize;
        let Some(count) = made[group].checked_add(1) else {
            return Err(NoMemory);
        };
        made[group] = count;
    }
    Ok(made)
}

/// What a measure works out of the cells of each group, from the first group on; of a count the cells are not looked at.
pub fn measure_groups(
    alloc: Global,
    kind: MeasureKind,
    keys: &[i64],
    groups: &Groups,
    cells: &[i64],
) -> Result<Vec<i64>, NoMemory>
    requires { AreGroupsOf keys.now groups.now }
    ensures { IfOk result (λ made. made.items ≡ map (measured kind keys.now cells.now) (group_keys keys.now)) }
{
    match kind {
        MeasureKind::Sum => fold_groups(alloc, FoldKind::Sum, keys, groups, cells),
        MeasureKind::Min => fold_groups(alloc, FoldKind::Min, keys, groups, cells),
        MeasureKind::Max => fold_groups(alloc, FoldKind::Max, keys, groups, cells),
        MeasureKind::Count => count_groups(alloc, keys, groups),
    }
}
