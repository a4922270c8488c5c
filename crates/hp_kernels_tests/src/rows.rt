// Rows worked out by hand.

use hp_kernels::filters::select;
use hp_kernels::groups::group_rows;
use hp_kernels::joins::join_rows;
use hp_kernels::sorting::sort_rows;
use hp_word::order::RowPlace;
use hp_word::place::NoMemory;
use std::test::*;

#[test]
fn selected(rt: HostRuntime) -> Result<(), NoMemory> {
    let made = select(rt.alloc(), &[1, 0, 1], &[7, 8, 9])?;
    assert!(rt; made.as_slice() == [7, 9].as_slice());
    Ok(())
}

#[test]
fn joined(rt: HostRuntime) -> Result<(), Fail> {
    let Ok(made) = join_rows(rt.alloc(), &[5, i64::MIN, 5], &[7, 5, 5]) else {
        panic!(rt; "no rows were joined");
    };
    assert!(rt; made.len() == 4);
    assert!(rt; made[1] == RowPlace { left: 0, right: 2 });
    Ok(())
}

#[test]
fn grouped(rt: HostRuntime) -> Result<(), NoMemory> {
    let made = group_rows(rt.alloc(), &[5, 7, 5, i64::MIN])?;
    assert!(rt; made.firsts.as_slice() == [0, 1, 3].as_slice());
    assert!(rt; made.group_of.as_slice() == [0, 1, 0, 2].as_slice());
    Ok(())
}

#[test]
fn sorted(rt: HostRuntime) -> Result<(), NoMemory> {
    let mut columns = Vec::new(rt.alloc());
    columns.push(Vec::from_slice(rt.alloc(), &[9, 0, 4, 4])?)?;
    columns.push(Vec::from_slice(rt.alloc(), &[2, 1, 2, 2])?)?;
    let made = sort_rows(rt.alloc(), &columns, 1)?;
    assert!(rt; made.as_slice() == [1, 2, 3, 0].as_slice());
    Ok(())
}
