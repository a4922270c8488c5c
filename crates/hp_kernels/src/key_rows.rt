// The rows of each key of a column, linked: the first is found by a hash of the key, and each names the next.

ghost use Rattle.std.specs.Prelude.{◌≡◌, ◌<◌, None, length, slice_index_or, IfOk, OnOk};
ghost use Rattle.std.specs.Ordering.{int_eq};
ghost use Rattle.indexmap.specs.IndexMap.{get};
ghost use Rattle.hp_kernels.specs.KeyRows.{HasRowsOf, AddsRow};

use hp_word::place::NoMemory;
use indexmap::IndexMap;
use std::alloc::Global;

/// For each key of a column its first row, and for each row the next that has the same key.
#[derive(Drop)]
pub struct KeyRows {
    first: IndexMap<i64, u64>,
    next: Vec<Option<u64>>,
}

impl KeyRows {
    /// The rows of each key of a column. They are linked from the last to the first, so that each key is looked up once.
    pub fn of(alloc: Global, column: &[i64]) -> Result<KeyRows, NoMemory>
        ensures { IfOk result (HasRowsOf column.now) }
    {
        let first = IndexMap::with_capacity(alloc, column.len())?;
        let next = vec![in alloc; None; column.len()]?;
        let mut made = KeyRows { first, next };
        let mut from = column.len();
        while from > 0 {
            from -= 1;
            made.add(column[from], from)?;
        }
        Ok(made)
    }

    /// Adds a row before those of its key.
    fn add(&mut self, key: i64, row: usize) -> Result<(), NoMemory>
        requires { row < length self.old.next.items }
        ensures { OnOk result (AddsRow key row self.old self.new) }
    {
        self.next[row] = self.first.insert(key, row as u64)?;
        Ok(())
    }

    /// The first row of a key; none where the column has no such key.
    pub fn first(&self, key: i64) -> Option<u64>
        ensures { result ≡ get int_eq self.now.first key }
    {
        self.first.get(&key).copied()
    }

    /// The next row that has the key of this one; none where it is the last.
    pub fn next(&self, row: u64) -> Option<u64>
        requires { row < length self.now.next.items }
        ensures { result ≡ slice_index_or self.now.next.items row None }
    {
        self.next[row as usize]
    }
}
