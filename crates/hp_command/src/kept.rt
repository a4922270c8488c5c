// What is kept of a run.

use hp_spmd::code::Code;
use hp_word::table::Tables;

/// What is kept of a run: the program, its tables, and the number of ranks.
#[derive(Drop)]
pub struct Kept {
    pub code: Code,
    pub tables: Tables,
    pub ranks: u32,
}
