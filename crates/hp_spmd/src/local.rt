// What an instruction does to the store of one rank.

pub mod arrays;
pub mod check;
pub mod columns;
pub mod dealing;
pub mod elements;
pub mod exchange;
pub mod fill;
pub mod filters;
pub mod groups;
pub mod joins;
pub mod jump;
pub mod loops;
pub mod matrices;
pub mod moves;
pub mod needs;
pub mod ordered;
pub mod packs;
pub mod pieces;
pub mod places;
pub mod products;
pub mod receipts;
pub mod scalars;
pub mod seals;
pub mod setting;
pub mod sorting;
pub mod sources;
pub mod words;

use crate::code::Code;
use crate::instr::Instr;
use crate::local::arrays::{do_copy, do_scan};
use crate::local::check::do_check;
use crate::local::dealing::{do_range, do_table};
use crate::local::elements::{do_at, do_pick};
use crate::local::exchange::{do_pack, do_unpack};
use crate::local::fill::do_fill;
use crate::local::filters::do_select;
use crate::local::groups::do_group;
use crate::local::joins::do_join;
use crate::local::jump::do_jump;
use crate::local::loops::do_loop;
use crate::local::matrices::{do_row, do_stack};
use crate::local::products::do_product;
use crate::local::scalars::{do_calc, do_const, do_length};
use crate::local::sorting::do_sort;
use crate::store::Store;
use hp_word::place::{NoMemory, Place, TrapKind};
use hp_word::table::Tables;

/// Whether a rank has moved on, or why it can't.
#[derive(Clone, Copy, PartialEq, Eq)]
pub enum Local {
    Moved,
    Trapped(Place, TrapKind),
}

impl Store {
    ghost use Rattle.std.specs.Prelude.{◌≡◌, ◌≤◌, ◌<◌, ◌-◌, ◌^◌, length, IfOk, OnErr};
    ghost use Rattle.hp_spmd.specs.Kinds.{IsLocal, kind_of};
    ghost use Rattle.hp_spmd.specs.Local.{local_next};
    ghost use Rattle.hp_spmd.specs.Next.{Tells};
    ghost use Rattle.hp_spmd.specs.Store.{instr_at};

    /// Does the next instruction, which is a local one: all but Post, Take, Write and Halt; at a trap nothing changes.
    pub fn local(&mut self, code: &Code, tables: &Tables) -> Result<Local, NoMemory>
        requires at { self.old.position < length code.now.list }
        requires local { IsLocal (kind_of (instr_at code.now.list self.old.position)) }
        requires some { 1 ≤ self.old.ranks }
        requires few { self.old.ranks ≤ 32 }
        requires among { self.old.number < self.old.ranks }
        requires executed { self.old.executed < 2 ^ 64 - 1 }
        ensures told { IfOk result (λ l. Tells (local_next code.now.arrays tables.now (instr_at code.now.list self.old.position) self.old) l self.old self.new) }
        ensures err { OnErr result (self.new ≡ self.old) }
        ensures number { self.new.number ≡ self.old.number }
        ensures ranks { self.new.ranks ≡ self.old.ranks }
    {
        let list = code.list.as_slice();
        match &list[self.position as usize] {
            Instr::Const { to, value } => Ok(do_const(self, *to, *value)),
            Instr::Calc {
                to,
                op,
                left,
                right,
                at,
            } => Ok(do_calc(self, *to, *op, *left, *right, *at)),
            Instr::Jump { target, unless } => Ok(do_jump(self, *target, *unless)),
            Instr::Length { to, array } => Ok(do_length(self, *to, *array)),
            Instr::Check { arrays, rule, at } => Ok(do_check(self, arrays, *rule, *at)),
            Instr::Fill {
                to,
                value,
                count,
                at,
            } => do_fill(self, &code.arrays, *to, *value, *count, *at),
            Instr::Range {
                to,
                first,
                last,
                at,
            } => do_range(self, &code.arrays, *to, *first, *last, *at),
            Instr::Table { to, table } => do_table(self, &code.arrays, tables, to, *table),
            Instr::Copy { to, from } => do_copy(self, to, from),
            Instr::Loop(of) => do_loop(self, of),
            Instr::Scan {
                to,
                from,
                start,
                part,
            } => do_scan(self, *to, *from, *start, *part),
            Instr::At {
                to,
                array,
                index,
                at,
            } => Ok(do_at(self, *to, *array, *index, *at)),
            Instr::Pick {
                to,
                array,
                index,
                at,
            } => do_pick(self, *to, *array, *index, *at),
            Instr::Select { to, mask, from } => do_select(self, to, *mask, from),
            Instr::Join(join) => do_join(self, &code.arrays, join),
            Instr::Group {
                to,
                from,
                key,
                measures,
            } => do_group(self, &code.arrays, to, from, *key, measures),
            Instr::Sort { to, from, key } => do_sort(self, to, from, *key),
            Instr::Stack { to, from, flat, at } => do_stack(self, *to, from, *flat, *at),
            Instr::Row {
                to,
                matrix,
                index,
                at,
            } => do_row(self, *to, *matrix, *index, *at),
            Instr::Product {
                to,
                left,
                right,
                flip,
                at,
            } => do_product(self, to, *left, *right, *flip, *at),
            Instr::Pack(what) => do_pack(self, &code.arrays, what),
            Instr::Unpack(what) => do_unpack(self, &code.arrays, what),
            Instr::Halt | Instr::Post { .. } | Instr::Take { .. } | Instr::Write(_) => {
                unreachable!()
            }
        }
    }
}
