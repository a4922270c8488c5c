// The operations of the array IR.

use hp_word::elem::Elem;
use hp_word::fold::FoldKind;
use hp_word::name::Name;
use hp_word::place::Place;
use hp_word::sequence::Sequence;
use hp_word::table::Measure;
use hp_word::word::CalcOp;

/// An operation, and the place of its construct in the script, at which it traps.
#[derive(Debug, Drop)]
pub struct Op {
    pub at: Place,
    pub what: What,
}

/// What an operation does. Arrays are slots, by their numbers; words have numbers of their own.
#[derive(Debug, Drop)]
pub enum What {
    /// A number.
    Const {
        to: u32,
        value: i64,
    },
    /// An operation on two words.
    Calc {
        to: u32,
        op: CalcOp,
        left: u32,
        right: u32,
    },
    /// The length of an array.
    Length {
        to: u32,
        array: u32,
    },
    /// `fill(v, k)`, of two words.
    Fill {
        out: u32,
        value: u32,
        count: u32,
    },
    /// `collect(a:b)`, of two words.
    Range {
        out: u32,
        first: u32,
        last: u32,
    },
    /// `read_csv`: the columns of the table with this number among the script's tables.
    Read {
        outs: Sequence<u32>,
        table: u32,
    },
    /// Copies, one for one.
    Copy {
        outs: Sequence<u32>,
        ins: Sequence<u32>,
    },
    /// A dotted construct or `map`: the element at each place of the first in; `Input` is the cell of an in.
    Map {
        out: u32,
        ins: Sequence<u32>,
        elem: Elem,
    },
    /// The fold of the element at each place of the array, which is the only `Input`.
    Reduce {
        to: u32,
        kind: FoldKind,
        array: u32,
        elem: Elem,
    },
    /// `cumsum(a)`
    Scan {
        out: u32,
        array: u32,
    },
    /// `stencil(p -> e, a)`: the element at each place, in which `Near(0, d)` is `p[d]`, with no greater distance than
    /// `reach`; `balanced` is the copy of the array that it reads.
    Stencil {
        out: u32,
        array: u32,
        balanced: u32,
        reach: u32,
        elem: Elem,
    },
    /// `filter(d, m)`
    Filter {
        outs: Sequence<u32>,
        ins: Sequence<u32>,
        mask: u32,
    },
    /// `join(l, r, :k)`; the keys are positions from 0 in their lists.
    Join {
        outs: Sequence<u32>,
        lefts: Sequence<u32>,
        left_key: u32,
        rights: Sequence<u32>,
        right_key: u32,
    },
    /// `aggregate(d, :k, ..)`; the key and the columns of the measures are positions from 0 in `ins`.
    Group {
        outs: Sequence<u32>,
        ins: Sequence<u32>,
        key: u32,
        measures: Sequence<Measure>,
    },
    /// `vcat(a, b)`
    Concat {
        out: u32,
        left: u32,
        right: u32,
    },
    /// `sort(d, :k)`; the key is a position from 0 in `ins`.
    Sort {
        outs: Sequence<u32>,
        ins: Sequence<u32>,
        key: u32,
    },
    /// `a[i]`, where the index is a word.
    At {
        to: u32,
        array: u32,
        index: u32,
    },
    /// `a[k]`, where the index is an array.
    Pick {
        out: u32,
        array: u32,
        index: u32,
    },
    /// `DataFrame(..)`
    Frame {
        outs: Sequence<u32>,
        ins: Sequence<u32>,
    },
    /// `stack(a, b)`
    Stack {
        out: u32,
        ins: Sequence<u32>,
    },
    /// `row(M, i)`, where the index is a word.
    Row {
        out: u32,
        matrix: u32,
        index: u32,
    },
    /// `A * B`
    Product {
        out: u32,
        left: u32,
        right: u32,
    },
    /// `A * transpose(B)`
    ProductT {
        out: u32,
        left: u32,
        right: u32,
    },
    /// `println` of a word, which is a truth value where the flag says so.
    PrintWord {
        word: u32,
        truth: bool,
    },
    /// `println` of an array, of truth values where the flag says so.
    PrintList {
        array: u32,
        truth: bool,
    },
    /// `write_csv`
    Export {
        arrays: Sequence<u32>,
        names: Sequence<Name>,
    },
}
