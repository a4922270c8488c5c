// The instructions of a program for all ranks.

use hp_word::elem::Elem;
use hp_word::fold::FoldKind;
use hp_word::name::Name;
use hp_word::place::Place;
use hp_word::sequence::Sequence;
use hp_word::table::Measure;
use hp_word::word::CalcOp;

/// One instruction. Words, arrays and loose columns go by their numbers.
#[derive(Drop)]
pub enum Instr {
    /// Sets a word.
    Const {
        to: u32,
        value: i64,
    },
    /// Sets a word to what an operation gives of two words; traps at `at`.
    Calc {
        to: u32,
        op: CalcOp,
        left: u32,
        right: u32,
        at: Place,
    },
    /// Goes to an instruction; where `unless` names a word, only if that word is 0.
    Jump {
        target: u32,
        unless: Option<u32>,
    },
    /// The rank has halted.
    Halt,
    /// Sets a word to the length of an array.
    Length {
        to: u32,
        array: u32,
    },
    /// Looks at the lengths of arrays; where they are not as the rule says, traps at `at`.
    Check {
        arrays: Sequence<u32>,
        rule: CheckRule,
        at: Place,
    },
    /// An array of `count` elements that are all `value`, both words; traps at `at`.
    Fill {
        to: u32,
        value: u32,
        count: u32,
        at: Place,
    },
    /// An array of the whole numbers from the word `first` up to the word `last`; traps at `at`.
    Range {
        to: u32,
        first: u32,
        last: u32,
        at: Place,
    },
    /// The columns of a table, one in each of these arrays.
    Table {
        to: Sequence<u32>,
        table: u32,
    },
    /// Copies arrays, one for one.
    Copy {
        to: Sequence<u32>,
        from: Sequence<u32>,
    },
    /// A loop over the rank's own places of an array.
    Loop(Loop),
    /// An array of the running sums of the rank's own cells, each with the word `start` before it; the word `part` becomes
    /// the sum of the own cells.
    Scan {
        to: u32,
        from: u32,
        start: u32,
        part: u32,
    },
    /// Sets a word to the element of an array at the position that the word `index` says; traps at `at`.
    At {
        to: u32,
        array: u32,
        index: u32,
        at: Place,
    },
    /// An array of the elements of `array` at the positions that the own cells of `index` say, cut as `index`; traps at
    /// `at`.
    Pick {
        to: u32,
        array: u32,
        index: u32,
        at: Place,
    },
    /// The rank's own rows of arrays at which a mask is 1.
    Select {
        to: Target,
        mask: u32,
        from: Sequence<u32>,
    },
    /// The pairs of rows with equal keys.
    Join(Join),
    /// One row for each key, in the order of the keys' first places: the key, then what is measured of its rows. The key is
    /// a position from 0 among the columns.
    Group {
        to: Target,
        from: Rows,
        key: u32,
        measures: Sequence<Measure>,
    },
    /// Arrays of rows that are whole on each rank, sorted by the key, a position from 0 among them, and then by the others.
    Sort {
        to: Sequence<u32>,
        from: Sequence<u32>,
        key: u32,
    },
    /// A matrix of which arrays are the rows, cut as the first; or where `flat` arrays that are whole on each rank, end to
    /// end. `TooLong` at `at`.
    Stack {
        to: u32,
        from: Sequence<u32>,
        flat: bool,
        at: Place,
    },
    /// An array of the row of a matrix at the position that the word `index` says, cut as the matrix; traps at `at`.
    Row {
        to: u32,
        matrix: u32,
        index: u32,
        at: Place,
    },
    /// The product of two matrices, the first of which is whole on each rank; or where `flip` the rank's part of that of the
    /// one with the other transposed. `Mismatch` and `TooLong` at `at`.
    Product {
        to: Target,
        left: u32,
        right: u32,
        flip: bool,
        at: Place,
    },
    /// Makes the messages for each rank.
    Pack(Packing),
    /// Sends the messages, one by one; at `root` the first one alone, to rank 0.
    Post {
        root: bool,
    },
    /// Takes a message from each rank in order; at `root` rank 0 alone does.
    Take {
        root: bool,
    },
    /// Reads the messages that were taken.
    Unpack(Unpacking),
    /// Rank 0 writes an output; the others move on.
    Write(Output),
}

/// What the lengths of arrays must be.
#[derive(Clone, Copy, PartialEq, Eq)]
pub enum CheckRule {
    /// All the same; else `Mismatch`.
    Equal,
    /// Together at most 1,048,576; else `TooLong`.
    Fits,
    /// The first of them above 0; else `Empty`, also where there is no array at all.
    Some,
}

/// For each own place of the leader in order, the lets in order. The outs get the leader's rows and cuts, and the
/// fold words the folds of the own values.
#[derive(Drop)]
pub struct Loop {
    pub leader: u32,
    pub inputs: Sequence<u32>,
    pub halos: Sequence<HaloFrom>,
    pub lets: Sequence<Elem>,
    pub outs: Sequence<Out>,
    pub folds: Sequence<Folding>,
}

/// Where a loop reads the elements round a place.
#[derive(Clone, Copy, PartialEq, Eq)]
pub enum HaloFrom {
    /// A loose column that begins so many places before the rank's own first one.
    Loose(u32, u32),
    /// A replicated array.
    Whole(u32),
}

/// An array that a loop makes of the values of a let.
#[derive(Clone, Copy, PartialEq, Eq)]
pub struct Out {
    pub array: u32,
    pub value: u32,
}

/// A word that a loop makes by a fold of the values of a let.
#[derive(Clone, Copy, PartialEq, Eq)]
pub struct Folding {
    pub word: u32,
    pub kind: FoldKind,
    pub value: u32,
}

/// What is printed.
#[derive(Drop)]
pub enum Output {
    /// A word, which is a truth value where the flag says so.
    Word(u32, bool),
    /// An array, of truth values where the flag says so.
    List(u32, bool),
    /// Arrays of one length as the columns of a table with these names.
    Table(Sequence<u32>, Sequence<Name>),
}

/// What a rank's messages hold.
#[derive(Drop)]
pub enum Packing {
    /// For each rank these words in order.
    Words(Sequence<u32>),
    /// For each rank the length of a loose column.
    Sizes(u32),
    /// For each rank the cells of a loose column.
    Partial(u32),
    /// For each rank those own cells of these arrays, one array after the other, that the rank needs.
    Move(Sequence<u32>, Need),
    /// For each rank the own rows of these arrays whose key, the array at this place of the list, has that rank as its
    /// target: each row's place, from 1, in the whole and then its cells.
    Hash(Sequence<u32>, u32),
    /// For rank 0 the rank's part of an output.
    Gather(Output),
}

/// What is made of the messages from all ranks.
#[derive(Drop)]
pub enum Unpacking {
    /// Each word becomes the fold of the messages' words at its position, in rank order.
    Folds(Sequence<(u32, FoldKind)>),
    /// The word becomes the sum of the first words of the messages from the ranks below this one.
    Below(u32),
    /// Loose columns become these arrays, one for one, which are cut by the sizes that the messages tell; traps at the
    /// place where they are more than an array may have.
    Seal(Sequence<u32>, Sequence<u32>, Place),
    /// The array becomes the sums of the messages, place by place, whole on each rank, with as many rows as another one.
    Total(u32, u32),
    /// Arrays become those that were moved, with the rows of these and with the cuts of what was needed of them.
    Moved(Sequence<u32>, Sequence<u32>, Need),
    /// The loose column becomes the rank's block of a moved array and so many cells more at both ends, 0 outside of it.
    Halo(u32, u32, u32),
    /// The loose column becomes the messages' words, in rank order.
    Into(u32),
    /// The array becomes a loose column with the messages' words behind it, cut into the blocks of the two arrays together.
    Glued(u32, u32, u32, u32),
    /// Loose columns become the rows that the messages hold, in rank order: their places, then their cells.
    Got(Sequence<u32>),
}

/// Where rows, or the cells of a product, go that an instruction makes.
#[derive(Drop)]
pub enum Target {
    /// Arrays that are whole on each rank; of a product that is not flipped one array, with the cuts of the right side.
    Whole(Sequence<u32>),
    /// Loose columns of the rank's own.
    Loose(Sequence<u32>),
}

/// The pairs of rows with equal keys, by left and then by right row: the left columns, then the right ones without the
/// key. A key is a position from 0 among the columns of its side; traps at `at`.
#[derive(Drop)]
pub struct Join {
    pub to: Target,
    pub left: Rows,
    pub left_key: u32,
    pub right: Rows,
    pub right_key: u32,
    pub at: Place,
}

/// The rows that a join or aggregate reads, with the place of each, from 1, in the whole.
#[derive(Drop)]
pub enum Rows {
    /// The rank's own rows of arrays.
    Own(Sequence<u32>),
    /// Rows in loose columns, of which the first one holds their places.
    Got(Sequence<u32>),
}

/// The places of an array that a rank needs from the others.
#[derive(Clone, Copy, PartialEq, Eq)]
pub enum Need {
    /// Those that the rank has of another array.
    Like(u32),
    /// The rank's block.
    Blocks,
    /// The rank's block and so many places at both ends of it, as far as there are; none where the block is empty.
    Wide(u32),
    /// All.
    Whole,
    /// Those that the rank's block has of this array, with another one behind it.
    First(u32),
    /// Those that the rank's block has of this array, with another one before it.
    Second(u32),
}
