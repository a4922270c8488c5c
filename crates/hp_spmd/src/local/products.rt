// What Product does to a store.

ghost use Rattle.std.specs.Prelude.{◌≡◌, ◌+◌, ◌<◌, ◌^◌, [], ◌∷◌, flat_map, map, IfOk, OnErr};
ghost use Rattle.hp_word.specs.MatrixRules.{products_of};
ghost use Rattle.hp_spmd.specs.Matrices.{partial_cells, piece_to, product_data, product_piece};
ghost use Rattle.hp_spmd.specs.MatrixParts.{multiplied, sides_fit};
ghost use Rattle.hp_spmd.specs.Next.{Tells, lifted};
ghost use Rattle.hp_spmd.specs.Setting.{with_all};
ghost use Rattle.hp_spmd.specs.Store.{data_of, piece_at, with_data};

use crate::instr::Target;
use crate::local::Local;
use crate::local::arrays::{cuts_at, rows_at};
use crate::local::check::length_at;
use crate::local::matrices::{fits, own_columns, own_rows};
use crate::local::pieces::whole_piece;
use crate::local::words::put;
use crate::store::{Piece, Store};
use hp_kernels::products::add_products;
use hp_word::place::{NoMemory, Place, TrapKind};
use hp_word::sequence::Sequence;
use std::alloc::Global;

/// The products of rows with each of these columns.
fn products_with_columns(
    alloc: Global,
    rows: &[Sequence<i64>],
    columns: &[&[i64]],
) -> Result<Sequence<i64>, NoMemory>
    ensures { IfOk result (λ made. made ≡ flat_map (products_of rows.now) (map (λ c. c.now) columns.now)) }
{
    let mut made = Vec::new(alloc);
    for column in columns {
        add_products(&mut made, rows, column)?;
    }
    Ok(Sequence::from_vec(made))
}

/// The products of rows with each of these rows.
fn products_with_rows(
    alloc: Global,
    rows: &[Sequence<i64>],
    others: &[Sequence<i64>],
) -> Result<Sequence<i64>, NoMemory>
    ensures { IfOk result (λ made. made ≡ flat_map (products_of rows.now) others.now) }
{
    let mut made = Vec::new(alloc);
    for other in others {
        add_products(&mut made, rows, other.as_slice())?;
    }
    Ok(Sequence::from_vec(made))
}

/// The rank's own columns of the product of two matrices, the first of which is whole on each rank.
fn product_piece(
    alloc: Global,
    arrays: &Sequence<Piece>,
    left: u32,
    right: u32,
) -> Result<Piece, NoMemory>
    ensures { IfOk result (λ piece. piece ≡ product_piece (piece_at arrays.now left) (piece_at arrays.now right)) }
{
    let rows = own_rows(alloc, arrays, left)?;
    let columns = own_columns(alloc, arrays, right)?;
    Ok(Piece {
        rows: rows_at(arrays, left),
        cuts: Sequence::from_slice(alloc, cuts_at(arrays, right))?,
        cells: products_with_columns(alloc, rows.as_slice(), columns.as_slice())?,
    })
}

/// The products of the rows of one matrix with the rows of another, over the rank's own columns of both.
fn partial_cells(
    alloc: Global,
    arrays: &Sequence<Piece>,
    left: u32,
    right: u32,
) -> Result<Sequence<i64>, NoMemory>
    ensures { IfOk result (λ cells. cells ≡ partial_cells (piece_at arrays.now left) (piece_at arrays.now right)) }
{
    let rows = own_rows(alloc, arrays, left)?;
    let others = own_rows(alloc, arrays, right)?;
    products_with_rows(alloc, rows.as_slice(), others.as_slice())
}

/// What Product makes of two matrices.
fn multiplied(
    alloc: Global,
    arrays: &Sequence<Piece>,
    left: u32,
    right: u32,
    flip: bool,
) -> Result<Piece, NoMemory>
    ensures { IfOk result (λ piece. piece ≡ multiplied flip (piece_at arrays.now left) (piece_at arrays.now right)) }
{
    if flip {
        let cells = partial_cells(alloc, arrays, left, right)?;
        return whole_piece(alloc, rows_at(arrays, left), cells);
    }
    product_piece(alloc, arrays, left, right)
}

/// Why two matrices have no product: their sides do not meet, or there are too many cells.
fn refused(arrays: &Sequence<Piece>, left: u32, right: u32, flip: bool) -> Option<TrapKind>
    ensures { result ≡ sides_fit flip (piece_at arrays.now left) (piece_at arrays.now right) }
{
    let length = length_at(arrays, right);
    let (meets, columns) = if flip {
        (length, rows_at(arrays, right))
    } else {
        (rows_at(arrays, right), length)
    };
    if length_at(arrays, left) != meets {
        return Some(TrapKind::Mismatch);
    }
    if !fits(rows_at(arrays, left), columns) {
        return Some(TrapKind::TooLong);
    }
    None
}

/// Puts an item in the place of the one at the first of these positions.
#[tactic(auto, using(crate::proofs::MatrixNext::first_set))]
fn put_first<T: Drop>(list: &mut Sequence<T>, to: &[u32], item: T)
    ensures { list.new ≡ with_all to.now (item ∷ []) list.old }
{
    if let [first, ..] = to {
        put(list, *first, item);
    }
}

/// Puts a piece where it goes, as an array or as a loose column of its cells.
fn put_piece(store: &mut Store, to: &Target, piece: Piece)
    ensures { store.new ≡ with_data (piece_to to.now piece (data_of store.old)) store.old }
{
    match to {
        Target::Whole(arrays) => put_first(&mut store.arrays, arrays.as_slice(), piece),
        Target::Loose(loose) => put_first(&mut store.loose, loose.as_slice(), piece.cells),
    }
}

/// Makes the product of two matrices, or where `flip` of the one with the other transposed; traps at `at`.
#[tactic(auto, using(crate::proofs::MatrixNext::product_made, crate::proofs::MatrixNext::product_trapped))]
pub fn do_product(
    store: &mut Store,
    to: &Target,
    left: u32,
    right: u32,
    flip: bool,
    at: Place,
) -> Result<Local, NoMemory>
    requires { store.old.position + 1 < 2 ^ 32 }
    ensures told { IfOk result (λ l. Tells (lifted (product_data to.now left right flip at (data_of store.old)) store.old) l store.old store.new) }
    ensures err { OnErr result (store.new ≡ store.old) }
    ensures number { store.new.number ≡ store.old.number }
    ensures ranks { store.new.ranks ≡ store.old.ranks }
{
    if let Some(kind) = refused(&store.arrays, left, right, flip) {
        return Ok(Local::Trapped(at, kind));
    }
    let alloc = store.words.alloc();
    let piece = multiplied(alloc, &store.arrays, left, right, flip)?;
    put_piece(store, to, piece);
    store.position += 1;
    Ok(Local::Moved)
}
