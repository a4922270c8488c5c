// What single instructions do, on numbers worked out by hand.

ghost use Rattle.std.specs.Prelude.{◌≡◌, ◌≤◌, ◌<◌, ◌∷◌, [], length, IsTrue, IfOk};
ghost use Rattle.hp_spmd.specs.Kinds.{IsLocal, kind_of};
ghost use Rattle.hp_spmd.specs.Store.{instr_at};
ghost use Rattle.hp_spmd.specs.declared.instr.Instr.TheVariants as instr;
ghost use Rattle.hp_spmd.specs.Names.{instr_within, target_within};

use hp_lattice::dist::Dist;
use hp_spmd::code::Code;
use hp_spmd::instr::{CheckRule, Folding, Instr, Loop, Out, Output, Packing, Unpacking};
use hp_spmd::local::Local;
use hp_spmd::local::check::do_check;
use hp_spmd::local::exchange::{do_pack, do_unpack};
use hp_spmd::local::fill::do_fill;
use hp_spmd::local::loops::do_loop;
use hp_spmd::store::{Piece, Store};
use hp_word::elem::Elem;
use hp_word::fold::FoldKind;
use hp_word::order::Orders;
use hp_word::place::{NoMemory, Place, TrapKind};
use hp_word::sequence::Sequence;
use hp_word::table::{Message, Tables};
use hp_word::word::CalcOp;
use sqlite_items::Boxed;
use std::alloc::Global;
use std::test::Fail;

const AT: Place = Place { line: 3, col: 5 };

// A store with these words and arrays of these cells, at the first instruction.
fn store_of(
    alloc: Global,
    number: u32,
    ranks: u32,
    words: &[i64],
    arrays: Vec<Piece>,
) -> Result<Store, NoMemory>
    ensures position { IfOk result (λ x. x.position ≡ 0) }
    ensures number { IfOk result (λ x. x.number ≡ number) }
    ensures ranks { IfOk result (λ x. x.ranks ≡ ranks) }
{
    Ok(Store {
        number,
        ranks,
        position: 0,
        words: Sequence::from_slice(alloc, words)?,
        arrays: Sequence::from_vec(arrays),
        loose: Sequence::new(alloc),
        outbox: Sequence::new(alloc),
        inbox: Sequence::new(alloc),
        sent: 3,
        got: 3,
        executed: 0,
        log: Orders {
            list: Sequence::new(alloc),
        },
    })
}

// A piece of one row.
fn piece_of(alloc: Global, cuts: &[u64], cells: &[i64]) -> Result<Piece, NoMemory> {
    Ok(Piece {
        rows: 1,
        cuts: Sequence::from_slice(alloc, cuts)?,
        cells: Sequence::from_slice(alloc, cells)?,
    })
}

// Whether a rank has stayed where it was with this trap, or moved on where none is wanted.
fn is_left(local: Local, store: &Store, want: Option<TrapKind>) -> bool {
    match want {
        Some(kind) => local == Local::Trapped(AT, kind) && store.position == 0,
        None => local == Local::Moved && store.position == 1,
    }
}

// Whether a store has so many arrays, of which the last one has these cuts and cells.
fn ends_in(store: &Store, count: usize, cuts: &[u64], cells: &[i64]) -> bool {
    let pieces = store.arrays.as_slice();
    let Some(piece) = pieces.last() else {
        return false;
    };
    pieces.len() == count && piece.cuts.as_slice() == cuts && piece.cells.as_slice() == cells
}

// Below, a function that owns a store makes one call over it and returns what that says; the others borrow it. So there
// is one path on which a store is dropped, field by field, and the proof stays short.

// Rank 1 of 4, whose words are 7 and a count, with an array of no elements.
fn fill_store(alloc: Global, count: i64) -> Result<Store, NoMemory>
    ensures position { IfOk result (λ x. x.position ≡ 0) }
    ensures number { IfOk result (λ x. x.number ≡ 1) }
    ensures ranks { IfOk result (λ x. x.ranks ≡ 4) }
{
    let arrays = vec![in alloc; piece_of(alloc, &[0], &[])?]?;
    store_of(alloc, 1, 4, &[7, count], arrays)
}

// Whether filling the array, in blocks, with the word 7 traps so, or moves on where no trap is wanted.
fn fill_is_left(store: &mut Store, want: Option<TrapKind>) -> Result<bool, NoMemory>
    requires position { store.old.position ≡ 0 }
    requires number { store.old.number ≡ 1 }
    requires ranks { store.old.ranks ≡ 4 }
{
    let dists = Sequence::from_slice(store.words.alloc(), &[Dist::Block])?;
    let local = do_fill(store, &dists, 0, 0, 1, AT)?;
    Ok(is_left(local, store, want))
}

// Whether rank 1 gets the fourth to sixth of ten elements.
fn gets_its_block(store: &mut Store) -> Result<bool, NoMemory>
    requires position { store.old.position ≡ 0 }
    requires number { store.old.number ≡ 1 }
    requires ranks { store.old.ranks ≡ 4 }
{
    let is_filled = fill_is_left(store, None)?;
    Ok(is_filled && ends_in(store, 1, &[0, 3, 6, 8, 10], &[7, 7, 7]))
}

// Whether filling ten elements gives rank 1 its block.
fn fills_a_block(alloc: Global) -> Result<bool, NoMemory> {
    let mut store = fill_store(alloc, 10)?;
    gets_its_block(&mut store)
}

#[test]
fn fill_gives_a_block(rt: HostRuntime) -> Result<(), Fail> {
    assert!(rt; fills_a_block(rt.alloc())?);
    Ok(())
}

// Whether filling so many elements traps so, or moves on where no trap is wanted.
fn fills(alloc: Global, count: i64, want: Option<TrapKind>) -> Result<bool, NoMemory> {
    let mut store = fill_store(alloc, count)?;
    fill_is_left(&mut store, want)
}

#[test]
fn fill_traps_at_a_bad_length(rt: HostRuntime) -> Result<(), Fail> {
    for (count, want) in [
        (-1, Some(TrapKind::BadLength)),
        (1048576, None),
        (1048577, Some(TrapKind::TooLong)),
    ] {
        assert!(rt; fills(rt.alloc(), count, want)?, "of {count} elements");
    }
    Ok(())
}

// The only rank, with two arrays of these lengths.
fn check_store(alloc: Global, first: u64, second: u64) -> Result<Store, NoMemory>
    ensures { IfOk result (λ x. x.position ≡ 0) }
{
    let first = piece_of(alloc, &[0, first], &[])?;
    let second = piece_of(alloc, &[0, second], &[])?;
    store_of(alloc, 0, 1, &[], vec![in alloc; first, second]?)
}

// Whether a check of both arrays traps so, or moves on where no trap is wanted.
fn check_is_left(
    store: &mut Store,
    rule: CheckRule,
    want: Option<TrapKind>,
) -> Result<bool, NoMemory>
    requires { store.old.position ≡ 0 }
{
    let both = Sequence::from_slice(store.words.alloc(), &[0, 1])?;
    let local = do_check(store, &both, rule, AT);
    Ok(is_left(local, store, want))
}

// Whether a check of arrays of these lengths traps so, or moves on where no trap is wanted.
fn checks(
    alloc: Global,
    rule: CheckRule,
    (first, second): (u64, u64),
    want: Option<TrapKind>,
) -> Result<bool, NoMemory> {
    let mut store = check_store(alloc, first, second)?;
    check_is_left(&mut store, rule, want)
}

#[test]
fn check_looks_at_the_lengths(rt: HostRuntime) -> Result<(), Fail> {
    for (rule, lengths, want) in [
        (CheckRule::Equal, (3, 4), Some(TrapKind::Mismatch)),
        (CheckRule::Equal, (4, 4), None),
        (CheckRule::Fits, (1048576, 1), Some(TrapKind::TooLong)),
        (CheckRule::Fits, (1048575, 1), None),
        (CheckRule::Some, (0, 1), Some(TrapKind::Empty)),
        (CheckRule::Some, (1, 0), None),
    ] {
        assert!(rt; checks(rt.alloc(), rule, lengths, want)?);
    }
    Ok(())
}

// A loop over array 0 with these lets, of which the last one makes array 1 and the first one the fold of word 1.
fn loop_of(alloc: Global, lets: Vec<Elem>, kind: FoldKind) -> Result<Loop, NoMemory> {
    let last = if lets.len() == 2 { 1 } else { 0 };
    let out = Out {
        array: 1,
        value: last,
    };
    let folding = Folding {
        word: 1,
        kind,
        value: 0,
    };
    Ok(Loop {
        leader: 0,
        inputs: Sequence::from_slice(alloc, &[0])?,
        halos: Sequence::new(alloc),
        lets: Sequence::from_vec(lets),
        outs: Sequence::from_slice(alloc, &[out])?,
        folds: Sequence::from_slice(alloc, &[folding])?,
    })
}

// An operation on two elements.
fn calc_of(alloc: Global, op: CalcOp, a: Elem, b: Elem) -> Result<Elem, NoMemory> {
    Ok(Elem::Calc(op, AT, Boxed::new(alloc, a)?, Boxed::new(alloc, b)?))
}

// Rank 0 of 2, whose piece of array 0 has these cells, with an empty array 1.
fn loop_store(alloc: Global, cuts: &[u64], cells: &[i64]) -> Result<Store, NoMemory>
    ensures { IfOk result (λ x. x.position ≡ 0) }
{
    let whole = piece_of(alloc, cuts, cells)?;
    let empty = piece_of(alloc, &[], &[])?;
    store_of(alloc, 0, 2, &[100, 200], vec![in alloc; whole, empty]?)
}

// Whether a loop traps so, or moves on where no trap is wanted, and leaves these words.
fn loop_is_left(
    store: &mut Store,
    of: &Loop,
    want: Option<TrapKind>,
    words: &[i64],
) -> Result<bool, NoMemory>
    requires { store.old.position ≡ 0 }
{
    let local = do_loop(store, of)?;
    Ok(is_left(local, store, want) && store.words.as_slice() == words)
}

// The sum of the elements, and the column of each of them and the word 0.
fn sum_and_column(alloc: Global) -> Result<Loop, NoMemory> {
    let more = calc_of(alloc, CalcOp::Add, Elem::Earlier(0), Elem::Word(0))?;
    loop_of(alloc, vec![in alloc; Elem::Input(0), more]?, FoldKind::Sum)
}

// Whether a loop sums the elements 5, 6 and 7, and adds 100 to each.
fn sums_and_adds(store: &mut Store, of: &Loop) -> Result<bool, NoMemory>
    requires { store.old.position ≡ 0 }
{
    let is_summed = loop_is_left(store, of, None, &[100, 18])?;
    Ok(is_summed && ends_in(store, 2, &[0, 3, 5], &[105, 106, 107]))
}

// Whether a loop over the elements 5, 6 and 7 gives their sum and column.
fn makes_a_column(alloc: Global, of: &Loop) -> Result<bool, NoMemory> {
    let mut store = loop_store(alloc, &[0, 3, 5], &[5, 6, 7])?;
    sums_and_adds(&mut store, of)
}

// Whether the loop that sums and adds gives both.
fn sums_into_a_column(alloc: Global) -> Result<bool, NoMemory> {
    makes_a_column(alloc, &sum_and_column(alloc)?)
}

#[test]
fn loop_folds_and_makes_a_column(rt: HostRuntime) -> Result<(), Fail> {
    assert!(rt; sums_into_a_column(rt.alloc())?);
    Ok(())
}

// Whether a loop over no elements leaves this word.
fn folds_nothing(alloc: Global, of: &Loop, want: i64) -> Result<bool, NoMemory> {
    let mut store = loop_store(alloc, &[0, 0, 5], &[])?;
    loop_is_left(&mut store, of, None, &[100, want])
}

// Whether the fold of no elements is this number.
fn folds_nothing_to(alloc: Global, kind: FoldKind, want: i64) -> Result<bool, NoMemory> {
    let of = loop_of(alloc, vec![in alloc; Elem::Input(0)]?, kind)?;
    folds_nothing(alloc, &of, want)
}

#[test]
fn loop_over_nothing_gives_the_folds_of_nothing(rt: HostRuntime) -> Result<(), Fail> {
    for (kind, want) in [
        (FoldKind::Sum, 0),
        (FoldKind::Prod, 1),
        (FoldKind::Min, i64::MAX),
        (FoldKind::Any, 0),
        (FoldKind::All, 1),
    ] {
        assert!(rt; folds_nothing_to(rt.alloc(), kind, want)?, "{kind:?}");
    }
    Ok(())
}

// The sum of the parts of 12 by the elements.
fn sum_of_parts(alloc: Global) -> Result<Loop, NoMemory> {
    let part = calc_of(alloc, CalcOp::Div, Elem::Number(12), Elem::Input(0))?;
    loop_of(alloc, vec![in alloc; part]?, FoldKind::Sum)
}

// Whether a loop over the elements 4, 0 and 3 traps, and the words are as before.
fn traps_at_zero(alloc: Global, of: &Loop) -> Result<bool, NoMemory> {
    let mut store = loop_store(alloc, &[0, 3, 5], &[4, 0, 3])?;
    loop_is_left(&mut store, of, Some(TrapKind::Divide), &[100, 200])
}

// Whether the loop that divides traps.
fn dividing_traps(alloc: Global) -> Result<bool, NoMemory> {
    traps_at_zero(alloc, &sum_of_parts(alloc)?)
}

#[test]
fn loop_traps_and_changes_nothing(rt: HostRuntime) -> Result<(), Fail> {
    assert!(rt; dividing_traps(rt.alloc())?);
    Ok(())
}

// One of so many ranks, whose words are 4, 5 and 6.
fn word_store(alloc: Global, number: u32, ranks: u32) -> Result<Store, NoMemory>
    ensures position { IfOk result (λ x. x.position ≡ 0) }
    ensures number { IfOk result (λ x. x.number ≡ number) }
    ensures ranks { IfOk result (λ x. x.ranks ≡ ranks) }
{
    store_of(alloc, number, ranks, &[4, 5, 6], Vec::new(alloc))
}

// Whether a message has these words.
fn has_words(message: Option<&Message>, words: &[i64]) -> bool {
    match message {
        Some(message) => message.words.as_slice() == words,
        None => false,
    }
}

// Whether the words 2 and 0 are packed for each of two ranks, and none is sent or got.
fn words_are_packed(store: &mut Store) -> Result<bool, NoMemory>
    requires position { store.old.position ≡ 0 }
    requires number { store.old.number ≡ 0 }
    requires ranks { store.old.ranks ≡ 2 }
{
    let words = Packing::Words(Sequence::from_slice(store.words.alloc(), &[2, 0])?);
    let dists = Sequence::new(store.words.alloc());
    let local = do_pack(store, &dists, &words)?;
    let is_new = is_left(local, store, None) && store.sent == 0 && store.got == 0;
    Ok(is_new && store.outbox.len() == 2 && has_words(store.outbox.get(1), &[6, 4]))
}

// Whether rank 0 of 2 packs its words.
fn packs_words(alloc: Global) -> Result<bool, NoMemory> {
    let mut store = word_store(alloc, 0, 2)?;
    words_are_packed(&mut store)
}

// The messages of two ranks.
fn two_messages(alloc: Global) -> Result<Sequence<Message>, NoMemory> {
    let mut inbox = Sequence::new(alloc);
    for words in [[6i64, 4], [10, 20]] {
        inbox.push(Message {
            words: Sequence::from_slice(alloc, &words)?,
        })?;
    }
    Ok(inbox)
}

// Whether word 1 becomes the sum of the first words, and word 0 the greatest of the second ones.
fn words_are_folded(store: &mut Store) -> Result<bool, NoMemory>
    requires position { store.old.position ≡ 0 }
    requires number { store.old.number ≡ 0 }
    requires ranks { store.old.ranks ≡ 2 }
{
    let alloc = store.words.alloc();
    store.inbox = two_messages(alloc)?;
    let folds = Sequence::from_slice(alloc, &[(1, FoldKind::Sum), (0, FoldKind::Max)])?;
    let dists = Sequence::new(alloc);
    let local = do_unpack(store, &dists, &Unpacking::Folds(folds))?;
    Ok(is_left(local, store, None) && store.words.as_slice() == [20, 16, 6].as_slice())
}

// Whether rank 0 of 2 folds the messages.
fn folds_messages(alloc: Global) -> Result<bool, NoMemory> {
    let mut store = word_store(alloc, 0, 2)?;
    words_are_folded(&mut store)
}

#[test]
fn words_are_packed_and_summed(rt: HostRuntime) -> Result<(), Fail> {
    assert!(rt; packs_words(rt.alloc())?);
    assert!(rt; folds_messages(rt.alloc())?);
    Ok(())
}

// Whether the output of a word makes three messages, the first one of so many words.
fn output_is_packed(store: &mut Store, want: usize) -> Result<bool, NoMemory>
    requires position { store.old.position ≡ 0 }
    requires number { store.old.number < 3 }
    requires ranks { store.old.ranks ≡ 3 }
{
    let dists = Sequence::new(store.words.alloc());
    let local = do_pack(store, &dists, &Packing::Gather(Output::Word(0, false)))?;
    let Some(first) = store.outbox.get(0) else {
        return Ok(false);
    };
    let is_long = first.words.len() == want;
    Ok(is_left(local, store, None) && store.outbox.len() == 3 && is_long)
}

// Whether this one of three ranks packs so many words of an output.
fn packs_an_output(alloc: Global, number: u32, want: usize) -> Result<bool, NoMemory>
    requires { number < 3 }
{
    let mut store = word_store(alloc, number, 3)?;
    output_is_packed(&mut store, want)
}

#[test]
fn an_output_is_packed_on_rank_0_alone(rt: HostRuntime) -> Result<(), Fail> {
    for (number, want) in [(0, 1), (1, 0)] {
        assert!(rt;
            packs_an_output(rt.alloc(), number, want)?,
            "on rank {number}"
        );
    }
    Ok(())
}

// A code of one instruction and Halt, with three words and one array in blocks.
fn code_of(alloc: Global, first: Instr) -> Result<Code, NoMemory>
    requires names { IsTrue (instr_within 3 1 0 first) }
    requires target { IsTrue (target_within 2 (kind_of first)) }
    ensures { IfOk result (λ code. code.list ≡ first ∷ instr.Halt ∷ []) }
{
    let mut list = Sequence::new(alloc);
    list.push(first)?;
    list.push(Instr::Halt)?;
    let mut arrays = Sequence::new(alloc);
    arrays.push(Dist::Block)?;
    Ok(Code {
        list,
        words: 3,
        arrays,
        loose: 0,
    })
}

// A code that fills its array.
fn fill_code(alloc: Global) -> Result<Code, NoMemory>
    ensures some { IfOk result (λ code. 0 < length code.list) }
    ensures local { IfOk result (λ code. IsLocal (kind_of (instr_at code.list 0))) }
{
    code_of(
        alloc,
        Instr::Fill {
            to: 0,
            value: 1,
            count: 2,
            at: AT,
        },
    )
}

// The first store of rank 1 of 4.
#[tactic(auto, unfolding(hp_spmd::specs::Store::first_store))]
fn first_of(alloc: Global, code: &Code) -> Result<Store, NoMemory>
    ensures position { IfOk result (λ x. x.position ≡ 0) }
    ensures number { IfOk result (λ x. x.number ≡ 1) }
    ensures ranks { IfOk result (λ x. x.ranks ≡ 4) }
    ensures executed { IfOk result (λ x. x.executed ≡ 0) }
{
    Store::new(alloc, code, 1, 4)
}

// Whether a store has three words of 0 and four messages, and the code's first instruction moves on.
fn first_moves_on(store: &mut Store, code: &Code) -> Result<bool, NoMemory>
    requires position { store.old.position ≡ 0 }
    requires number { store.old.number ≡ 1 }
    requires ranks { store.old.ranks ≡ 4 }
    requires executed { store.old.executed ≡ 0 }
    requires some { 0 < length code.now.list }
    requires local { IsLocal (kind_of (instr_at code.now.list 0)) }
{
    let is_first = store.words.as_slice() == [0, 0, 0].as_slice() && store.outbox.len() == 4;
    let tables = Tables {
        list: Sequence::new(store.words.alloc()),
    };
    let local = store.local(code, &tables)?;
    Ok(is_first && is_left(local, store, None))
}

// Whether the first store does the first instruction of a code.
fn does_the_first(alloc: Global, code: &Code) -> Result<bool, NoMemory>
    requires some { 0 < length code.now.list }
    requires local { IsLocal (kind_of (instr_at code.now.list 0)) }
{
    let mut store = first_of(alloc, code)?;
    first_moves_on(&mut store, code)
}

#[test]
fn first_store_does_an_instruction(rt: HostRuntime) -> Result<(), Fail> {
    let code = fill_code(rt.alloc())?;
    assert!(rt; does_the_first(rt.alloc(), &code)?);
    Ok(())
}
