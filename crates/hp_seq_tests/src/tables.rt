// Tests of tables: whole texts and what they have, the answer of each as one line.

use hp_tables::bad::{TableError, bad_text};
use hp_tables::read::columns;
use hp_word::name::Name;
use hp_word::place::NoMemory;
use hp_word::table::Table;
use std::alloc::Global;
use std::test::*;

// A text with the numbers of a table, its columns apart by `;`.
fn table_text(alloc: Global, table: &Table) -> Result<Vec<u8>, NoMemory> {
    let mut text = Vec::new(alloc);
    for column in table.columns.as_slice() {
        for cell in column.as_slice() {
            let cell = *cell;
            let shown = format!(in alloc; "{cell} ")?;
            text.extend_from_slice(shown.as_bytes())?;
        }
        text.extend_from_slice(b";".as_slice())?;
    }
    Ok(text)
}

// What the columns of these names in a text are, as one line.
fn answer(alloc: Global, text: &[u8], names: &[&[u8]]) -> Result<Vec<u8>, NoMemory> {
    let mut asked = Vec::new(alloc);
    for name in names {
        asked.push(Name::of(alloc, name)?)?;
    }
    match columns(alloc, text, asked.as_slice()) {
        Ok(table) => table_text(alloc, &table),
        Err(TableError::Bad(bad)) => bad_text(alloc, &bad),
        Err(TableError::NoMemory) => Err(NoMemory),
    }
}

// Whether the answer for the names `id` and `amount` is this line.
fn is(rt: &HostRuntime, text: &[u8], line: &[u8]) -> bool {
    match answer(rt.alloc(), text, &[b"id", b"amount"]) {
        Ok(found) => found.as_slice() == line,
        Err(_) => false,
    }
}

#[test]
fn tables(rt: HostRuntime) {
    for (text, line) in [
        (
            b"id,amount\n1,-9223372036854775808\n".as_slice(),
            b"1 ;-9223372036854775808 ;".as_slice(),
        ),
        (b"id,amount\n", b";;"),
        (b"amount,note,id\n10,\"a, b\",1\n", b"1 ;10 ;"),
        (
            b"id,amount\n1,9223372036854775807\n2,-0\n007,0",
            b"1 2 7 ;9223372036854775807 0 0 ;",
        ),
        (b"id,amount\r\n1,2\r\n3,4\r\n", b"1 3 ;2 4 ;"),
        (b"\xef\xbb\xbfid,amount\n1,2\n", b"1 ;2 ;"),
        (b"\"id\",\"amount\"\n\"1\",\"-2\"\n", b"1 ;-2 ;"),
        (b"id,\"a\"\"b\",amount\n1,\"\"\"\",2\n", b"1 ;2 ;"),
        (b"id,amount\n\n1,2\n\n", b"1 ;2 ;"),
        (b"id,amount,id\n1,2,x\n", b"1 ;2 ;"),
        (
            b"id,amount\n00000000000000000000000001,-00009223372036854775808\n",
            b"1 ;-9223372036854775808 ;",
        ),
    ] {
        assert!(rt; is(&rt, text, line));
    }
}

#[test]
fn texts_without_a_table(rt: HostRuntime) {
    for (text, line) in [
        (b"".as_slice(), b"no header".as_slice()),
        (b"\n\n", b"no header"),
        (b"id,cost\n", b"no column amount"),
        (b"Id,cost\n1\n", b"no column id"),
        (b"id,amount\n1,10\n2\n", b"row 2: ragged"),
        (b"id,amount\n1,10,\n", b"row 1: ragged"),
        (b"id,amount\n2,x\n1\n", b"row 1: bad cell in amount"),
        (b"id,amount\n1,10\nx,y,z\n", b"row 2: ragged"),
        (b"amount,id\nx,y\n", b"row 1: bad cell in id"),
    ] {
        assert!(rt; is(&rt, text, line));
    }
}

#[test]
fn cells(rt: HostRuntime) {
    for (text, line) in [
        (
            b"id,amount\n1,10\n2,x\n".as_slice(),
            b"row 2: bad cell in amount".as_slice(),
        ),
        (b"id,amount\n1,10\n2,\n", b"row 2: bad cell in amount"),
        (b"id,amount\n1,\xff\n", b"row 1: bad cell in amount"),
        (b"id,amount\n1,-\n", b"row 1: bad cell in amount"),
        (b"id,amount\n1,--1\n", b"row 1: bad cell in amount"),
        (b"id,amount\n1,+1\n", b"row 1: bad cell in amount"),
        (b"id,amount\n1, 1\n", b"row 1: bad cell in amount"),
        (b"id,amount\n1,1 \n", b"row 1: bad cell in amount"),
        (b"id,amount\n1,1a\n", b"row 1: bad cell in amount"),
        (
            b"id,amount\n1,9223372036854775808\n",
            b"row 1: bad cell in amount",
        ),
        (
            b"id,amount\n1,-9223372036854775809\n",
            b"row 1: bad cell in amount",
        ),
        (
            b"id,amount\n1,10000000000000000000\n",
            b"row 1: bad cell in amount",
        ),
        (
            b"id,amount\n1,18446744073709551616\n",
            b"row 1: bad cell in amount",
        ),
    ] {
        assert!(rt; is(&rt, text, line));
    }
}

// A header and so many rows of one cell, its digit.
fn rows(alloc: Global, count: usize) -> Result<Vec<u8>, NoMemory> {
    let mut text = Vec::new(alloc);
    text.extend_from_slice(b"k\n".as_slice())?;
    for _row in 0..count {
        text.extend_from_slice(b"7\n".as_slice())?;
    }
    Ok(text)
}

#[test]
fn many_rows(rt: HostRuntime) -> Result<(), Fail> {
    let alloc = rt.alloc();
    let mut text = rows(alloc, 1_048_576).ok().ok_or("memory")?;
    let mut names = Vec::new(alloc);
    names.push(Name::of(alloc, b"k").ok().ok_or("memory")?)?;
    let table = columns(alloc, text.as_slice(), names.as_slice())
        .ok()
        .ok_or("a table")?;
    match table.columns.as_slice() {
        [column] => assert_eq!(rt; column.len(), 1_048_576),
        _ => assert!(rt; false),
    }
    text.extend_from_slice(b"x,y".as_slice())?;
    let line = answer(alloc, text.as_slice(), &[b"k"])
        .ok()
        .ok_or("memory")?;
    assert_eq!(rt; line.as_slice(), b"too many rows".as_slice());
    Ok(())
}

// Only the header of the longest text is read, as it lacks the name.
#[test]
fn many_bytes(rt: HostRuntime) -> Result<(), Fail> {
    let alloc = rt.alloc();
    let mut text = vec![in alloc; b'\n'; 67_108_864]?;
    text[0] = b'a';
    let line = answer(alloc, text.as_slice(), &[b"k"])
        .ok()
        .ok_or("memory")?;
    assert_eq!(rt; line.as_slice(), b"no column k".as_slice());
    text.push(b'\n')?;
    let line = answer(alloc, text.as_slice(), &[b"k"])
        .ok()
        .ok_or("memory")?;
    assert_eq!(rt; line.as_slice(), b"too big".as_slice());
    Ok(())
}
