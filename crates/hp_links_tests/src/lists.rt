// The calls of a board and of mailboxes, each at least once.

use hp_links::board::Board;
use hp_links::mailboxes::Mailboxes;
use hp_word::place::NoMemory;
use hp_word::sequence::Sequence;
use hp_word::table::Message;
use std::alloc::Global;
use std::test::*;

#[test]
fn linked_and_taken_out(rt: HostRuntime) -> Result<(), NoMemory> {
    let mut board = Board::new(rt.alloc(), 5)?;
    assert!(rt; board.first() == None);
    board.link(3);
    board.link(0);
    board.link(4);
    board.unlink(3);
    board.unlink(4);
    board.link(3);
    assert!(rt; board.first() == Some(0));
    board.unlink(0);
    assert!(rt; board.first() == Some(3));
    assert!(rt; board.is_linked(3) && !board.is_linked(0));
    Ok(())
}

fn letter(alloc: Global, word: i64) -> Result<Message, NoMemory> {
    Ok(Message {
        words: Sequence::from_slice(alloc, [word].as_slice())?,
    })
}

fn word_of(letter: Option<Message>) -> Option<i64> {
    let Message { words } = letter?;
    words.get(0).copied()
}

#[test]
fn each_queue_in_its_order(rt: HostRuntime) -> Result<(), NoMemory> {
    let alloc = rt.alloc();
    let mut mail = Mailboxes::new(alloc, 2, 3)?;
    mail.put(0, 1, letter(alloc, 7)?);
    mail.put(1, 1, letter(alloc, 8)?);
    mail.put(0, 1, letter(alloc, 9)?);
    assert!(rt; mail.len(0, 1) == 2);
    assert!(rt; word_of(mail.take(0, 1)) == Some(7));
    assert!(rt; word_of(mail.take(0, 1)) == Some(9));
    assert!(rt; word_of(mail.take(0, 1)) == None);
    assert!(rt; word_of(mail.take(1, 0)) == None);
    mail.put(1, 0, letter(alloc, 5)?);
    assert!(rt; word_of(mail.take(1, 1)) == Some(8));
    assert!(rt; word_of(mail.take(1, 0)) == Some(5));
    Ok(())
}
