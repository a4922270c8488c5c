// The queues of messages between ranks, all in one table of nodes.

ghost use Rattle.std.specs.Prelude.{◌≡◌, ◌+◌, ◌≤◌, ◌<◌, ◌^◌, [], length, replicate, IfOk, IfSome, slice_get, slice_set};
ghost use Rattle.hp_links.specs.Chains.{all_unused, before, ends_at, full, letter_at, longer, no_ends, no_message, row_at, shorter, tied, unused, with_ends};
ghost use Rattle.hp_links.specs.Mails.{no_mail, queue_at, with_message, without_front};

use hp_word::place::NoMemory;
use hp_word::sequence::Sequence;
use hp_word::table::Message;
use std::alloc::Global;
use std::marker::Model;

/// A queue: the ranks from which and to which it leads.
#[derive(Clone, Copy, Debug)]
struct Pair {
    sender: u32,
    receiver: u32,
}

/// A node of the table: a message, the queue in which it stands, and the next node. One that is unused stands in no queue.
#[derive(Debug, Drop)]
struct Letter {
    message: Message,
    owner: Option<Pair>,
    next: Option<u32>,
}

/// The first and the last node of a queue, and how many it has.
#[derive(Clone, Copy, Debug)]
struct Ends {
    first: Option<u32>,
    last: Option<u32>,
    count: u32,
}

/// Queues of messages, one from each rank to each rank. Contracts see these lists, and how many more messages there is room
/// for.
#[derive(Debug, Drop)]
pub struct Mailboxes {
    ranks: u32,
    table: Vec<Letter>,
    queues: Vec<Sequence<Ends>>,
    free: Option<u32>,
    spare: u32,
}

impl Model for Mailboxes {
    ghost use Rattle.hp_links.specs.Chains.{IsMail, seen};
    ghost use Rattle.hp_links.specs.Mails.{Mail};

    ghost Value = { Mail };

    ghost view = { λ m. seen m.ranks m.table.items m.queues.items m.spare };

    ghost invariant = { λ m. IsMail m.ranks m.table.items m.queues.items m.free m.spare };
}

/// So many unused nodes.
#[tactic(auto, using(crate::proofs::MailLemmas::unused_more, crate::proofs::MailLemmas::before_more))]
fn unused_letters(alloc: Global, count: u32) -> Result<Vec<Letter>, NoMemory>
    ensures { IfOk result (λ it. it.items ≡ all_unused count) }
{
    let mut table = Vec::with_capacity(alloc, count as usize)?;
    let mut next = None;
    for node in 0..count {
        table.push(Letter {
            message: Message {
                words: Sequence::new(alloc),
            },
            owner: None,
            next,
        })?;
        next = Some(node);
    }
    Ok(table)
}

/// The last of so many nodes.
#[tactic(auto, using(crate::proofs::MailLemmas::before_is))]
fn last_node(count: u32) -> Option<u32>
    ensures { result ≡ before count }
{
    if count == 0 {
        return None;
    }
    Some(count - 1)
}

/// The ends of so many queues without a message.
#[tactic(auto, using(std::proofs::lemmas::List::replicate_more))]
fn empty_row(alloc: Global, ranks: u32) -> Result<Sequence<Ends>, NoMemory>
    ensures { IfOk result (λ it. it ≡ replicate ranks no_ends) }
{
    let mut row = Vec::with_capacity(alloc, ranks as usize)?;
    for _made in 0..ranks {
        row.push(Ends {
            first: None,
            last: None,
            count: 0,
        })?;
    }
    Ok(Sequence::from_vec(row))
}

/// The ends of the queues of all pairs, without a message.
#[tactic(auto, using(std::proofs::lemmas::List::replicate_more))]
fn empty_rows(alloc: Global, ranks: u32) -> Result<Vec<Sequence<Ends>>, NoMemory>
    ensures { IfOk result (λ it. it.items ≡ replicate ranks (replicate ranks no_ends)) }
{
    let mut rows = Vec::with_capacity(alloc, ranks as usize)?;
    for _made in 0..ranks {
        rows.push(empty_row(alloc, ranks)?)?;
    }
    Ok(rows)
}

/// The ends of a queue.
fn ends_of(queues: &Vec<Sequence<Ends>>, sender: u32, receiver: u32) -> Ends
    requires sender { sender < length queues.now.items }
    requires receiver { receiver < length (row_at queues.now.items sender) }
    ensures { result ≡ ends_at queues.now.items sender receiver }
{
    queues[sender as usize].as_slice()[receiver as usize]
}

/// Sets the ends of a queue.
fn set_ends(queues: &mut Vec<Sequence<Ends>>, sender: u32, receiver: u32, ends: Ends)
    requires sender { sender < length queues.old.items }
    requires receiver { receiver < length (row_at queues.old.items sender) }
    ensures { queues.new.items ≡ with_ends sender receiver ends queues.old.items }
{
    queues[sender as usize].set(receiver as usize, ends);
}

/// The ends with one node more behind the last.
fn longer(ends: Ends, next: u32) -> Ends
    requires { ends.count + 1 < 2 ^ 32 }
    ensures { result ≡ longer ends next }
{
    let first = match ends.first {
        None => next,
        Some(first) => first,
    };
    Ends {
        first: Some(first),
        last: Some(next),
        count: ends.count + 1,
    }
}

/// The ends without the first node, whose next one is this.
fn shorter(ends: Ends, next: Option<u32>) -> Ends
    requires { 1 ≤ ends.count }
    ensures { result ≡ shorter ends next }
{
    let last = match next {
        None => None,
        Some(_) => ends.last,
    };
    Ends {
        first: next,
        last,
        count: ends.count - 1,
    }
}

/// Puts a message into an unused node of a queue. Gives the node that was next.
fn fill(table: &mut Vec<Letter>, node: u32, owner: Pair, message: Message) -> Option<u32>
    requires { node < length table.old.items }
    ensures next { result ≡ (letter_at table.old.items node).next }
    ensures table { table.new.items ≡ slice_set table.old.items node (full owner message) }
{
    let next = table[node as usize].next;
    table[node as usize] = Letter {
        message,
        owner: Some(owner),
        next: None,
    };
    next
}

/// The node behind the last one of a queue becomes `next`.
fn tie(table: &mut Vec<Letter>, last: Option<u32>, next: u32)
    requires { IfSome last (λ l. l < length table.old.items) }
    ensures { table.new.items ≡ tied last next table.old.items }
{
    if let Some(node) = last {
        table[node as usize].next = Some(next);
    }
}

/// Takes the message out of a node, which is then unused. Gives the node that was next, too.
fn empty(table: &mut Vec<Letter>, node: u32, free: Option<u32>) -> (Message, Option<u32>)
    requires { node < length table.old.items }
    ensures message { result.0 ≡ (letter_at table.old.items node).message }
    ensures next { result.1 ≡ (letter_at table.old.items node).next }
    ensures table { table.new.items ≡ slice_set table.old.items node (unused free) }
{
    let words = Sequence::new(*table.allocator());
    let letter = std::mem::replace(
        &mut table[node as usize],
        Letter {
            message: Message { words },
            owner: None,
            next: free,
        },
    );
    let Letter {
        message,
        owner: _,
        next,
    } = letter;
    (message, next)
}

impl Mailboxes {
    /// Empty queues between so many ranks, with room for so many messages in all.
    pub fn new(alloc: Global, ranks: u32, messages: u32) -> Result<Mailboxes, NoMemory>
        ensures { IfOk result (λ it. it ≡ no_mail ranks messages) }
    {
        let table = unused_letters(alloc, messages)?;
        let queues = empty_rows(alloc, ranks)?;
        Ok(Mailboxes {
            ranks,
            table,
            queues,
            free: last_node(messages),
            spare: messages,
        })
    }

    /// Puts a message at the end of a queue. There has to be room for one.
    pub fn put(&mut self, sender: u32, receiver: u32, message: Message)
        requires sender { sender < self.old.ranks }
        requires receiver { receiver < self.old.ranks }
        requires room { 1 ≤ self.old.spare }
        ensures { self.new ≡ with_message sender receiver message self.old }
    {
        let Some(node) = self.free else {
            return;
        };
        let old = ends_of(&self.queues, sender, receiver);
        self.free = fill(&mut self.table, node, Pair { sender, receiver }, message);
        tie(&mut self.table, old.last, node);
        set_ends(&mut self.queues, sender, receiver, longer(old, node));
        self.spare -= 1;
    }

    /// Takes the front of a queue; none exactly where it is empty.
    pub fn take(&mut self, sender: u32, receiver: u32) -> Option<Message>
        requires sender { sender < self.old.ranks }
        requires receiver { receiver < self.old.ranks }
        ensures front { result ≡ slice_get (queue_at self.old sender receiver) 0 }
        ensures rest { self.new ≡ without_front (queue_at self.old sender receiver) sender receiver self.old }
    {
        let old = ends_of(&self.queues, sender, receiver);
        let Some(node) = old.first else {
            return None;
        };
        let (message, next) = empty(&mut self.table, node, self.free);
        self.free = Some(node);
        set_ends(&mut self.queues, sender, receiver, shorter(old, next));
        self.spare += 1;
        Some(message)
    }

    /// How many messages stand in a queue.
    pub fn len(&self, sender: u32, receiver: u32) -> u32
        requires sender { sender < self.now.ranks }
        requires receiver { receiver < self.now.ranks }
        ensures { result ≡ length (queue_at self.now sender receiver) }
    {
        ends_of(&self.queues, sender, receiver).count
    }
}
