// One action of one rank among the others: its messages go through the queues, and what it writes to the output.

ghost use Rattle.std.specs.Prelude.{◌≡◌, ◌<◌, ◌≤◌, ◌++◌, length, IfOk, OnErr, OnOk};
ghost use Rattle.hp_word.specs.declared.table.Tables.{Tables};
ghost use Rattle.hp_links.specs.Mails.{queue_at, without_front};
ghost use Rattle.hp_network.specs.Rows.{at_most};
ghost use Rattle.hp_rank.specs.Steps.{CanStep, Wrote, receiver_of};
ghost use Rattle.hp_spmd.specs.Act.{act};
ghost use Rattle.hp_turns.specs.Turns.{machine};
ghost use Rattle.hp_machine.specs.Parts.{HasRoom, has_space};
ghost use Rattle.hp_machine.specs.States.{Comes, IsSame, TakesFront};

use hp_links::mailboxes::Mailboxes;
use hp_rank::rank::{Did, Rank};
use hp_spmd::code::Code;
use hp_word::place::{NoMemory, Place, TrapKind};
use hp_word::table::Tables;

/// What came of an action.
#[derive(Clone, Copy, PartialEq, Eq)]
pub enum Deed {
    /// The rank has moved on, and has posted so many words.
    Moved(u64),
    /// It has halted, or has to wait for a message or for room.
    Waited,
    /// The next instruction traps.
    Trapped(Place, TrapKind),
}

/// Whether the queue to which the rank posts next, if it does, takes one more message.
#[tactic(auto, using(crate::proofs::ActLemmas::space_by))]
fn has_space(rank: &Rank, queues: &Mailboxes, code: &Code, number: u32, room: u32) -> bool
    requires able { CanStep rank.now.store }
    requires number { number < queues.now.ranks }
    requires ranks { rank.now.store.ranks ≡ queues.now.ranks }
    ensures { (tables : Tables) → result ≡ has_space (receiver_of (act code.now tables rank.now.store)) (queue_at queues.now number) room }
{
    match rank.post_to(code) {
        Some(to) => queues.len(number, to) < room,
        None => true,
    }
}

/// Hands the rank the front of its queue from a rank, if there is one.
fn take(rank: &mut Rank, queues: &mut Mailboxes, code: &Code, number: u32, from: u32) -> Deed
    requires able { CanStep rank.old.store }
    requires inside { rank.old.store.position < length code.now.list }
    requires number { number < queues.old.ranks }
    requires from { from < queues.old.ranks }
    ensures front { TakesFront (queue_at queues.old from number) code.now result rank.old.store rank.new.store }
    ensures rest { queues.new ≡ without_front (queue_at queues.old from number) from number queues.old }
{
    match queues.take(from, number) {
        None => Deed::Waited,
        Some(message) => {
            rank.give(code, message);
            Deed::Moved(0)
        }
    }
}

/// Adds what the rank writes to the output, and moves it on.
fn write(rank: &mut Rank, out: &mut Vec<u8>, code: &Code, text: &[u8]) -> Result<(), NoMemory>
    requires inside { rank.old.store.position < length code.now.list }
    ensures out { OnOk result (out.new.items ≡ out.old.items ++ text.now) }
    ensures wrote { OnOk result ((tables : Tables) → Wrote (act code.now tables rank.old.store) rank.new.store) }
    ensures rank { OnErr result (rank.new ≡ rank.old) }
    ensures same { OnErr result (out.new.items ≡ out.old.items) }
{
    out.extend_from_slice(text)?;
    rank.wrote(code);
    Ok(())
}

/// Does what a rank does next, but for what is counted. An `Err` changes nothing.
pub fn act(
    rank: &mut Rank,
    queues: &mut Mailboxes,
    out: &mut Vec<u8>,
    code: &Code,
    tables: &Tables,
    number: u32,
    room: u32,
) -> Result<Deed, NoMemory>
    requires able { CanStep rank.old.store }
    requires among { number < queues.old.ranks }
    requires of_all { rank.old.store.ranks ≡ queues.old.ranks }
    requires mail { HasRoom queues.old.ranks room queues.old }
    ensures did { IfOk
        result
        (λ deed. (some : 1 ≤ room)
        → Comes (machine code.now tables.now (at_most room some)) (act code.now tables.now rank.old.store) deed number rank.old.store rank.new.store queues.old queues.new out.old.items out.new.items) }
    ensures mail { HasRoom queues.old.ranks room queues.new }
    ensures err { OnErr result (IsSame rank.old.store rank.new.store queues.old queues.new out.old.items out.new.items) }
{
    if !has_space(rank, queues, code, number, room) {
        return Ok(Deed::Waited);
    }
    match rank.step(code, tables)? {
        Did::Moved => Ok(Deed::Moved(0)),
        Did::Posts(to, message) => {
            let posted = message.words.len() as u64;
            queues.put(number, to, message);
            Ok(Deed::Moved(posted))
        }
        Did::Wants(from) => Ok(take(rank, queues, code, number, from)),
        Did::Writes(text) => {
            write(rank, out, code, text.as_slice())?;
            Ok(Deed::Moved(0))
        }
        Did::Trapped(at, kind) => Ok(Deed::Trapped(at, kind)),
        Did::Halted => Ok(Deed::Waited),
    }
}
