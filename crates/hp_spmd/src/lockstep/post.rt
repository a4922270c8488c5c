// How all ranks post their messages and move on.

ghost use Rattle.std.specs.Prelude.{◌≡◌, ◌<◌, ◌^◌, suc, length, map, slice_set, IfOk, OnOk};
ghost use Rattle.std.specs.List.{All};
ghost use Rattle.hp_spmd.specs.Next.{at_place, moved};
ghost use Rattle.hp_spmd.specs.Lockstep.{delivered, delivered_to_root};
ghost use Rattle.hp_spmd.specs.Ranks.{AreNumbered, delivered_to, emptied, posted};
ghost use Rattle.hp_spmd.specs.Store.{message_at, no_message};

use crate::store::Store;
use hp_word::place::NoMemory;
use hp_word::sequence::Sequence;
use hp_word::table::Message;
use std::alloc::Global;

/// Moves a rank to the next instruction.
fn step_on(store: &mut Store)
    requires room { suc store.old.position < 2 ^ 32 }
    ensures { store.new ≡ moved store.old }
{
    store.position += 1;
}

/// Moves each rank to the next instruction.
#[tactic(auto, using(crate::proofs::LockLists::map_one))]
pub fn move_on(stores: &mut [Store])
    requires room { All (λ x. suc x.position < 2 ^ 32) stores.old }
    ensures { stores.new ≡ map moved stores.old }
{
    for i in 0..stores.len() {
        step_on(&mut stores[i]);
    }
}

/// Puts a rank at an instruction.
fn go_to(store: &mut Store, place: u32)
    ensures { store.new ≡ at_place place store.old }
{
    store.position = place;
}

/// Puts each rank at an instruction.
#[tactic(auto, using(crate::proofs::LockLists::map_one))]
pub fn all_go_to(stores: &mut [Store], place: u32)
    ensures { stores.new ≡ map (at_place place) stores.old }
{
    for i in 0..stores.len() {
        go_to(&mut stores[i], place);
    }
}

/// Takes the message at a position of an outbox out of it, and leaves an empty one.
fn take_message(outbox: &mut Sequence<Message>, at: usize) -> Message
    ensures taken { result ≡ message_at outbox.old at }
    ensures left { outbox.new ≡ slice_set outbox.old at no_message }
{
    let empty = Message {
        words: Sequence::new(outbox.alloc()),
    };
    if at < outbox.len() {
        outbox.replace(at, empty)
    } else {
        empty
    }
}

/// Takes a rank's message to the rank `to` out of its outbox.
pub fn take_from(store: &mut Store, to: usize) -> Message
    ensures taken { result ≡ message_at store.old.outbox to }
    ensures left { store.new ≡ emptied to store.old }
{
    take_message(&mut store.outbox, to)
}

/// Takes each rank's message to the rank `to` out of its outbox, in rank order.
#[tactic(auto, using(crate::proofs::LockLists::map_one, crate::proofs::LockLists::collect_one))]
fn collect(alloc: Global, stores: &mut [Store], to: usize) -> Result<Vec<Message>, NoMemory>
    ensures messages { IfOk result (λ it. it.items ≡ map (λ y. message_at y.outbox to) stores.old) }
    ensures emptied { OnOk result (stores.new ≡ map (emptied to) stores.old) }
{
    let mut inbox = Vec::with_capacity(alloc, stores.len())?;
    for i in 0..stores.len() {
        let message = take_from(&mut stores[i], to);
        inbox.push(message)?;
    }
    Ok(inbox)
}

/// Gives the rank `to` its message from each rank.
#[tactic(auto, using(crate::proofs::LockPost::set_delivered))]
fn deliver(alloc: Global, stores: &mut [Store], to: usize) -> Result<(), NoMemory>
    requires inside { to < length stores.old }
    requires numbered { AreNumbered stores.old }
    ensures { OnOk result (stores.new ≡ map (delivered_to to stores.old) stores.old) }
{
    let inbox = collect(alloc, stores, to)?;
    let store = &mut stores[to];
    store.inbox = Sequence::from_vec(inbox);
    Ok(())
}

/// Delivers the first message of each rank to rank 0, and moves all on.
#[tactic(auto, using(crate::proofs::LockPost::moved_root, crate::proofs::LockPost::room_root))]
pub fn post_root(alloc: Global, stores: &mut [Store]) -> Result<(), NoMemory>
    requires some { 0 < length stores.old }
    requires numbered { AreNumbered stores.old }
    requires room { All (λ x. suc x.position < 2 ^ 32) stores.old }
    ensures { OnOk result (stores.new ≡ map (delivered_to_root stores.old) stores.old) }
{
    deliver(alloc, stores, 0)?;
    move_on(stores);
    Ok(())
}

/// Moves a rank to the next instruction, as one that has sent its messages.
fn end_sending(store: &mut Store)
    requires room { suc store.old.position < 2 ^ 32 }
    ensures { store.new ≡ posted store.old }
{
    store.sent = 0;
    store.position += 1;
}

/// Moves each rank to the next instruction, as one that has sent its messages.
#[tactic(auto, using(crate::proofs::LockLists::map_one))]
fn end_posting(stores: &mut [Store])
    requires room { All (λ x. suc x.position < 2 ^ 32) stores.old }
    ensures { stores.new ≡ map posted stores.old }
{
    for i in 0..stores.len() {
        end_sending(&mut stores[i]);
    }
}

/// Delivers each message of each rank, and moves all on.
#[tactic(auto, using(crate::proofs::LockPost::numbered_below, crate::proofs::LockPost::room_below, crate::proofs::LockPost::posted_all, crate::proofs::LockPost::below_more))]
pub fn post(alloc: Global, stores: &mut [Store]) -> Result<(), NoMemory>
    requires numbered { AreNumbered stores.old }
    requires room { All (λ x. suc x.position < 2 ^ 32) stores.old }
    requires outboxes { All (λ x. length x.outbox ≡ length stores.old) stores.old }
    ensures { OnOk result (stores.new ≡ map (delivered stores.old) stores.old) }
{
    for to in 0..stores.len() {
        deliver(alloc, stores, to)?;
    }
    end_posting(stores);
    Ok(())
}
