// A rank's actions, each exactly what the rank does next.

ghost use Rattle.std.specs.Prelude.{◌≡◌, ◌+◌, ◌≤◌, ◌<◌, ◌^◌, length, IfOk, OnErr};
ghost use Rattle.hp_word.specs.declared.table.Message.{Message};
ghost use Rattle.hp_word.specs.declared.table.Tables.{Tables};
ghost use Rattle.hp_spmd.specs.Act.{act, act_by, after_post, after_take};
ghost use Rattle.hp_spmd.specs.Kinds.{IsLocal, Posts, PostsRoot, Takes, TakesRoot, Writes, kind_of};
ghost use Rattle.hp_spmd.specs.Local.{local_next};
ghost use Rattle.hp_spmd.specs.Next.{Next, moved};
ghost use Rattle.hp_spmd.specs.Store.{first_store, instr_at, message_at, no_message};
ghost use Rattle.hp_rank.specs.Steps.{CanStep, Does, Gave, Wrote, receiver_by, receiver_of};

use hp_spmd::code::Code;
use hp_spmd::instr::{Instr, Output};
use hp_spmd::local::Local;
use hp_spmd::lockstep::output::text;
use hp_spmd::lockstep::post::take_from;
use hp_spmd::store::Store;
use hp_word::place::{NoMemory, Place, TrapKind};
use hp_word::table::{Message, Tables};
use std::alloc::Global;

/// One rank of a code.
#[derive(Drop)]
pub struct Rank {
    pub store: Store,
}

/// What a step did, or what it waits for.
#[derive(Drop)]
pub enum Did {
    /// The rank has moved on alone.
    Moved,
    /// The rank has moved on, and this message goes to a rank.
    Posts(u32, Message),
    /// The next action takes a message from a rank, which `give` hands over.
    Wants(u32),
    /// The next instruction traps.
    Trapped(Place, TrapKind),
    /// There is no next action.
    Halted,
    /// The next action writes these bytes; `wrote` says that they are written.
    Writes(Vec<u8>),
}

/// Does the next instruction, one that a rank does alone.
#[tactic(auto, using(crate::proofs::RankLemmas::local_does))]
fn compute(store: &mut Store, code: &Code, tables: &Tables, instr: &Instr) -> Result<Did, NoMemory>
    requires able { CanStep store.old }
    requires inside { store.old.position < length code.now.list }
    requires here { instr.now ≡ instr_at code.now.list store.old.position }
    requires local { IsLocal (kind_of instr.now) }
    ensures did { IfOk result (λ did. Does (act_by (kind_of instr.now) (local_next code.now.arrays tables.now instr.now store.old) store.old) did store.old store.new) }
    ensures err { OnErr result (store.new ≡ store.old) }
{
    match store.local(code, tables)? {
        Local::Moved => Ok(Did::Moved),
        Local::Trapped(at, kind) => Ok(Did::Trapped(at, kind)),
    }
}

/// Moves the rank to the next instruction.
fn move_on(store: &mut Store)
    requires room { store.old.position + 1 < 2 ^ 32 }
    ensures { store.new ≡ moved store.old }
{
    store.position += 1;
}

/// Posts the message to the rank that comes next.
fn post(store: &mut Store) -> Did
    requires able { CanStep store.old }
    requires room { store.old.position + 1 < 2 ^ 32 }
    ensures { (next : Next) → Does (act_by Posts next store.old) result store.old store.new }
{
    let to = store.sent;
    let message = take_from(store, to as usize);
    store.sent += 1;
    if store.sent == store.ranks {
        store.sent = 0;
        store.position += 1;
    }
    Did::Posts(to, message)
}

/// Posts the message to rank 0.
fn post_root(store: &mut Store) -> Did
    requires able { CanStep store.old }
    requires room { store.old.position + 1 < 2 ^ 32 }
    ensures { (next : Next) → Does (act_by PostsRoot next store.old) result store.old store.new }
{
    let message = take_from(store, 0);
    store.position += 1;
    Did::Posts(0, message)
}

/// Waits for the message of the rank that comes next.
fn want(store: &mut Store) -> Did
    ensures { (next : Next) → Does (act_by Takes next store.old) result store.old store.new }
{
    Did::Wants(store.got)
}

/// Rank 0 waits for the message of the rank that comes next; the others move on.
fn want_at_root(store: &mut Store) -> Did
    requires room { store.old.position + 1 < 2 ^ 32 }
    ensures { (next : Next) → Does (act_by TakesRoot next store.old) result store.old store.new }
{
    if store.number == 0 {
        return Did::Wants(store.got);
    }
    store.position += 1;
    Did::Moved
}

/// Rank 0 has an output to write; the others move on.
fn write(store: &mut Store, output: &Output) -> Result<Did, NoMemory>
    requires room { store.old.position + 1 < 2 ^ 32 }
    ensures did { IfOk result (λ did. (next : Next) → Does (act_by (Writes output.now) next store.old) did store.old store.new) }
    ensures err { OnErr result (store.new ≡ store.old) }
{
    if store.number > 0 {
        store.position += 1;
        return Ok(Did::Moved);
    }
    let text = text(store.inbox.alloc(), output, store)?;
    Ok(Did::Writes(text))
}

/// Does the next action, by this instruction.
fn do_next(store: &mut Store, code: &Code, tables: &Tables, instr: &Instr) -> Result<Did, NoMemory>
    requires able { CanStep store.old }
    requires inside { store.old.position < length code.now.list }
    requires here { instr.now ≡ instr_at code.now.list store.old.position }
    requires room { store.old.position + 1 < 2 ^ 32 }
    ensures did { IfOk result (λ did. Does (act_by (kind_of instr.now) (local_next code.now.arrays tables.now instr.now store.old) store.old) did store.old store.new) }
    ensures err { OnErr result (store.new ≡ store.old) }
{
    match instr {
        Instr::Const { .. }
        | Instr::Calc { .. }
        | Instr::Jump { .. }
        | Instr::Length { .. }
        | Instr::Check { .. }
        | Instr::Fill { .. }
        | Instr::Range { .. }
        | Instr::Table { .. }
        | Instr::Copy { .. }
        | Instr::Loop(_)
        | Instr::Scan { .. }
        | Instr::At { .. }
        | Instr::Pick { .. }
        | Instr::Select { .. }
        | Instr::Join(_)
        | Instr::Group { .. }
        | Instr::Sort { .. }
        | Instr::Stack { .. }
        | Instr::Row { .. }
        | Instr::Product { .. }
        | Instr::Pack(_)
        | Instr::Unpack(_) => compute(store, code, tables, instr),
        Instr::Post { root: false } => Ok(post(store)),
        Instr::Post { root: true } => Ok(post_root(store)),
        Instr::Take { root: false } => Ok(want(store)),
        Instr::Take { root: true } => Ok(want_at_root(store)),
        Instr::Write(output) => write(store, output),
        Instr::Halt => Ok(Did::Halted),
    }
}

/// The rank to which an instruction posts next.
#[tactic(auto, unfolding(crate::specs::Steps::receiver_by))]
fn receiver(store: &Store, instr: &Instr) -> Option<u32>
    ensures { result ≡ receiver_by (kind_of instr.now) store.now }
{
    match instr {
        Instr::Post { root: false } => Some(store.sent),
        Instr::Post { root: true } => Some(0),
        _ => None,
    }
}

/// Takes the message that the rank waits for.
fn take_in(store: &mut Store, message: Message)
    requires able { CanStep store.old }
    requires room { store.old.position + 1 < 2 ^ 32 }
    ensures { store.new ≡ after_take store.old message }
{
    let got = store.got as usize;
    if got < store.inbox.len() {
        store.inbox.set(got, message);
    }
    store.got += 1;
    if store.got == store.ranks {
        store.got = 0;
        store.position += 1;
    }
}

impl Rank {
    /// The rank of this number among so many, before its first action.
    pub fn new(alloc: Global, code: &Code, number: u32, ranks: u32) -> Result<Rank, NoMemory>
        requires some { 1 ≤ ranks }
        requires few { ranks ≤ 32 }
        requires among { number < ranks }
        ensures { IfOk result (λ it. it.store ≡ first_store code.now number ranks) }
    {
        Ok(Rank {
            store: Store::new(alloc, code, number, ranks)?,
        })
    }

    /// The rank to which the next action posts, if it is a post. Takes no memory.
    #[tactic(auto, using(crate::proofs::RankLemmas::receives_here, crate::proofs::RankLemmas::receives_past))]
    pub fn post_to(&self, code: &Code) -> Option<u32>
        ensures { (tables : Tables) → result ≡ receiver_of (act code.now tables self.now.store) }
    {
        match code.list.get(self.store.position as usize) {
            Some(instr) => receiver(&self.store, instr),
            None => None,
        }
    }

    /// Does the next action. One that takes, writes or traps, and want of memory, leave the rank as it was.
    #[tactic(auto, using(crate::proofs::RankLemmas::does_here, crate::proofs::RankLemmas::does_past))]
    pub fn step(&mut self, code: &Code, tables: &Tables) -> Result<Did, NoMemory>
        requires { CanStep self.old.store }
        ensures did { IfOk result (λ did. Does (act code.now tables.now self.old.store) did self.old.store self.new.store) }
        ensures err { OnErr result (self.new ≡ self.old) }
    {
        match code.list.get(self.store.position as usize) {
            Some(instr) => do_next(&mut self.store, code, tables, instr),
            None => Ok(Did::Halted),
        }
    }

    /// Hands over the message that the next action takes. Takes no memory.
    #[tactic(auto, using(crate::proofs::RankLemmas::gave))]
    pub fn give(&mut self, code: &Code, message: Message)
        requires able { CanStep self.old.store }
        requires inside { self.old.store.position < length code.now.list }
        ensures { (tables : Tables) → Gave (act code.now tables self.old.store) message self.new.store }
    {
        take_in(&mut self.store, message);
    }

    /// Moves on as a rank whose output is written. Takes no memory.
    #[tactic(auto, using(crate::proofs::RankLemmas::wrote))]
    pub fn wrote(&mut self, code: &Code)
        requires inside { self.old.store.position < length code.now.list }
        ensures { (tables : Tables) → Wrote (act code.now tables self.old.store) self.new.store }
    {
        move_on(&mut self.store);
    }
}
