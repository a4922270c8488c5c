// A list of nodes, each at most once, linked both ways by index.

ghost use Rattle.std.specs.Prelude.{◌≡◌, ℕ, ◌++◌, ◌∷◌, [], ◌<◌, length, true, false, IfOk, IfSome, slice_get, slice_set};
ghost use Rattle.hp_links.specs.Boards.{IsBoard, board, is_in, without};
ghost use Rattle.hp_links.specs.Links.{led_to, with_after, with_before};

use hp_word::place::NoMemory;
use std::alloc::Global;
use std::marker::Model;

/// A node of the table: whether it is linked, and then its neighbours in the list.
#[derive(Clone, Copy, Debug)]
struct Node {
    linked: bool,
    before: Option<u32>,
    after: Option<u32>,
}

/// A list without repeats of the nodes of a table, which are the numbers below a count. Contracts see that count and the
/// list.
#[derive(Debug, Drop)]
pub struct Board {
    table: Vec<Node>,
    first: Option<u32>,
    last: Option<u32>,
}

impl Model for Board {
    ghost use Rattle.hp_links.specs.Boards.{Linked};
    ghost use Rattle.hp_links.specs.Links.{IsLinked, seen};

    ghost Value = { Linked };

    ghost view = { λ b. seen b.table.items b.first };

    ghost invariant = { λ b. IsLinked b.table.items b.first b.last (seen b.table.items b.first).list };
}

/// The node after `before`, or where there is none the first of the list, becomes `next`.
fn follow(table: &mut [Node], first: &mut Option<u32>, before: Option<u32>, next: Option<u32>)
    requires { IfSome before (λ k. k < length table.old) }
    ensures table { table.new ≡ with_after before next table.old }
    ensures first { first.new ≡ led_to before next first.old }
{
    match before {
        Some(node) => table[node as usize].after = next,
        None => *first = next,
    }
}

/// The node before `after`, or where there is none the last of the list, becomes `next`.
fn precede(table: &mut [Node], last: &mut Option<u32>, after: Option<u32>, next: Option<u32>)
    requires { IfSome after (λ k. k < length table.old) }
    ensures table { table.new ≡ with_before after next table.old }
    ensures last { last.new ≡ led_to after next last.old }
{
    match after {
        Some(node) => table[node as usize].before = next,
        None => *last = next,
    }
}

impl Board {
    /// A table of so many nodes, none of them linked.
    pub fn new(alloc: Global, nodes: u32) -> Result<Board, NoMemory>
        ensures { IfOk result (λ b. b ≡ board nodes []) }
    {
        let free = Node {
            linked: false,
            before: None,
            after: None,
        };
        Ok(Board {
            table: vec![in alloc; free; nodes as usize]?,
            first: None,
            last: None,
        })
    }

    /// Appends a node that is not linked.
    pub fn link(&mut self, node: u32)
        requires below { node < self.old.nodes }
        requires free { is_in node self.old.list ≡ false }
        ensures { self.new ≡ board self.old.nodes (self.old.list ++ node ∷ []) }
    {
        let before = self.last;
        follow(&mut self.table, &mut self.first, before, Some(node));
        self.table[node as usize] = Node {
            linked: true,
            before,
            after: None,
        };
        self.last = Some(node);
    }

    /// Takes a linked node out, wherever it stands.
    pub fn unlink(&mut self, node: u32)
        requires { is_in node self.old.list ≡ true }
        ensures { self.new ≡ board self.old.nodes (without node self.old.list) }
    {
        let Node {
            linked: _,
            before,
            after,
        } = self.table[node as usize];
        follow(&mut self.table, &mut self.first, before, after);
        precede(&mut self.table, &mut self.last, after, before);
        self.table[node as usize].linked = false;
    }

    /// The first node of the list; none exactly where the list is empty.
    pub fn first(&self) -> Option<u32>
        ensures first { result ≡ slice_get self.now.list 0 }
        ensures board { IsBoard self.now }
    {
        self.first
    }

    /// Whether a node is in the list.
    pub fn is_linked(&self, node: u32) -> bool
        requires { node < self.now.nodes }
        ensures { result ≡ is_in node self.now.list }
    {
        self.table[node as usize].linked
    }
}
