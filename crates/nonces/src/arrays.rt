//! The arrays of a book. They are private to this module, and each read of a node or of a head is
//! a step. A store hands nothing out and isn't one.

ghost use Rattle.std.specs.Prelude.{◌≡◌, ◌+◌, ◌<◌, Some, None, length, replicate, slice_set, slice_index_or, IfOk};
ghost use Rattle.nonces.specs.Books.{is_of};
ghost use Rattle.nonces.specs.tools.Nodes.{free_nodes, holds_of, node_at};

use crate::entry::Entry;
use crate::steps::Steps;
use sfv_text::Memory;
use std::alloc::Global;
use std::marker::Model;
use std::sync::ledger::Ledger;

/// A node, which holds an entry or is free. Links are indices of nodes.
#[derive(Drop)]
pub struct Node {
    pub entry: Option<Entry>,
    /// The bucket of the entry.
    pub bucket: usize,
    /// The next node of its bucket's chain.
    pub next: Option<usize>,
    /// The node before it in its bucket's chain.
    pub previous: Option<usize>,
    /// The next node of its second's or its hour's list, or of the free list.
    pub after: Option<usize>,
}

impl Node {
    /// A free node.
    fn free(after: Option<usize>) -> Node
        ensures { result ≡ record {
          entry = None;
          bucket = 0;
          next = None;
          previous = None;
          after = after;
        } }
    {
        Node {
            entry: None,
            bucket: 0,
            next: None,
            previous: None,
            after,
        }
    }

    /// Whether it holds an entry of this keyid and this nonce.
    pub fn is_of(&self, keyid: &[u8], nonce: &[u8]) -> bool
        ensures { result ≡ holds_of keyid.now nonce.now self.now.entry }
    {
        match &self.entry {
            Some(entry) => entry.is_of(keyid, nonce),
            None => false,
        }
    }
}

/// The nodes of a book.
#[derive(Drop)]
pub struct Nodes {
    nodes: Vec<Node>,
}

impl Model for Nodes {
    ghost use Rattle.std.specs.Prelude.{List};
    ghost use Rattle.nonces.specs.declared.arrays.Node.{Node};

    ghost Value = { List Node };

    ghost view = { λ a. a.nodes.items };
}

impl Nodes {
    /// So many free nodes, each linked to the one before it.
    pub fn free(alloc: Global, count: usize) -> Result<Nodes, Memory>
        ensures { IfOk result (λ nodes. nodes ≡ free_nodes count) }
    {
        let mut nodes = Vec::with_capacity(alloc, count)?;
        let mut after = None;
        'nodes: for index in 0..count {
            nodes.push(Node::free(after))?;
            after = Some(index);
        }
        Ok(Nodes { nodes })
    }

    /// One look at a node.
    pub fn look<L: Ledger>(&self, index: usize, steps: &mut Steps<L>) -> &Node
        requires { index < length self.now }
        ensures node { result.now ≡ node_at self.now index }
        ensures steps { steps.new ≡ steps.old + 1 }
    {
        steps.tick();
        &self.nodes[index]
    }

    /// Stores a node.
    pub fn set(&mut self, index: usize, node: Node)
        requires { index < length self.old }
        ensures { self.new ≡ slice_set self.old index node }
    {
        self.nodes[index] = node;
    }

    /// Stores a link to the next node of its bucket's chain.
    pub fn set_next(&mut self, index: usize, next: Option<usize>)
        requires { index < length self.old }
        ensures { self.new
            ≡ slice_set self.old index (record (node_at self.old index) { next = next }) }
    {
        let node = &mut self.nodes[index];
        node.next = next;
    }

    /// Stores a link to the node before it in its bucket's chain.
    pub fn set_previous(&mut self, index: usize, previous: Option<usize>)
        requires { index < length self.old }
        ensures { self.new
            ≡ slice_set self.old index (record (node_at self.old index) { previous = previous }) }
    {
        let node = &mut self.nodes[index];
        node.previous = previous;
    }

    /// Stores a link to the next node of its second's or its hour's list.
    pub fn set_after(&mut self, index: usize, after: Option<usize>)
        requires { index < length self.old }
        ensures { self.new
            ≡ slice_set self.old index (record (node_at self.old index) { after = after }) }
    {
        let node = &mut self.nodes[index];
        node.after = after;
    }

    /// Lets go of the entry of a node, and stores a link to the next free node.
    pub fn set_free(&mut self, index: usize, after: Option<usize>)
        requires { index < length self.old }
        ensures { self.new ≡ slice_set self.old index
            (record (node_at self.old index) { entry = None; after = after }) }
    {
        let node = &mut self.nodes[index];
        node.entry = None;
        node.after = after;
    }
}

/// The heads of chains or of lists: each is the first node, where there is one.
#[derive(Drop)]
pub struct Heads {
    heads: Vec<Option<usize>>,
}

impl Model for Heads {
    ghost use Rattle.std.specs.Prelude.{ℕ, List, Option};

    ghost Value = { List (Option ℕ) };

    ghost view = { λ a. a.heads.items };
}

impl Heads {
    /// So many heads without nodes.
    pub fn empty(alloc: Global, count: usize) -> Result<Heads, Memory>
        ensures { IfOk result (λ heads. heads ≡ replicate count None) }
    {
        Ok(Heads {
            heads: vec![in alloc; None; count]?,
        })
    }

    /// How many heads there are.
    pub fn len(&self) -> usize
        ensures { result ≡ length self.now }
    {
        self.heads.len()
    }

    /// One look at a head.
    pub fn look<L: Ledger>(&self, index: usize, steps: &mut Steps<L>) -> Option<usize>
        requires { index < length self.now }
        ensures head { result ≡ slice_index_or self.now index None }
        ensures steps { steps.new ≡ steps.old + 1 }
    {
        steps.tick();
        self.heads[index]
    }

    /// Stores a head.
    pub fn set(&mut self, index: usize, head: Option<usize>)
        requires { index < length self.old }
        ensures { self.new ≡ slice_set self.old index head }
    {
        self.heads[index] = head;
    }
}
