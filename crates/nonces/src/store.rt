//! The entries of a book: each in a node, which is in the chain of its bucket. The nodes that hold
//! none are in the free list.

ghost use Rattle.std.specs.Prelude.{◌≡◌, ◌≢◌, ◌≤◌, ◌<◌, ◌+◌, ◌==◌, ℕ, true, Some, None, length, replicate, slice_set, slice_index_or, IfOk, IfSome};
ghost use Rattle.std.specs.List.{count_by};
ghost use Rattle.nonces.specs.Books.{is_seen};
ghost use Rattle.nonces.specs.Buckets.{IsLeastPowerOfTwo, is_in_bucket, bucket_of};
ghost use Rattle.nonces.specs.tools.Nodes.{Holds, entries_of, link_at, with_head, with_next, with_previous};
ghost use Rattle.nonces.specs.declared.limits.TheConstants.{MAX_ENTRIES, MAX_KEYID_BYTES};

use crate::arrays::{Heads, Node, Nodes};
use crate::buckets::{bucket_count, bucket_of};
use crate::entry::Entry;
use crate::steps::Steps;
use sfv_text::Memory;
use std::alloc::Global;
use std::marker::Model;
use std::sync::ledger::Ledger;

/// Entries in nodes.
#[derive(Drop)]
pub struct Store {
    nodes: Nodes,
    /// The first node of each bucket's chain.
    chains: Heads,
    /// The first node of the free list.
    free: Option<usize>,
    /// How many nodes hold an entry.
    len: usize,
}

impl Model for Store {
    ghost use Rattle.nonces.specs.tools.Nodes.{Held, IsStore, held_of};

    ghost Value = { Held };

    ghost view = { λ s. held_of s.nodes };

    ghost invariant = { λ s. IsStore s.nodes s.chains s.free s.len };
}

impl Store {
    /// Nodes for so many entries, which hold none.
    pub fn open(alloc: Global, capacity: usize) -> Result<Store, Memory>
        requires some { 1 ≤ capacity }
        requires few { capacity ≤ MAX_ENTRIES }
        ensures { IfOk result (λ store. store.entries ≡ replicate capacity None) }
    {
        let nodes = Nodes::free(alloc, capacity)?;
        let chains = Heads::empty(alloc, bucket_count(capacity))?;
        Ok(Store {
            nodes,
            chains,
            free: Some(capacity - 1),
            len: 0,
        })
    }

    /// How many entries it holds.
    pub fn len(&self) -> usize
        ensures { result ≡ length (entries_of self.now) }
    {
        self.len
    }

    /// Whether an entry has this keyid and this nonce.
    pub fn find<L: Ledger>(&self, keyid: &[u8], nonce: &[u8], steps: &mut Steps<L>) -> bool
        requires { length keyid.now ≤ MAX_KEYID_BYTES }
        ensures found { result ≡ is_seen keyid.now nonce.now (entries_of self.now) }
        ensures rises { steps.old ≤ steps.new }
        ensures cost { (buckets : ℕ) → IsLeastPowerOfTwo (length self.now.entries) buckets
            → steps.new ≤ steps.old + count_by
            (is_in_bucket buckets (bucket_of buckets keyid.now nonce.now))
            (entries_of self.now) + 1 }
    {
        let bucket = bucket_of(self.chains.len(), keyid, nonce);
        let mut link = self.chains.look(bucket, steps);
        'chain: while let Some(index) = link {
            let node = self.nodes.look(index, steps);
            if node.is_of(keyid, nonce) {
                return true;
            }
            link = node.next;
        }
        false
    }

    /// Puts an entry into a free node, whose index it answers, and links the node to another.
    pub fn add<L: Ledger>(
        &mut self,
        entry: Entry,
        after: Option<usize>,
        steps: &mut Steps<L>,
    ) -> usize
        requires room { length (entries_of self.old) < length self.old.entries }
        requires keyid { length entry.keyid ≤ MAX_KEYID_BYTES }
        ensures within { result < length self.old.entries }
        ensures free { slice_index_or self.old.entries result None ≡ None }
        ensures entries { self.new.entries ≡ slice_set self.old.entries result (Some entry) }
        ensures link { link_at self.new result ≡ after }
        ensures links { (i : ℕ) → i ≢ result → link_at self.new i ≡ link_at self.old i }
        ensures steps { steps.new ≡ steps.old + 2 }
    {
        let Some(index) = self.free else {
            unreachable!()
        };
        self.free = self.nodes.look(index, steps).after;
        let bucket = bucket_of(self.chains.len(), entry.keyid(), entry.nonce());
        let next = self.chains.look(bucket, steps);
        self.nodes.set(
            index,
            Node {
                entry: Some(entry),
                bucket,
                next,
                previous: None,
                after,
            },
        );
        link_previous(&mut self.nodes, next, Some(index));
        self.chains.set(bucket, Some(index));
        self.len += 1;
        index
    }

    /// Looks at the entry of a node: the last moment at which it lives, and the node's link to
    /// another.
    pub fn look<L: Ledger>(&self, index: usize, steps: &mut Steps<L>) -> (u64, Option<usize>)
        requires { Holds (λ _. true) self.now.entries index }
        ensures until { Holds (λ entry. entry.until == result.0) self.now.entries index }
        ensures link { result.1 ≡ link_at self.now index }
        ensures steps { steps.new ≡ steps.old + 1 }
    {
        let node = self.nodes.look(index, steps);
        let Some(entry) = &node.entry else {
            unreachable!()
        };
        (entry.until(), node.after)
    }

    /// Links a node to another.
    pub fn link(&mut self, index: usize, after: Option<usize>)
        requires { Holds (λ _. true) self.old.entries index }
        ensures entries { self.new.entries ≡ self.old.entries }
        ensures link { link_at self.new index ≡ after }
        ensures links { (i : ℕ) → i ≢ index → link_at self.new i ≡ link_at self.old i }
    {
        self.nodes.set_after(index, after);
    }

    /// Lets go of the entry of a node, and answers the node's link to another.
    pub fn release<L: Ledger>(&mut self, index: usize, steps: &mut Steps<L>) -> Option<usize>
        requires { Holds (λ _. true) self.old.entries index }
        ensures link { result ≡ link_at self.old index }
        ensures entries { self.new.entries ≡ slice_set self.old.entries index None }
        ensures links { (i : ℕ) → i ≢ index → link_at self.new i ≡ link_at self.old i }
        ensures steps { steps.new ≡ steps.old + 1 }
    {
        let node = self.nodes.look(index, steps);
        let (bucket, next, previous, after) = (node.bucket, node.next, node.previous, node.after);
        link_next(&mut self.nodes, &mut self.chains, bucket, previous, next);
        link_previous(&mut self.nodes, next, previous);
        self.nodes.set_free(index, self.free);
        self.free = Some(index);
        self.len -= 1;
        after
    }
}

/// Stores a link to the next node: in the node before it, or else in the head of the chain.
fn link_next(
    nodes: &mut Nodes,
    chains: &mut Heads,
    bucket: usize,
    previous: Option<usize>,
    next: Option<usize>,
)
    requires bucket { bucket < length chains.old }
    requires previous { IfSome previous (λ index. index < length nodes.old) }
    ensures nodes { nodes.new ≡ with_next nodes.old previous next }
    ensures chains { chains.new ≡ with_head chains.old bucket previous next }
{
    match previous {
        Some(previous) => nodes.set_next(previous, next),
        None => chains.set(bucket, next),
    }
}

/// Stores a link to the previous node in the node after it, where there is one.
fn link_previous(nodes: &mut Nodes, next: Option<usize>, previous: Option<usize>)
    requires { IfSome next (λ index. index < length nodes.old) }
    ensures { nodes.new ≡ with_previous nodes.old next previous }
{
    if let Some(next) = next {
        nodes.set_previous(next, previous);
    }
}
