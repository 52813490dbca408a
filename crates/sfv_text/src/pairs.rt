//! Lists of pairs with distinct keys.

ghost use Rattle.std.specs.Prelude.{◌≡◌, ◌<◌, ◌++◌, ◌∷◌, ◌↔◌, false, [], Some, length, slice_get, option_copied, vec_len, vec_capacity, IsTrue, OnOk, OnErr};
ghost use Rattle.std.specs.List.{find, list_any};
ghost use Rattle.std.specs.Slice.Iter.{iter_rest};
ghost use Rattle.sfv_text.specs.Keys.{put, has_key, have_distinct_keys, value_of};
ghost use Rattle.sfv_text.specs.tools.Index.{Indexes};

use crate::index::{KeyIndex, index_new, place_of};
use crate::pair::Pair;
use byte_grammar::{Memory, Text};
use std::alloc::Global;
use std::marker::Model;
use std::slice::Iter;

/// A list of pairs with distinct keys, in the order in which the keys came. A contract sees it as
/// the list of its pairs.
#[derive(Debug, Drop)]
pub struct Pairs<V> {
    pairs: Vec<Pair<V>>,
    /// The place of each key, from a number of pairs on; without it all pairs are looked through.
    index: Option<KeyIndex>,
}

impl<V> Model for Pairs<V> {
    ghost use Rattle.std.specs.Prelude.{IsTrue, List};
    ghost use Rattle.sfv_text.specs.declared.pair.Pair.{Pair};
    ghost use Rattle.sfv_text.specs.Keys.{have_distinct_keys};
    ghost use Rattle.sfv_text.specs.tools.Index.{Indexes};

    ghost Value = { List (Pair V) };

    ghost view = { λ p. p.pairs.items };

    ghost invariant = { λ p. IsTrue (have_distinct_keys p.pairs.items)
        × Indexes p.index p.pairs.items };
}

/// The first pair of the key.
#[tactic(auto, using(crate::proofs::IndexLaws::found_at, crate::proofs::IndexLaws::none_at))]
fn pair_of<'a, V>(index: &Option<KeyIndex>, pairs: &'a [Pair<V>], key: &[u8]) -> Option<&'a Pair<V>>
    requires { Indexes index.now pairs.now }
    ensures { option_copied result ≡ find (has_key key.now) pairs.now }
{
    match place_of(index, pairs, key) {
        Some(place) => Some(&pairs[place]),
        None => None,
    }
}

/// Makes room for a pair that is to come at the end, and takes in its key. Out of memory, both
/// stay as they were.
fn make_room<V>(
    index: &mut Option<KeyIndex>,
    pairs: &mut Vec<Pair<V>>,
    key: &[u8],
) -> Result<(), Memory>
    requires distinct { IsTrue (have_distinct_keys pairs.old.items) }
    requires places { Indexes index.old pairs.old.items }
    requires new_key { list_any (has_key key.now) pairs.old.items ≡ false }
    ensures pairs { pairs.new.items ≡ pairs.old.items }
    ensures room { OnOk result (vec_len pairs.new < vec_capacity pairs.new) }
    ensures ok { OnOk result ((value : V) → Indexes index.new
        (pairs.old.items ++ record { key = key.now; value = value } ∷ [])) }
    ensures err { OnErr result (index.new ≡ index.old) }
{
    pairs.reserve(1)?;
    let alloc = *pairs.allocator();
    index_new(alloc, index, pairs.as_slice(), key)
}

impl<V: Drop> Pairs<V> {
    /// No pairs. It takes no memory.
    pub fn new(alloc: Global) -> Self
        ensures { result ≡ [] }
    {
        Pairs {
            pairs: Vec::new(alloc),
            index: None,
        }
    }

    pub(crate) fn from_vec(pairs: Vec<Pair<V>>) -> Self
        requires { IsTrue (have_distinct_keys pairs.items) }
        ensures { result ≡ pairs.items }
    {
        Pairs { pairs, index: None }
    }

    /// How many pairs it has.
    pub fn len(&self) -> usize
        ensures { result ≡ length self.now }
    {
        self.pairs.len()
    }

    /// Whether it has no pair.
    pub fn is_empty(&self) -> bool
        ensures { IsTrue result ↔ (self.now ≡ []) }
    {
        self.pairs.is_empty()
    }

    /// The pair at the index.
    pub fn get(&self, index: usize) -> &Pair<V>
        requires { index < length self.now }
        ensures { slice_get self.now index ≡ Some result.now }
    {
        &self.pairs[index]
    }

    /// The value of the key, where a pair has it.
    pub fn find(&self, key: &[u8]) -> Option<&V>
        ensures { option_copied result ≡ value_of self.now key.now }
    {
        pair_of(&self.index, self.pairs.as_slice(), key).map(|pair| &pair.value)
    }

    /// The pairs one by one, in order.
    pub fn iter(&self) -> Iter<'_, Pair<V>>
        ensures { iter_rest result ≡ self.now }
    {
        self.pairs.as_slice().iter()
    }

    /// The pairs, in order.
    pub fn as_slice(&self) -> &[Pair<V>]
        ensures is { result.now ≡ self.now }
        ensures distinct { IsTrue (have_distinct_keys self.now) }
    {
        self.pairs.as_slice()
    }

    /// Replaces the value of the key in its place, or adds the pair at the end. Out of memory,
    /// the key and the value are dropped.
    pub fn put(&mut self, key: Text, value: V) -> Result<(), Memory>
        ensures ok { OnOk result (self.new ≡ put self.old key value) }
        ensures err { OnErr result (self.new ≡ self.old) }
        ensures new_key { OnErr result (list_any (has_key key) self.old ≡ false) }
    {
        match place_of(&self.index, self.pairs.as_slice(), key.bytes()) {
            Some(place) => {
                self.pairs[place] = Pair { key, value };
                Ok(())
            }
            None => {
                make_room(&mut self.index, &mut self.pairs, key.bytes())?;
                self.pairs.push_reserved(Pair { key, value });
                Ok(())
            }
        }
    }
}
