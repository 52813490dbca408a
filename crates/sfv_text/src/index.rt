//! The places of pairs by their keys.

ghost use Rattle.std.specs.Prelude.{◌≡◌, ◌++◌, ◌∷◌, [], false, IsTrue, IfOk, OnOk, OnErr};
ghost use Rattle.std.specs.FinMap as map;
ghost use Rattle.std.specs.List.{list_any, position};
ghost use Rattle.sfv_text.specs.Keys.{has_key, have_distinct_keys};
ghost use Rattle.sfv_text.specs.tools.Index.{ArePlacesOf, Indexes};

use crate::pair::Pair;
use byte_grammar::Memory;
use std::alloc::Global;
use std::collections::BTreeMap;
use std::marker::Model;

/// Up to so many pairs are looked through, with no index.
const UNINDEXED: usize = 16;

/// Where the pair of each key is. A contract sees it as a finite map.
#[derive(Debug, Drop)]
pub struct KeyIndex {
    places: BTreeMap<Vec<u8>, usize>,
}

impl Model for KeyIndex {
    ghost use Rattle.std.specs.FinMap as map;
    ghost use Rattle.sfv_text.specs.tools.Index.{Places, places_code};
    ghost use Rattle.byte_grammar.specs.tools.ByBytes.{by_bytes};

    ghost Value = { Places };

    ghost coded = { places_code };

    ghost view = { λ i. map.from_entries (by_bytes i.places.entries) };
}

impl KeyIndex {
    fn new(alloc: Global) -> KeyIndex
        ensures { result ≡ map.empty }
    {
        KeyIndex {
            places: BTreeMap::new(alloc),
        }
    }

    fn place_of(&self, key: &[u8]) -> Option<usize>
        ensures { result ≡ map.get self.now key.now }
    {
        self.places.get(key).copied()
    }

    fn add(&mut self, alloc: Global, key: &[u8], place: usize) -> Result<(), Memory>
        ensures ok { OnOk result (self.new ≡ map.insert self.old key.now place) }
        ensures err { OnErr result (self.new ≡ self.old) }
    {
        let mut owned = Vec::new(alloc);
        owned.extend_from_slice(key)?;
        self.places.insert(owned, place)?;
        Ok(())
    }
}

/// The index of these pairs: n log n comparisons of keys for n pairs.
#[tactic(auto, using(crate::proofs::IndexLaws::next_place))]
fn index_of<V>(alloc: Global, pairs: &[Pair<V>]) -> Result<KeyIndex, Memory>
    requires { IsTrue (have_distinct_keys pairs.now) }
    ensures { IfOk result (λ places. ArePlacesOf places pairs.now) }
{
    let mut index = KeyIndex::new(alloc);
    for place in 0..pairs.len() {
        index.add(alloc, pairs[place].key.bytes(), place)?;
    }
    Ok(index)
}

/// Takes in the key of a pair that is to come at the end. Out of memory, the index stays.
#[tactic(auto, using(crate::proofs::IndexLaws::one_more_place))]
pub fn index_new<V>(
    alloc: Global,
    index: &mut Option<KeyIndex>,
    pairs: &[Pair<V>],
    key: &[u8],
) -> Result<(), Memory>
    requires distinct { IsTrue (have_distinct_keys pairs.now) }
    requires places { Indexes index.old pairs.now }
    requires new_key { list_any (has_key key.now) pairs.now ≡ false }
    ensures ok { OnOk result ((value : V) → Indexes index.new
        (pairs.now ++ record { key = key.now; value = value } ∷ [])) }
    ensures err { OnErr result (index.new ≡ index.old) }
{
    if let Some(places) = index {
        places.add(alloc, key, pairs.len())?;
        return Ok(());
    }
    if pairs.len() < UNINDEXED {
        return Ok(());
    }
    let mut places = index_of(alloc, pairs)?;
    places.add(alloc, key, pairs.len())?;
    *index = Some(places);
    Ok(())
}

/// The place of the first pair of the key.
pub fn place_of<V>(index: &Option<KeyIndex>, pairs: &[Pair<V>], key: &[u8]) -> Option<usize>
    requires { Indexes index.now pairs.now }
    ensures { result ≡ position (has_key key.now) pairs.now }
{
    match index {
        Some(places) => places.place_of(key),
        None => pairs.iter().position(|pair| pair.key.bytes() == key),
    }
}
