//! The parameters of a query, read once for all names.

ghost use Rattle.std.specs.Prelude.{◌≡◌, ◌↔◌, ◌∷◌, ◌++◌, [], Some, IsTrue, IfOk, OnOk, List};
ghost use Rattle.derived_values.specs.Query.{QueryPair, IsFound, decoded_pair, matches};
ghost use Rattle.derived_values.specs.tools.Params.{AreListedIn, SaysWhichAreSame};

use crate::query::{ParamFound, encode_again};
use form_urlencoded::raw_pairs;
use sfv_text::{Memory, Pairs, Sequence, Text};
use std::alloc::Global;
use std::marker::Model;

/// The parameters of a query by their names, so that many are found without reading the query for
/// each (RFC 9421 section 2.2.8). A contract sees the query.
#[derive(Drop)]
pub struct QueryParams {
    query: Text,
    /// Which of the lists has the values under each name.
    places: Pairs<usize>,
    /// The values under each name, percent-encoded, in order.
    lists: Vec<Sequence<Text>>,
}

impl Model for QueryParams {
    ghost use Rattle.std.specs.Prelude.{ℕ, List};
    ghost use Rattle.derived_values.specs.Query.{pairs};
    ghost use Rattle.derived_values.specs.tools.Params.{AreListedIn, SaysWhichAreSame};

    ghost Value = { List ℕ };

    ghost view = { λ p. p.query };

    ghost invariant = { λ p. AreListedIn p.places p.lists.items (pairs p.query) };
}

/// Adds a pair, as the query has it.
fn add_pair(
    alloc: Global,
    places: &mut Pairs<usize>,
    lists: &mut Vec<Sequence<Text>>,
    raw_name: &[u8],
    raw_value: &[u8],
) -> Result<(), Memory>
    requires { (done : List QueryPair) × AreListedIn places.old lists.old.items done }
    ensures { OnOk result ((done : List QueryPair)
        → AreListedIn places.old lists.old.items done
        → AreListedIn places.new lists.new.items
        (done ++ decoded_pair (raw_name.now, raw_value.now) ∷ [])) }
{
    let name = encode_again(alloc, raw_name)?;
    let value = encode_again(alloc, raw_value)?;
    if let Some(place) = places.find(name.bytes()) {
        return lists[*place].push(value);
    }
    let place = lists.len();
    let mut values = Sequence::new(alloc);
    values.push(value)?;
    lists.push(values)?;
    places.put(name, place)
}

impl QueryParams {
    /// The parameters of the query.
    pub fn of(alloc: Global, query: &[u8]) -> Result<QueryParams, Memory>
        ensures { IfOk result (λ params. params ≡ query.now) }
    {
        let mut places = Pairs::new(alloc);
        let mut lists = Vec::new(alloc);
        for (raw_name, raw_value) in raw_pairs(query) {
            add_pair(alloc, &mut places, &mut lists, raw_name, raw_value)?;
        }
        Ok(QueryParams {
            query: Text::from_bytes(alloc, query)?,
            places,
            lists,
        })
    }

    /// Whether they are those of the query.
    fn are_of(&self, query: &[u8]) -> bool
        ensures { IsTrue result → self.now ≡ query.now }
    {
        self.query.bytes() == query
    }

    /// The values under the name, percent-encoded, in order.
    fn values(&self, name: &[u8]) -> &[Text]
        ensures { result.now ≡ matches self.now name.now }
    {
        match self.places.find(name) {
            Some(place) => self.lists[*place].as_slice(),
            None => &[],
        }
    }

    /// What `query_param` finds under the name.
    fn find(&self, alloc: Global, name: &[u8]) -> Result<ParamFound, Memory>
        ensures { IfOk result (IsFound (matches self.now name.now)) }
    {
        match self.values(name) {
            [] => Ok(ParamFound::None),
            [value] => Ok(ParamFound::One(value.copy(alloc)?)),
            _ => Ok(ParamFound::Many),
        }
    }
}

/// What `query_param` finds under the name. The parameters are those that are kept, where they are
/// those of this query; else they are read, and kept in place of the others.
pub fn query_param_in(
    alloc: Global,
    query: &[u8],
    name: &[u8],
    kept: &mut Option<QueryParams>,
) -> Result<ParamFound, Memory>
    ensures found { IfOk result (IsFound (matches query.now name.now)) }
    ensures kept { OnOk result (kept.new ≡ Some query.now) }
{
    if let Some(params) = kept {
        if params.are_of(query) {
            return params.find(alloc, name);
        }
    }
    let params = QueryParams::of(alloc, query)?;
    let found = params.find(alloc, name);
    *kept = Some(params);
    found
}

/// Whether the lists have the same texts.
fn are_equal(texts: &[Text], others: &[Text]) -> bool
    ensures { IsTrue result ↔ (texts.now ≡ others.now) }
{
    if texts.len() != others.len() {
        return false;
    }
    for index in 0..texts.len() {
        if texts[index].bytes() != others[index].bytes() {
            return false;
        }
    }
    true
}

/// Two queries, and for each name whether they have the same values under it, in the same order
/// (RFC 9421 section 2.2.8). A contract sees the queries.
#[derive(Drop)]
pub struct ComparedQueries {
    params: QueryParams,
    others: QueryParams,
    /// Of each name of the first query, whether the values under it are the same.
    are_same: Pairs<bool>,
}

impl Model for ComparedQueries {
    ghost use Rattle.derived_values.specs.Query.{TwoQueries};
    ghost use Rattle.derived_values.specs.tools.Params.{SaysWhichAreSame};

    ghost Value = { TwoQueries };

    ghost view = { λ c. record { query = c.params; other = c.others } };

    ghost invariant = { λ c. SaysWhichAreSame c.are_same c.params c.others };
}

/// Of each name of the first query, whether the values under it are the same.
fn which_are_same(
    alloc: Global,
    params: &QueryParams,
    others: &QueryParams,
) -> Result<Pairs<bool>, Memory>
    ensures { IfOk result (λ same. SaysWhichAreSame same params.now others.now) }
{
    let mut are_same = Pairs::new(alloc);
    for place in params.places.iter() {
        let name = place.key.bytes();
        let same = are_equal(params.values(name), others.values(name));
        are_same.put(place.key.copy(alloc)?, same)?;
    }
    Ok(are_same)
}

impl ComparedQueries {
    /// The queries, each read once.
    pub fn of(alloc: Global, query: &[u8], other: &[u8]) -> Result<ComparedQueries, Memory>
        ensures { IfOk result (λ compared.
            compared ≡ record { query = query.now; other = other.now }) }
    {
        let params = QueryParams::of(alloc, query)?;
        let others = QueryParams::of(alloc, other)?;
        let are_same = which_are_same(alloc, &params, &others)?;
        Ok(ComparedQueries {
            params,
            others,
            are_same,
        })
    }

    /// Whether both queries have the same values under the name, in the same order.
    pub fn have_same_values(&self, name: &[u8]) -> bool
        ensures { IsTrue result
            ↔ (matches self.now.query name.now ≡ matches self.now.other name.now) }
    {
        match self.are_same.find(name) {
            Some(same) => *same,
            None => self.others.values(name).is_empty(),
        }
    }
}
