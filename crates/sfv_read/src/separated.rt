//! Lists and Dictionaries: members separated by commas (RFC 9651 sections 4.2.1 and 4.2.2).

ghost use Rattle.std.specs.Prelude.{◌≡◌, ◌≤◌, ◌<◌, ◌||◌, ℕ, List as Listed, [], false, Some, None, Result, Ok, length, OnOk, IfErr};
ghost use Rattle.byte_grammar.specs.tools.Walks.{with_state, IsLoop};
ghost use Rattle.sfv_text.specs.Keys.{has_key};
ghost use Rattle.sfv_read.specs.Item.{put_pair};
ghost use Rattle.sfv_read.specs.tools.Gives.{GivesUnlessMemory, IfMemory};
ghost use Rattle.sfv_read.specs.tools.MemberWalk.{member_read, dict_member_read, with_last, further_read, next_member_read, members_read, some_members_read, separated_read};

use crate::error::PartError;
use crate::member::{read_member, read_pair};
use byte_grammar::{Byte, Class, read_all, read_byte, starts_with};
use sfv_text::{Dict, List, Member, Memory, Pair};
use std::alloc::Global;

/// What is kept of members that are separated by commas.
pub trait Separated {
    /// A member, as it is in the text.
    type Part: Drop;

    /// What is kept of members.
    type Kept: Drop;

    // How a member is read, what is kept of none, and what with one more.
    ghost reading: { Listed ℕ → Result (Self.Part × Listed ℕ) ℕ };

    ghost nothing: { Self.Kept };

    ghost with_part: { Self → Self.Kept → Self.Part → Self.Kept };

    /// What is kept of no member. A loop over members begins with it; it ends, and does what turns
    /// do.
    fn empty(&self, alloc: Global) -> Self::Kept
        ensures nothing { result ≡ nothing }
        ensures shorter { (bytes : Listed ℕ) (v : Self.Part) (rest : Listed ℕ)
            → next_member_read reading bytes ≡ Ok (Some v, rest) → length rest < length bytes }
        ensures loops { IsLoop (next_member_read reading) };

    fn add(&self, kept: &mut Self::Kept, part: Self::Part) -> Result<(), Memory>
        ensures { OnOk result (kept.new ≡ with_part self.now kept.old part) };

    fn read_part<'t>(
        &self,
        alloc: Global,
        bytes: &'t [u8],
    ) -> Result<(Self::Part, &'t [u8]), PartError>
        ensures { GivesUnlessMemory (λ x. (x.0, x.1.now)) result (reading bytes.now) };
}

pub struct AsList;

impl Separated for AsList {
    type Part = Member;

    type Kept = List;

    ghost reading = { λ bytes. member_read bytes };

    ghost nothing = { [] };

    ghost with_part = { λ kind list v. with_last list v };

    fn empty(&self, alloc: Global) -> List {
        List::new(alloc)
    }

    fn add(&self, list: &mut List, part: Member) -> Result<(), Memory> {
        list.push(part)
    }

    fn read_part<'t>(
        &self,
        alloc: Global,
        bytes: &'t [u8],
    ) -> Result<(Member, &'t [u8]), PartError> {
        read_member(alloc, bytes)
    }
}

pub struct AsDict;

impl Separated for AsDict {
    type Part = Pair<Member>;

    type Kept = Dict;

    ghost reading = { λ bytes. dict_member_read bytes };

    ghost nothing = { [] };

    ghost with_part = { λ kind dict p. put_pair dict p };

    fn empty(&self, alloc: Global) -> Dict {
        Dict::new(alloc)
    }

    fn add(&self, dict: &mut Dict, part: Pair<Member>) -> Result<(), Memory> {
        dict.put(part.key, part.value)
    }

    fn read_part<'t>(
        &self,
        alloc: Global,
        bytes: &'t [u8],
    ) -> Result<(Pair<Member>, &'t [u8]), PartError> {
        read_pair(alloc, bytes)
    }
}

/// Whether a Dictionary has the key.
#[derive(Clone, Copy)]
pub struct HasKey<'k>(pub &'k [u8]);

impl Separated for HasKey<'_> {
    type Part = Pair<Member>;

    type Kept = bool;

    ghost reading = { λ bytes. dict_member_read bytes };

    ghost nothing = { false };

    ghost with_part = { λ kind has p. has_key kind.0.now p || has };

    fn empty(&self, alloc: Global) -> bool {
        false
    }

    fn add(&self, has: &mut bool, part: Pair<Member>) -> Result<(), Memory> {
        *has = part.key.bytes() == self.0 || *has;
        Ok(())
    }

    fn read_part<'t>(
        &self,
        alloc: Global,
        bytes: &'t [u8],
    ) -> Result<(Pair<Member>, &'t [u8]), PartError> {
        read_pair(alloc, bytes)
    }
}

/// Reads spaces, and nothing or members separated by commas.
#[tactic(auto, unfolding(crate::specs::tools::MemberWalk::separated_read, crate::specs::tools::MemberWalk::some_members_read, byte_grammar::specs::tools::Walks::optional_read))]
pub fn read_separated<'t, S: Separated>(
    alloc: Global,
    kind: &S,
    bytes: &'t [u8],
) -> Result<(S::Kept, &'t [u8]), PartError>
    ensures gives { GivesUnlessMemory (λ x. (x.0, x.1.now)) result
        (with_state (S.with_part kind.now) S.nothing (separated_read S.reading bytes.now)) }
    ensures needed { IfErr result (λ e. IfMemory e (1 ≤ length bytes.now)) }
{
    let (_, rest) = read_all(Byte(b' '), bytes);
    match rest {
        [] => Ok((kind.empty(alloc), rest)),
        [_, ..] => read_members(alloc, kind, rest),
    }
}

/// Reads members separated by commas, and blanks after the last.
#[tactic(auto, using(crate::proofs::SeparatedTexts::members_first))]
fn read_members<'t, S: Separated>(
    alloc: Global,
    kind: &S,
    bytes: &'t [u8],
) -> Result<(S::Kept, &'t [u8]), PartError>
    ensures { GivesUnlessMemory (λ x. (x.0, x.1.now)) result
        (with_state (S.with_part kind.now) S.nothing (members_read S.reading bytes.now)) }
{
    let (first, after) = kind.read_part(alloc, bytes)?;
    let mut members = kind.empty(alloc);
    kind.add(&mut members, first)?;
    let mut rest = after;
    'members: loop {
        let (next, after) = read_next_member(alloc, kind, rest)?;
        match next {
            None => return Ok((members, after)),
            Some(part) => {
                kind.add(&mut members, part)?;
                rest = after;
            }
        }
    }
}

/// Reads blanks, and a further member where a comma comes.
#[tactic(auto, unfolding(crate::specs::tools::MemberWalk::next_member_read, byte_grammar::specs::tools::Walks::optional_read))]
fn read_next_member<'t, S: Separated>(
    alloc: Global,
    kind: &S,
    bytes: &'t [u8],
) -> Result<(Option<S::Part>, &'t [u8]), PartError>
    ensures { GivesUnlessMemory (λ x. (x.0, x.1.now)) result
        (next_member_read S.reading bytes.now) }
{
    let (_, rest) = read_all(Class::Blank, bytes);
    if !starts_with(Byte(b','), rest) {
        return Ok((None, rest));
    }
    let (part, rest) = read_further(alloc, kind, rest)?;
    Ok((Some(part), rest))
}

#[tactic(auto, unfolding(crate::specs::tools::MemberWalk::further_read))]
fn read_further<'t, S: Separated>(
    alloc: Global,
    kind: &S,
    bytes: &'t [u8],
) -> Result<(S::Part, &'t [u8]), PartError>
    ensures { GivesUnlessMemory (λ x. (x.0, x.1.now)) result (further_read S.reading bytes.now) }
{
    let (_, rest) = read_byte(Byte(b','), bytes)?;
    let (_, rest) = read_all(Class::Blank, rest);
    kind.read_part(alloc, rest)
}
