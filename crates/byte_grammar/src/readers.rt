//! Readers of one byte, and of bytes of a class.

ghost use Rattle.std.specs.Prelude.{◌≡◌, ◌≤◌, ◌<◌, ◌+◌, ◌-◌, ◌∷◌, ◌++◌, ◌⊎◌, length, Ok, IfOk, IfErr, IsTrue, false, take, drop};
ghost use Rattle.std.specs.List.{list_all};
ghost use Rattle.byte_grammar.specs.Language.{starts_in, AreBytesOf, IsWord};
ghost use Rattle.byte_grammar.specs.Gives.{Gives};
ghost use Rattle.byte_grammar.specs.Walk.{byte_read, run_length, run_read, all_read, word_read};

use crate::class::ByteClass;

/// A reader stopped with so many bytes left.
#[derive(Clone, Copy, PartialEq, Eq)]
pub struct Left(pub usize);

/// Reads one byte of the class. Where there is none, no byte is read.
#[tactic(auto, unfolding(crate::specs::Walk::byte_read))]
pub fn read_byte<C: ByteClass>(class: C, bytes: &[u8]) -> Result<(u8, &[u8]), Left>
    ensures gives { Gives (λ x. (x.0, x.1.now)) result (byte_read (C.members class) bytes.now) }
    ensures joined { IfOk result (λ x. bytes.now ≡ x.0 ∷ x.1.now) }
    ensures class { IfOk result (λ x. IsTrue (C.members class x.0)) }
    ensures none { IfErr result (λ _. starts_in (C.members class) bytes.now ≡ false) }
    ensures left { IfErr result (λ e. e.0 ≡ length bytes.now) }
{
    match bytes.split_first() {
        None => Err(Left(0)),
        Some((first, rest)) => {
            if class.allows(*first) {
                Ok((*first, rest))
            } else {
                Err(Left(bytes.len()))
            }
        }
    }
}

/// How many bytes of the class are first, at most so many.
fn count<C: ByteClass>(class: C, most: usize, bytes: &[u8]) -> usize
    ensures value { result ≡ run_length (C.members class) most bytes.now }
    ensures within { result ≤ length bytes.now }
    ensures most { result ≤ most }
    ensures all { IsTrue (list_all (C.members class) (take result bytes.now)) }
    ensures ends { (result ≡ most) ⊎ (starts_in (C.members class) (drop result bytes.now) ≡ false) }
{
    let mut n = 0;
    while n < most {
        if n == bytes.len() {
            return n;
        }
        if !class.allows(bytes[n]) {
            return n;
        }
        n += 1;
    }
    n
}

/// Reads as many bytes of the class as there are, at least `least` and at most `most`.
#[tactic(auto, unfolding(crate::specs::Walk::run_read))]
pub fn read_run<C: ByteClass>(
    class: C,
    least: usize,
    most: usize,
    bytes: &[u8],
) -> Result<(&[u8], &[u8]), Left>
    ensures gives { Gives (λ x. (x.0.now, x.1.now)) result
        (run_read (C.members class) least most bytes.now) }
    ensures joined { IfOk result (λ x. bytes.now ≡ x.0.now ++ x.1.now) }
    ensures run { IfOk result (λ x. AreBytesOf (C.members class) least most x.0.now) }
    ensures ends { IfOk result (λ x.
        (length x.0.now ≡ most) ⊎ (starts_in (C.members class) x.1.now ≡ false)) }
    ensures left { IfErr result (λ e. (e.0 ≤ length bytes.now) × (length bytes.now < e.0 + least)) }
    ensures few { IfErr result (λ e. IsTrue
        (list_all (C.members class) (take (length bytes.now - e.0) bytes.now))) }
    ensures stops { IfErr result (λ e. (length bytes.now ≡ e.0 + most)
        ⊎ (starts_in (C.members class) (drop (length bytes.now - e.0) bytes.now) ≡ false)) }
{
    let n = count(class, most, bytes);
    if n < least {
        Err(Left(bytes.len() - n))
    } else {
        Ok(bytes.split_at(n))
    }
}

/// Reads as many bytes of the class as there are.
#[tactic(auto, unfolding(crate::specs::Walk::all_read))]
pub fn read_all<C: ByteClass>(class: C, bytes: &[u8]) -> (&[u8], &[u8])
    ensures gives { all_read (C.members class) bytes.now ≡ Ok (result.0.now, result.1.now) }
    ensures joined { bytes.now ≡ result.0.now ++ result.1.now }
    ensures all { IsTrue (list_all (C.members class) result.0.now) }
    ensures ends { starts_in (C.members class) result.1.now ≡ false }
{
    bytes.split_at(count(class, bytes.len(), bytes))
}

/// Whether a byte of the class is first.
pub fn starts_with<C: ByteClass>(class: C, bytes: &[u8]) -> bool
    ensures test { result ≡ starts_in (C.members class) bytes.now }
    ensures some { IsTrue result → 1 ≤ length bytes.now }
{
    match bytes.split_first() {
        None => false,
        Some((first, _)) => class.allows(*first),
    }
}

/// Reads a byte of the first class, and as many bytes of the second as there are after it.
#[tactic(auto, using(crate::proofs::Words::word_cut, crate::proofs::Words::word_err))]
pub fn read_word<C: ByteClass, D: ByteClass>(
    first: C,
    others: D,
    bytes: &[u8],
) -> Result<(&[u8], &[u8]), Left>
    ensures gives { Gives (λ x. (x.0.now, x.1.now)) result
        (word_read (C.members first) (D.members others) bytes.now) }
    ensures joined { IfOk result (λ x. bytes.now ≡ x.0.now ++ x.1.now) }
    ensures word { IfOk result (λ x. IsWord (C.members first) (D.members others) x.0.now x.0.now) }
    ensures ends { IfOk result (λ x. starts_in (D.members others) x.1.now ≡ false) }
    ensures none { IfErr result (λ _. starts_in (C.members first) bytes.now ≡ false) }
    ensures left { IfErr result (λ e. e.0 ≡ length bytes.now) }
{
    let (_, rest) = read_byte(first, bytes)?;
    Ok(bytes.split_at(1 + count(others, rest.len(), rest)))
}
