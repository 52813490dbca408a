//! Integers, Decimals and Dates (RFC 9651 sections 3.3.1, 3.3.2 and 3.3.7).

ghost use Rattle.std.specs.Prelude.{◌≡◌, ◌≤◌, ◌<◌, ◌+◌, ◌-◌, ◌*◌, ◌^◌, ◌++◌, length, option_map, IfOk, IfSome, IsTrue};
ghost use Rattle.std.specs.List.{list_all};
ghost use Rattle.byte_grammar.specs.Gives.{Gives};
ghost use Rattle.byte_grammar.specs.Language.{AreBytesOf};
ghost use Rattle.byte_grammar.specs.Classes.{is_digit};
ghost use Rattle.std.specs.Str.Parse.{digits_value, digits_value_after};
ghost use Rattle.sfv_read.specs.BareItem.{with_sign};
ghost use Rattle.sfv_read.specs.tools.BareWalk.{fraction_read, part_read, number_read, date_read};

use byte_grammar::{Byte, Class, Left, read_byte, read_run, starts_with};
use sfv_text::BareItem;

/// Reads an optional minus and 1 to 15 digits, or 1 to 12 digits, a point and 1 to 3 digits.
#[tactic(auto, unfolding(crate::specs::tools::BareWalk::number_read), using(crate::proofs::Digits::pow_room))]
pub fn read_number(bytes: &[u8]) -> Result<(BareItem, &[u8]), Left>
    ensures { Gives (λ x. (x.0, x.1.now)) result (number_read bytes.now) }
{
    let (sign, rest) = read_run(Byte(b'-'), 0, 1, bytes)?;
    let (digits, rest) = read_run(Class::Digit, 1, 15, rest)?;
    let (part, rest) = read_fraction(digits.len(), rest)?;
    match part {
        None => Ok((
            BareItem::Integer(with_sign(sign, number_of(0, digits))),
            rest,
        )),
        Some(part) => Ok((BareItem::Decimal(thousandths(sign, digits, part)), rest)),
    }
}

/// Reads `@`, an optional minus and 1 to 15 digits.
#[tactic(auto, unfolding(crate::specs::tools::BareWalk::date_read), using(crate::proofs::Digits::pow_room))]
pub fn read_date(bytes: &[u8]) -> Result<(BareItem, &[u8]), Left>
    ensures { Gives (λ x. (x.0, x.1.now)) result (date_read bytes.now) }
{
    let (_, rest) = read_byte(Byte(b'@'), bytes)?;
    let (sign, rest) = read_run(Byte(b'-'), 0, 1, rest)?;
    let (digits, rest) = read_run(Class::Digit, 1, 15, rest)?;
    let seconds = with_sign(sign, number_of(0, digits));
    Ok((BareItem::Date(seconds), rest))
}

/// Reads the digits after the point, where a point comes. After more than 12 digits none may.
#[tactic(auto, unfolding(crate::specs::tools::BareWalk::fraction_read, byte_grammar::specs::tools::Walks::optional_read))]
fn read_fraction(digits: usize, bytes: &[u8]) -> Result<(Option<&[u8]>, &[u8]), Left>
    ensures gives { Gives (λ x. (option_map (λ p. p.now) x.0, x.1.now)) result
        (fraction_read digits bytes.now) }
    ensures part { IfOk result (λ x. IfSome x.0 (λ p.
        (digits ≤ 12) × AreBytesOf is_digit 1 3 p.now)) }
{
    if digits > 12 {
        return Ok((None, bytes));
    }
    if !starts_with(Byte(b'.'), bytes) {
        return Ok((None, bytes));
    }
    let (part, rest) = read_part(bytes)?;
    Ok((Some(part), rest))
}

#[tactic(auto, unfolding(crate::specs::tools::BareWalk::part_read))]
fn read_part(bytes: &[u8]) -> Result<(&[u8], &[u8]), Left>
    ensures gives { Gives (λ x. (x.0.now, x.1.now)) result (part_read bytes.now) }
    ensures part { IfOk result (λ x. AreBytesOf is_digit 1 3 x.0.now) }
{
    let (_dot, rest) = read_byte(Byte(b'.'), bytes)?;
    read_run(Class::Digit, 1, 3, rest)
}

/// What the digits spell after the number `start`.
fn number_of(start: u64, digits: &[u8]) -> u64
    requires digits { IsTrue (list_all is_digit digits.now) }
    requires room { (start + 1) * 10 ^ length digits.now ≤ 10 ^ 15 }
    ensures value { result ≡ digits_value_after 10 start digits.now }
    ensures below { (result + 1) ≤ (start + 1) * 10 ^ length digits.now }
{
    let mut total = start;
    for digit in digits {
        total = total * 10 + u64::from(*digit - b'0');
    }
    total
}

/// The number, negative where the sign isn't empty.
fn with_sign(sign: &[u8], number: u64) -> i64
    requires { number < 10 ^ 15 }
    ensures { result ≡ with_sign sign.now number }
{
    if sign.is_empty() {
        return number as i64;
    }
    -(number as i64)
}

/// A Decimal with these digits before and after its point, in thousandths.
fn thousandths(sign: &[u8], digits: &[u8], part: &[u8]) -> i64
    requires digits { IsTrue (list_all is_digit digits.now) }
    requires whole { length digits.now ≤ 12 }
    requires part { AreBytesOf is_digit 1 3 part.now }
    ensures { result ≡ with_sign sign.now
        (digits_value 10 (digits.now ++ part.now) * 10 ^ (3 - length part.now)) }
{
    let whole = number_of(0, digits);
    let number = number_of(whole, part);
    with_sign(sign, to_thousandths(number, part.len()))
}

/// A number with so many digits after its point, in thousandths.
fn to_thousandths(number: u64, digits: usize) -> u64
    requires number { number < 10 ^ 15 }
    requires some { 1 ≤ digits }
    requires few { digits ≤ 3 }
    ensures { result ≡ number * 10 ^ (3 - digits) }
{
    match digits {
        1 => number * 100,
        2 => number * 10,
        _ => number,
    }
}
