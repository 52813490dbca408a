//! Numbers, as the lines of recorded formats have them.

ghost use Rattle.std.specs.Prelude.{◌≡◌, ◌<◌, IfOk, IsTrue};
ghost use Rattle.std.specs.Char.{digit_value};
ghost use Rattle.std.specs.Str.Parse.{digits_value};
ghost use Rattle.byte_grammar.specs.Classes.{is_digit};
ghost use Rattle.byte_grammar.specs.Gives.{Gives};
ghost use Rattle.byte_grammar.specs.Language.{AreBytesOf};
ghost use Rattle.byte_grammar.specs.declared.number.TheConstants.{MAX_NUMBER_DIGITS};
ghost use Rattle.byte_grammar.specs.tools.CountedWalk.{digits_read, number_read};

use crate::class::{Byte, Class};
use crate::readers::{Left, read_byte, read_run, starts_with};

/// How many digits a number may have.
pub const MAX_NUMBER_DIGITS: usize = 15;

/// A number has at most so many digits. The function does nothing; its contract is the law.
pub fn numbers_have_few_digits()
    ensures { MAX_NUMBER_DIGITS ≡ 15 }
{}

/// The value of a digit.
fn digit_value(digit: u8) -> u64
    requires { IsTrue (is_digit digit) }
    ensures value { result ≡ digit_value digit }
    ensures below { result < 10 }
{
    u64::from(digit - b'0')
}

/// The number that the digits write, leading zeros and all. So many digits always fit.
pub fn number_of_digits(digits: &[u8]) -> u64
    requires { AreBytesOf is_digit 1 MAX_NUMBER_DIGITS digits.now }
    ensures { result ≡ digits_value 10 digits.now }
{
    let mut number = 0;
    for digit in digits {
        number = number * 10 + digit_value(*digit);
    }
    number
}

/// The digits of a number, which are not more than one where the first is zero.
#[tactic(auto, unfolding(crate::specs::tools::CountedWalk::digits_read))]
fn read_digits(bytes: &[u8]) -> Result<(&[u8], &[u8]), Left>
    ensures gives { Gives (λ x. (x.0.now, x.1.now)) result (digits_read bytes.now) }
    ensures digits { IfOk result (λ x. AreBytesOf is_digit 1 MAX_NUMBER_DIGITS x.0.now) }
{
    if starts_with(Byte(b'0'), bytes) {
        read_run(Class::Digit, 1, 1, bytes)
    } else {
        read_run(Class::Digit, 1, MAX_NUMBER_DIGITS, bytes)
    }
}

/// Reads a number and the byte after it. The number has no leading zeros.
#[tactic(auto, unfolding(crate::specs::tools::CountedWalk::number_read))]
pub fn read_number(end: u8, bytes: &[u8]) -> Result<(u64, &[u8]), Left>
    ensures { Gives (λ x. (x.0, x.1.now)) result (number_read end bytes.now) }
{
    let (digits, rest) = read_digits(bytes)?;
    let number = number_of_digits(digits);
    let (_end, rest) = read_byte(Byte(end), rest)?;
    Ok((number, rest))
}
