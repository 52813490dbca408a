//! Owned texts of bytes, and what takes in a text piece by piece; classes of bytes, readers of
//! texts from left to right that name the exact offset of a fault, and the laws of the texts that
//! they read.
//!
//! Whatever takes memory answers [`Memory`] where there is none.
//!
//! A class of bytes is what the formats of HTTP call DIGIT, ALPHA, VCHAR, tchar and OWS. Tokens and
//! field names in lower case are tested by name.
//!
//! A reader takes a text's prefix and gives a value with the bytes after it, or says how many bytes
//! were left where it stopped. Counted from the end, a part's fault is the fault of the whole, so
//! it is handed on as it is.
//!
//! ```text
//! is_tchar(b'!') // true
//! is_token(b"X-Id") // true
//! is_field_name(b"X-Id") // false
//! read_run(Class::Digit, 1, 2, b"123;") // Ok((b"12", b"3;"))
//! read_word(Class::Alpha, Class::Tchar, b"a1;") // Ok((b"a1", b";"))
//! read_byte(Byte(b';'), b"a1") // Err(Left(2))
//! read_all(Class::Visible, b"a b") // (b"a", b" b")
//! starts_with(Class::Digit, b"1") // true
//! read_number(b'\n', b"12\n;") // Ok((12, b";"))
//! read_counted(2, b"ab\n;") // Ok((b"ab", b";"))
//! ```
//!
//! `specs/` has the texts of a language, the offset of a fault, causes that are judged in an order,
//! and the readers over lists that the code is compared with. The laws that other crates cite are
//! in `proofs/`:
//!
//! - `Laws`: a reader meets a language (`Meets`) where its parts do: one after another
//!   (`meets_then`, and `meets_then_with` over `Partly`, `partly`), or the same with other values
//!   (`meets_map`, `meets_same`, `meets_done`); it leaves no more bytes than it had (`left_less`).
//!   Of results and what may come next: `the_ok`, `ok_is`, `not_err`, `bind_ok`, `bind_err`,
//!   `as_prefix`, `and_is`, `any_next`, `next_more`.
//! - `LeafLaws`: the readers of bytes meet theirs (`meets_byte`, `meets_run`, `meets_all`,
//!   `meets_word`).
//! - `LiteralLaws`, `NumberLaws`, `CountedLaws`: so do those of a given text, of a number with the
//!   byte after it, and of bytes that a number counts (`meets_literal`, `meets_number`,
//!   `meets_bytes`, `meets_counted`).
//! - `ChoiceLaws`: readers that the first byte chooses (`meets_pick` over `Heads`,
//!   `meets_optional`, `meets_choose`), and what texts begin with and what may come next (`Starts`,
//!   `of_each`, `apart`, `starts_next`, `run_starts`, `optional_follow`).
//! - `TurnLaws`: a text after a text (`meets_turns`, `meets_each`, `turns_step`, `shorter`,
//!   `starts_length`).
//! - `Loops`: a loop does what turns do, with a list (`loop_first`, `loop_last`, `loop_err`,
//!   `loop_more`, `some_next`) or with a state (`state_last`, `state_err`, `state_more`,
//!   `state_cons`).
//! - `Whole`: a reader of whole texts, after which nothing comes (`Nothing`), judges the language
//!   and the offset of each fault (`Judges`, `judges`), of texts with bytes of a class at both ends
//!   too (`meets_padded`); of what is judged in this way a text has one value (`one_value`), and
//!   its text is read (`whole_only`).
//! - `OffsetLaws`: of one language and text two fault offsets are one (`one_offset`); a prefix of
//!   what begins a text begins it too (`begins_shorter`).
//! - `CauseLaws`: of causes that are judged in an order at most one is the first (`first_is_one`).
//! - `AnswerLaws`: where there is at most one fault, each is answered exactly where it is one, out
//!   of memory aside (`answers_where` over `IsMemoryDecided` and `NamesFault`, `memory_if`,
//!   `err_of`).
//! - `ListLaws`: a test that each element passes, of lists that are joined, or parts of one
//!   (`all_joined`, `all_parts`, `all_reverse`, `all_filter`), of another test (`all_implied`,
//!   `all_both`), of the lists of each element (`all_flat`, `all_separated`), and of the parts
//!   between ends (`all_split`).
//! - `Indices`: what holds at an index (`all_at`, `slice_get_take`), the first element that fails
//!   (`find_failed`, `find_none`, `none_fails`), and the facts of a value that is there
//!   (`some_and`, `some_and_at`, `some_and_parts`).
//! - `Tables`: a table that agrees with a class on all bytes says which bytes are of it
//!   (`from_table` over `agree_below`).
//! - `MapLaws`: a map whose keys are owned bytes is a finite map of those bytes (`inserted`,
//!   `looked_up`).
#![tactic(auto)]

mod absorb;
mod class;
mod counted;
mod fed_text;
mod literal;
mod memory;
mod number;
mod readers;
mod sequence;
mod short;
mod text;
mod texts;

pub use absorb::Absorb;
pub use class::{Byte, ByteClass, Class, is_blank, is_tchar};
pub use counted::{read_bytes, read_counted};
pub use fed_text::FedText;
pub use literal::read_literal;
pub use memory::Memory;
pub use number::{MAX_NUMBER_DIGITS, number_of_digits, numbers_have_few_digits, read_number};
pub use readers::{Left, read_all, read_byte, read_run, read_word, starts_with};
pub use sequence::Sequence;
pub use short::IN_PLACE;
pub use text::{Text, append_number, append_words};
pub use texts::{allows_all, is_field_name, is_listed, is_token, rest_after};
