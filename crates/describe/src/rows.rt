//! Tables of explanations: the first row that applies is used, its parts in order.
ghost use Rattle.std.specs.Prelude.{◌≡◌, ◌≤◌, ◌<◌, ◌+◌, ◌^◌, ◌++◌, length, IsTrue};
ghost use Rattle.arrayvec.specs.ArrayVec.{array_vec_len};
ghost use Rattle.describe.specs.Rows.{applies, choice_text, fits, longest, most_of, part_text, parts_of, parts_text, part_most, phrase_of, phrases_of, row_text, rows_of};

use crate::fields::{Field, value_of};
use crate::pieces::{Words, push_field, push_hex, push_states, push_text};

/// How a part of an explanation is made, with the text next to it.
#[derive(Clone, Copy)]
pub(crate) enum Part {
    /// The text.
    Text,
    /// The text and a field in decimal digits.
    Number(Field),
    /// The text and a field in two hexadecimal digits.
    Hex(Field),
    /// The text that a field selects of those between bars, the first at 0, and nothing after the
    /// last.
    Choice(Field),
    /// The text, and the names of those of eight functions that are on, or that all are off: the
    /// number of the first, and the field that holds it in bit 0.
    On(u8, Field),
}

/// A field, and the value that it must have.
pub(crate) type Test = (Field, u16);

/// A part, and its text.
pub(crate) type Phrase = (Part, &'static str);

/// A row of a table: the values that fields must have, and the explanation. Rows are tuples,
/// because clauses see a constant only if none of its own types holds a reference.
pub(crate) type Row = (&'static [Test], &'static [Phrase]);

/// Whether each field has its value.
fn applies(when: &[Test], bytes: &[u8]) -> bool
    requires { length bytes.now < 2 ^ 16 }
    ensures { result ≡ applies when.now bytes.now }
{
    when.iter()
        .all(|(field, number)| value_of(*field, bytes) == *number)
}

/// Returns the explanation of the first row that applies.
#[tactic(auto, unfolding(crate::specs::Rows::parts_of, crate::specs::Rows::fits, crate::specs::Rows::most_of))]
fn parts_of(rows: &[Row], bytes: &[u8]) -> &'static [Phrase]
    requires size { length bytes.now < 2 ^ 16 }
    requires fits { IsTrue (fits (rows_of rows.now)) }
    ensures value { phrases_of result.now ≡ parts_of (rows_of rows.now) bytes.now }
    ensures most { most_of (phrases_of result.now) ≤ 250 }
{
    for row in rows {
        let (when, says) = *row;
        if applies(when, bytes) {
            return says;
        }
    }
    &[]
}

/// Appends the text that a number selects of those between bars.
#[tactic(auto, using(crate::proofs::Choices::choice_length), unfolding(crate::specs::Rows::choice_text))]
fn push_choice(words: &mut Words, texts: &str, number: u16)
    requires { array_vec_len words.old + longest texts.now ≤ 400 }
    ensures text { words.new.items ≡ words.old.items ++ choice_text texts.now number }
    ensures len { array_vec_len words.new ≤ array_vec_len words.old + longest texts.now }
{
    let mut before = number;
    for byte in texts.as_bytes() {
        match (*byte, before) {
            (b'|', 0) => break,
            (b'|', _) => before -= 1,
            (byte, 0) => words.push(byte),
            _ => {}
        }
    }
}

/// Appends a part.
fn push_part(words: &mut Words, said: &Phrase, bytes: &[u8])
    requires size { length bytes.now < 2 ^ 16 }
    requires room { array_vec_len words.old + part_most (phrase_of said.now) ≤ 400 }
    ensures text { words.new.items ≡ words.old.items ++ part_text bytes.now (phrase_of said.now) }
    ensures len { array_vec_len words.new
        ≤ array_vec_len words.old + part_most (phrase_of said.now) }
{
    let (part, text) = *said;
    match part {
        Part::Text => push_text(words, text),
        Part::Number(field) => push_field(words, text, value_of(field, bytes)),
        Part::Hex(field) => {
            push_text(words, text);
            push_hex(words, (value_of(field, bytes) % 256) as u8);
        }
        Part::Choice(field) => push_choice(words, text, value_of(field, bytes)),
        Part::On(first, field) => {
            push_text(words, text);
            push_states(words, u16::from(first), value_of(field, bytes));
        }
    }
}

/// Appends parts.
#[tactic(auto, unfolding(crate::specs::Rows::parts_text, crate::specs::Rows::most_of))]
fn push_parts(words: &mut Words, parts: &[Phrase], bytes: &[u8])
    requires size { length bytes.now < 2 ^ 16 }
    requires room { array_vec_len words.old + most_of (phrases_of parts.now) ≤ 400 }
    ensures text { words.new.items
        ≡ words.old.items ++ parts_text bytes.now (phrases_of parts.now) }
    ensures len { array_vec_len words.new
        ≤ array_vec_len words.old + most_of (phrases_of parts.now) }
{
    for part in parts {
        push_part(words, part, bytes);
    }
}

/// Appends the explanation of the first row that applies.
pub(crate) fn push_row(words: &mut Words, rows: &[Row], bytes: &[u8])
    requires size { length bytes.now < 2 ^ 16 }
    requires fits { IsTrue (fits (rows_of rows.now)) }
    requires room { array_vec_len words.old + 250 ≤ 400 }
    ensures text { words.new.items ≡ words.old.items ++ row_text (rows_of rows.now) bytes.now }
    ensures len { array_vec_len words.new ≤ array_vec_len words.old + 250 }
{
    push_parts(words, parts_of(rows, bytes), bytes);
}
