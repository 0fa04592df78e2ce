//! How a line is cut into its first word and its fields.
ghost use Rattle.std.specs.Prelude.{◌≡◌, ◌++◌, ◌∷◌, ℕ, List, []};
ghost use Rattle.std.specs.Option.{option_map_or};
ghost use Rattle.hy_script.specs.Lines.{pieces_of, words_of};
ghost use Rattle.hy_script.specs.Fields.{HasFields, HasWords, number_field, one_number, two_numbers, three_numbers};
ghost use Rattle.hy_script.specs.Fields.{four_numbers, number_and_text, three_numbers_and_text, no_fields};
ghost use Rattle.std.specs.Result.{result_map_both};

use crate::Why;
use crate::cut::cut;
use hy_base::read_number;

/// The fields of a line: none of them is empty, unless there are too many anyway.
#[derive(Clone, Copy)]
pub enum Fields<'a> {
    Zero,
    One(&'a [u8]),
    Two(&'a [u8], &'a [u8]),
    Three(&'a [u8], &'a [u8], &'a [u8]),
    Four(&'a [u8], &'a [u8], &'a [u8], &'a [u8]),
    Five(&'a [u8], &'a [u8], &'a [u8], &'a [u8], &'a [u8]),
    /// One is empty, or there are more than five.
    Bad,
}

impl<'a> Fields<'a> {
    // These fields, and one more.
    fn with(self, field: &'a [u8]) -> Fields<'a>
        ensures { (words : List (List ℕ)) → HasFields self.entry words → HasFields result (words ++ field.now ∷ []) }
    {
        if field.is_empty() {
            return Fields::Bad;
        }
        match self {
            Fields::Zero => Fields::One(field),
            Fields::One(a) => Fields::Two(a, field),
            Fields::Two(a, b) => Fields::Three(a, b, field),
            Fields::Three(a, b, c) => Fields::Four(a, b, c, field),
            Fields::Four(a, b, c, d) => Fields::Five(a, b, c, d, field),
            Fields::Five(..) | Fields::Bad => Fields::Bad,
        }
    }
}

fn fields_of(mut rest: Option<&[u8]>) -> Fields<'_>
    ensures { HasFields result (option_map_or (λ bytes. pieces_of 32 bytes.now) rest.entry []) }
{
    let mut fields = Fields::Zero;
    while let Some(bytes) = rest {
        let (field, more) = cut(b' ', bytes);
        fields = fields.with(field);
        rest = more;
    }
    fields
}

/// The first word of a line, and its fields.
pub fn cut_fields(line: &[u8]) -> (&[u8], Fields<'_>)
    ensures { HasWords (words_of line.now) result.0.now result.1 }
{
    let (word, rest) = cut(b' ', line);
    (word, fields_of(rest))
}

fn number_field(field: &[u8]) -> Result<u64, Why>
    ensures { result ≡ number_field field.now }
{
    read_number(field).ok_or(Why::Number)
}

/// The number that is the only field.
pub fn one_number(fields: Fields<'_>) -> Result<u64, Why>
    ensures { (words : List (List ℕ)) → HasFields fields.entry words → result ≡ one_number words }
{
    match fields {
        Fields::One(a) => number_field(a),
        _ => Err(Why::Form),
    }
}

/// The two numbers that are the fields.
pub fn two_numbers(fields: Fields<'_>) -> Result<(u64, u64), Why>
    ensures { (words : List (List ℕ)) → HasFields fields.entry words → result ≡ two_numbers words }
{
    match fields {
        Fields::Two(a, b) => Ok((number_field(a)?, number_field(b)?)),
        _ => Err(Why::Form),
    }
}

/// The three numbers that are the fields.
pub fn three_numbers(fields: Fields<'_>) -> Result<(u64, u64, u64), Why>
    ensures { (words : List (List ℕ)) → HasFields fields.entry words → result ≡ three_numbers words }
{
    match fields {
        Fields::Three(a, b, c) => Ok((number_field(a)?, number_field(b)?, number_field(c)?)),
        _ => Err(Why::Form),
    }
}

/// The four numbers that are the fields.
pub fn four_numbers(fields: Fields<'_>) -> Result<(u64, u64, u64, u64), Why>
    ensures { (words : List (List ℕ)) → HasFields fields.entry words → result ≡ four_numbers words }
{
    match fields {
        Fields::Four(a, b, c, d) => {
            Ok((
                number_field(a)?,
                number_field(b)?,
                number_field(c)?,
                number_field(d)?,
            ))
        }
        _ => Err(Why::Form),
    }
}

/// The number and the text that are the fields.
pub fn number_and_text(fields: Fields<'_>) -> Result<(u64, &[u8]), Why>
    ensures { (words : List (List ℕ)) → HasFields fields.entry words
        → result_map_both (λ p. (p.0, p.1.now)) (λ why. why) result ≡ number_and_text words }
{
    match fields {
        Fields::Two(a, text) => Ok((number_field(a)?, text)),
        _ => Err(Why::Form),
    }
}

/// The three numbers and the text that are the fields.
pub fn three_numbers_and_text(fields: Fields<'_>) -> Result<(u64, u64, u64, &[u8]), Why>
    ensures { (words : List (List ℕ)) → HasFields fields.entry words
        → result_map_both (λ p. (p.0, p.1, p.2, p.3.now)) (λ why. why) result ≡ three_numbers_and_text words }
{
    match fields {
        Fields::Four(a, b, c, text) => {
            Ok((number_field(a)?, number_field(b)?, number_field(c)?, text))
        }
        _ => Err(Why::Form),
    }
}

/// Answers whether there are no fields.
pub fn no_fields(fields: Fields<'_>) -> Result<(), Why>
    ensures { (words : List (List ℕ)) → HasFields fields.entry words → result ≡ no_fields words }
{
    match fields {
        Fields::Zero => Ok(()),
        _ => Err(Why::Form),
    }
}
