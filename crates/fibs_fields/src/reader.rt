//! The fields of a line, read from left to right.

ghost use Rattle.std.specs.Prelude.{◌≡◌, ℕ, [], Ok};
ghost use Rattle.fibs_fields.specs.Field.{NameField, WordField, TailField, FlagField, NumberField, RatingField, TextField, a_name, a_word, a_tail, a_flag, a_number, a_rating, a_text};
ghost use Rattle.fibs_fields.specs.FieldReading.{Gives, left, left_of, text_at, field_at, next_at, this_word, end_at};
ghost use Rattle.fibs_fields.specs.Split.{seen};
ghost use Rattle.fibs_fields.specs.Decimal.{number_in};
ghost use Rattle.fibs_fields.specs.Bytes.{name_bytes, word_bytes, tail_bytes};

use crate::decimal::{digit_in, flag_in, number_in, unsigned_in};
use crate::fault::{Fault, FieldFault};
use crate::name::Name;
use crate::rating::rating_in;
use crate::split::{one_before, split};
use crate::values::Values;
use crate::word::{Tail, Word};

/// What is left of a line: what comes after the last separator, or nothing.
#[derive(Drop)]
pub struct Fields<'a> {
    separator: u8,
    rest: Option<&'a [u8]>,
}

impl<'a> Fields<'a> {
    pub fn new(rest: Option<&'a [u8]>, separator: u8) -> Fields<'a>
        ensures { left_of result ≡ left separator (seen rest.entry) }
    {
        Fields { separator, rest }
    }

    /// The text up to the next separator.
    #[inline(always)]
    #[tactic(auto, unfolding(crate::specs::FieldReading::text_at))]
    fn piece(&mut self, field: usize) -> Result<&'a [u8], FieldFault>
        ensures { Gives (λ text. (text.now, left_of self.new)) result (text_at a_name field (left_of self.old)) }
    {
        match self.rest {
            Some(rest) => {
                let (piece, after) = split(rest, self.separator);
                self.rest = after;
                Ok(piece)
            }
            None => Err(FieldFault {
                field,
                fault: Fault::Missing,
            }),
        }
    }

    /// The next field, which has to be this word.
    #[tactic(auto, unfolding(crate::specs::FieldReading::next_at, crate::specs::FieldReading::text_at))]
    pub(crate) fn this_word(&mut self, word: &[u8], field: usize) -> Result<(), FieldFault>
        ensures { Gives (λ _. (word.now, left_of self.new)) result
            (next_at (this_word word.now) field (left_of self.old)) }
    {
        if self.piece(field)? == word {
            Ok(())
        } else {
            Err(FieldFault {
                field,
                fault: Fault::BadName,
            })
        }
    }

    /// The next field as one of these numbers, however many digits it has.
    #[inline(always)]
    #[tactic(auto, unfolding(crate::specs::FieldReading::next_at, crate::specs::FieldReading::text_at))]
    fn any_number_of(&mut self, values: Values, field: usize) -> Result<i32, FieldFault>
        ensures { Gives (λ number. (number, left_of self.new)) result
            (next_at (number_in values) field (left_of self.old)) }
    {
        let piece = self.piece(field)?;
        match number_in(values, piece) {
            Ok(number) => Ok(number),
            Err(fault) => Err(FieldFault { field, fault }),
        }
    }

    /// The next field as one of these numbers. One digit, as most numbers of a board are, is read without a search.
    #[inline(always)]
    #[tactic(auto, unfolding(crate::specs::FieldReading::next_at, crate::specs::FieldReading::text_at))]
    pub fn number_of(&mut self, values: Values, field: usize) -> Result<i32, FieldFault>
        ensures { Gives (λ number. (number, left_of self.new)) result
            (next_at (number_in values) field (left_of self.old)) }
    {
        if let Some(rest) = self.rest {
            if let Some((digit, after)) = one_before(rest, self.separator) {
                self.rest = Some(after);
                return match digit_in(values, digit) {
                    Ok(number) => Ok(number),
                    Err(fault) => Err(FieldFault { field, fault }),
                };
            }
        }
        self.any_number_of(values, field)
    }

    /// The next field as a name, if it ends the line or is not a name.
    #[inline(never)]
    #[tactic(auto, unfolding(crate::specs::FieldReading::field_at, crate::specs::FieldReading::text_at, crate::specs::FieldReading::value_in))]
    fn any_name(&mut self, field: usize) -> Result<Name<'a>, FieldFault>
        ensures { Gives (λ name. (NameField (name_bytes name), left_of self.new)) result
            (field_at a_name field (left_of self.old)) }
    {
        let piece = self.piece(field)?;
        match Name::new(piece) {
            Some(name) => Ok(name),
            None => Err(FieldFault {
                field,
                fault: Fault::BadName,
            }),
        }
    }

    /// The next field as a name. If a separator follows it, it is found in one pass with it.
    #[inline(always)]
    #[tactic(auto, unfolding(crate::specs::FieldReading::field_at, crate::specs::FieldReading::text_at, crate::specs::FieldReading::value_in))]
    pub fn name(&mut self, field: usize) -> Result<Name<'a>, FieldFault>
        ensures { Gives (λ name. (NameField (name_bytes name), left_of self.new)) result
            (field_at a_name field (left_of self.old)) }
    {
        if let Some(rest) = self.rest {
            if let Some((name, after)) = Name::before(rest, self.separator) {
                self.rest = Some(after);
                return Ok(name);
            }
        }
        self.any_name(field)
    }

    /// The next field as a word.
    #[inline(always)]
    #[tactic(auto, unfolding(crate::specs::FieldReading::field_at, crate::specs::FieldReading::text_at, crate::specs::FieldReading::value_in))]
    pub fn word(&mut self, field: usize) -> Result<Word<'a>, FieldFault>
        ensures { Gives (λ word. (WordField (word_bytes word), left_of self.new)) result
            (field_at a_word field (left_of self.old)) }
    {
        let piece = self.piece(field)?;
        match Word::new(piece) {
            Some(word) => Ok(word),
            None => Err(FieldFault {
                field,
                fault: Fault::BadName,
            }),
        }
    }

    /// The next field as a flag.
    #[inline(always)]
    #[tactic(auto, unfolding(crate::specs::FieldReading::field_at, crate::specs::FieldReading::text_at, crate::specs::FieldReading::value_in))]
    pub fn flag(&mut self, field: usize) -> Result<bool, FieldFault>
        ensures { Gives (λ flag. (FlagField flag, left_of self.new)) result
            (field_at a_flag field (left_of self.old)) }
    {
        let piece = self.piece(field)?;
        match flag_in(piece) {
            Ok(flag) => Ok(flag),
            Err(fault) => Err(FieldFault { field, fault }),
        }
    }

    /// The next field as a number of 64 bits.
    #[inline(always)]
    #[tactic(auto, unfolding(crate::specs::FieldReading::field_at, crate::specs::FieldReading::text_at, crate::specs::FieldReading::value_in))]
    pub fn number(&mut self, field: usize) -> Result<u64, FieldFault>
        ensures { Gives (λ number. (NumberField number, left_of self.new)) result
            (field_at a_number field (left_of self.old)) }
    {
        let piece = self.piece(field)?;
        match unsigned_in(piece) {
            Ok(number) => Ok(number),
            Err(fault) => Err(FieldFault { field, fault }),
        }
    }

    /// The next field as a rating in hundredths.
    #[inline(always)]
    #[tactic(auto, unfolding(crate::specs::FieldReading::field_at, crate::specs::FieldReading::text_at, crate::specs::FieldReading::value_in))]
    pub fn rating(&mut self, field: usize) -> Result<u32, FieldFault>
        ensures { Gives (λ rating. (RatingField rating, left_of self.new)) result
            (field_at a_rating field (left_of self.old)) }
    {
        let piece = self.piece(field)?;
        match rating_in(piece) {
            Ok(rating) => Ok(rating),
            Err(fault) => Err(FieldFault { field, fault }),
        }
    }

    /// All that is left as a tail.
    #[tactic(auto, unfolding(crate::specs::FieldReading::field_at, crate::specs::FieldReading::text_at, crate::specs::FieldReading::value_in))]
    pub fn tail(&mut self, field: usize) -> Result<Tail<'a>, FieldFault>
        ensures { Gives (λ tail. (TailField (tail_bytes tail), left_of self.new)) result
            (field_at a_tail field (left_of self.old)) }
    {
        let Some(rest) = self.rest else {
            return Err(FieldFault {
                field,
                fault: Fault::Missing,
            });
        };
        self.rest = None;
        match Tail::new(rest) {
            Some(tail) => Ok(tail),
            None => Err(FieldFault {
                field,
                fault: Fault::BadName,
            }),
        }
    }

    /// All that is left, which may be nothing. A text is never wrong, whichever field it is.
    #[tactic(auto, unfolding(crate::specs::FieldReading::field_at, crate::specs::FieldReading::text_at, crate::specs::FieldReading::value_in))]
    pub fn text(&mut self) -> &'a [u8]
        ensures { (field : ℕ) → field_at a_text field (left_of self.old) ≡ Ok (TextField result.now, left_of self.new) }
    {
        match self.rest {
            Some(rest) => {
                self.rest = None;
                rest
            }
            None => &[],
        }
    }

    /// Nothing is left.
    #[tactic(auto, unfolding(crate::specs::FieldReading::end_at))]
    pub fn end(&self, field: usize) -> Result<(), FieldFault>
        ensures { Gives (λ _. []) result (end_at field (left_of self.now)) }
    {
        match self.rest {
            None => Ok(()),
            Some(_) => Err(FieldFault {
                field,
                fault: Fault::Extra,
            }),
        }
    }
}
