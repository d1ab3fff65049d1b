//! Laws of fields.

ghost use Rattle.std.specs.Prelude.{◌<◌, ◌≤◌, ◌≡◌, ◌↔◌, ℕ, List, Some, IsTrue, decimal};
ghost use Rattle.fibs_fields.specs.Decimal.{decimal_up_to, numbers_of_64_bits};
ghost use Rattle.fibs_fields.specs.Bytes.{name_bytes, tail_bytes, word_bytes};

use crate::fault::{Fault, FieldFault};
use crate::name::Name;
use crate::word::{Tail, Word};

/// Two faults are equal exactly if they are one.
pub fn faults_are_themselves(a: Fault, b: Fault) -> bool
    ensures { IsTrue result ↔ (a ≡ b) }
{
    a == b
}

/// Two wrong fields are equal exactly if their numbers and their faults are.
pub fn field_faults_are_their_parts(a: &FieldFault, b: &FieldFault) -> bool
    ensures { IsTrue result ↔ (a.now ≡ b.now) }
{
    *a == *b
}

/// Two names are equal exactly if their bytes are.
pub fn names_are_their_bytes(a: &Name<'_>, b: &Name<'_>) -> bool
    ensures { IsTrue result ↔ (name_bytes a.now ≡ name_bytes b.now) }
{
    *a == *b
}

/// Two words are equal exactly if their bytes are.
pub fn words_are_their_bytes(a: &Word<'_>, b: &Word<'_>) -> bool
    ensures { IsTrue result ↔ (word_bytes a.now ≡ word_bytes b.now) }
{
    *a == *b
}

/// Two tails are equal exactly if their bytes are.
pub fn tails_are_their_bytes(a: &Tail<'_>, b: &Tail<'_>) -> bool
    ensures { IsTrue result ↔ (tail_bytes a.now ≡ tail_bytes b.now) }
{
    *a == *b
}

/// A text is read as a number up to a limit exactly if it is what is written of that number.
pub fn decimals_are_exact()
    ensures { (limit n : ℕ) → (text : List ℕ) → limit < numbers_of_64_bits →
        (decimal_up_to limit text ≡ Some n) ↔ ((text ≡ decimal n) × (n ≤ limit)) }
{}
