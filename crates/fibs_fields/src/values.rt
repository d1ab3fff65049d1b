//! The numbers that a field may have.

ghost use Rattle.std.specs.Prelude.{◌≡◌};
ghost use Rattle.fibs_fields.specs.Decimal.{allows};
ghost use Rattle.fibs_fields.specs.DecimalReading.{IsNarrow};

/// The numbers that a field may have.
#[derive(Clone, Copy, Debug)]
pub enum Values {
    /// From the first up to the second.
    Between(i32, i32),
    /// Just these two.
    Either(i32, i32),
}

/// Whether a field may have the number.
pub fn allows(values: Values, number: i64) -> bool
    ensures test { result ≡ allows values number }
    ensures narrow { IsNarrow values }
{
    match values {
        Values::Between(low, high) => i64::from(low) <= number && number <= i64::from(high),
        Values::Either(one, other) => number == i64::from(one) || number == i64::from(other),
    }
}
