//! Reads decimal numbers.
ghost use Rattle.cadence_value.specs.Finds.{Finds};
ghost use Rattle.cadence_value.specs.DenotedNumber.{DenotesDecimal};

use cadence_value::decimal::Decimal;

// Returns the decimal number that a word says. Zeros may follow its decimal places.
pub(crate) fn read_decimal(word: &str) -> Option<Decimal>
    ensures { Finds (DenotesDecimal word.now) result }
{
    let Ok(number) = word.parse::<Decimal>() else {
        return None;
    };
    Some(number)
}

// Returns the decimal number that bytes say. Bytes that are not UTF-8 say none.
pub(crate) fn read_bytes(word: &[u8]) -> Option<Decimal>
    ensures { Finds (DenotesDecimal word.now) result }
{
    let Ok(text) = str::from_utf8(word) else {
        return None;
    };
    read_decimal(text)
}
