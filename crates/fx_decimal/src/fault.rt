/// Why a text is no numeral, or one that is out of range.
#[derive(Clone, Copy, Debug)]
pub enum DecimalFault {
    /// The text ends while a digit is still needed.
    Empty,
    /// The first byte, counted from 0, that cannot continue a numeral.
    BadByte(usize),
    /// More than `MOST_DIGITS` digits between the zeros at both ends.
    TooManyDigits,
    /// The last digit that is not zero stands below 10^-`GREATEST_TEN`.
    TooFine,
    /// The magnitude is 2^`VALUE_BITS` or more.
    TooLarge,
}
