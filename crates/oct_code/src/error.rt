//! Why digits or a text are no code. Where there are several faults, the first case in the order here is answered.

/// Why digits are no code.
#[derive(Clone, Copy, PartialEq, Eq, Drop)]
pub enum DigitsError {
    /// The head is neither 0 nor 4.
    Head,
    /// There are more than `MAX_DIGITS` digits after the point.
    Long,
    /// A digit after the point is above 7.
    Digit,
    /// The last digit is 0.
    Trailing,
}

/// Why a text is no code's.
#[derive(Clone, Copy, Debug, PartialEq, Eq, Drop)]
pub enum CodeError {
    /// There is no point, more than one byte before the first point, or nothing after it.
    Form,
    /// The byte before the point is neither `0` nor `4`.
    Head,
    /// A byte after the point is none of `0` to `7`.
    Digit,
    /// More than `MAX_DIGITS` digits are left when the zeros at the end are dropped.
    Long,
}
