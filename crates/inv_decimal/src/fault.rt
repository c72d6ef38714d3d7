/// The result's magnitude is `10^18` or more, so no number stands for it.
#[derive(Debug, Clone, Copy, PartialEq, Eq)]
pub struct Overflow;

/// The divisor is zero.
#[derive(Debug, Clone, Copy, PartialEq, Eq)]
pub struct DivisionByZero;

/// Why there is no quotient.
#[derive(Debug, Clone, Copy, PartialEq, Eq)]
pub enum DecFault {
    Overflow,
    DivisionByZero,
}
