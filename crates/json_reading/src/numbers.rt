//! Numbers (RFC 8259, section 6).
ghost use Rattle.std.specs.Prelude.{◌≡◌};
ghost use Rattle.json_reading.specs.Numbers as spec;

use crate::bytes::{is_digit, is_exponent, is_sign};
use crate::mode::Form;

/// What a number is behind its first byte.
pub(crate) fn form_begun(byte: u8) -> Option<Form>
    ensures { result ≡ spec.form_begun byte }
{
    if byte == b'-' {
        Some(Form::Minus)
    } else {
        integer_begun(byte)
    }
}

fn integer_begun(byte: u8) -> Option<Form>
    ensures { result ≡ spec.integer_begun byte }
{
    if byte == b'0' {
        Some(Form::Zero)
    } else {
        digit_to(Form::Integer, byte)
    }
}

fn digit_to(form: Form, byte: u8) -> Option<Form>
    ensures { result ≡ spec.digit_to form byte }
{
    if is_digit(byte) { Some(form) } else { None }
}

fn exponent_begun(byte: u8) -> Option<Form>
    ensures { result ≡ spec.exponent_begun byte }
{
    if is_exponent(byte) {
        Some(Form::Exponent)
    } else {
        None
    }
}

fn behind_zero(byte: u8) -> Option<Form>
    ensures { result ≡ spec.behind_zero byte }
{
    if byte == b'.' {
        Some(Form::Point)
    } else {
        exponent_begun(byte)
    }
}

fn behind_integer(byte: u8) -> Option<Form>
    ensures { result ≡ spec.behind_integer byte }
{
    if is_digit(byte) {
        Some(Form::Integer)
    } else {
        behind_zero(byte)
    }
}

fn behind_fraction(byte: u8) -> Option<Form>
    ensures { result ≡ spec.behind_fraction byte }
{
    if is_digit(byte) {
        Some(Form::Fraction)
    } else {
        exponent_begun(byte)
    }
}

fn behind_exponent(byte: u8) -> Option<Form>
    ensures { result ≡ spec.behind_exponent byte }
{
    if is_sign(byte) {
        Some(Form::Sign)
    } else {
        digit_to(Form::Power, byte)
    }
}

/// What a number is behind one more byte, where that belongs to it.
#[tactic(auto, unfolding(crate::specs::Numbers::form_behind))]
pub(crate) fn form_behind(form: Form, byte: u8) -> Option<Form>
    ensures { result ≡ spec.form_behind form byte }
{
    match form {
        Form::Minus => integer_begun(byte),
        Form::Zero => behind_zero(byte),
        Form::Integer => behind_integer(byte),
        Form::Point => digit_to(Form::Fraction, byte),
        Form::Fraction => behind_fraction(byte),
        Form::Exponent => behind_exponent(byte),
        Form::Sign => digit_to(Form::Power, byte),
        Form::Power => digit_to(Form::Power, byte),
    }
}

/// Whether a number may end here.
pub(crate) fn is_whole(form: Form) -> bool
    ensures { result ≡ spec.is_whole form }
{
    match form {
        Form::Minus => false,
        Form::Zero => true,
        Form::Integer => true,
        Form::Point => false,
        Form::Fraction => true,
        Form::Exponent => false,
        Form::Sign => false,
        Form::Power => true,
    }
}
