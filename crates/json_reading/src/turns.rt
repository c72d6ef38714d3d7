//! What each byte of a text does, by what comes next there.
ghost use Rattle.std.specs.Prelude.{◌≡◌, ◌+◌, ◌<◌, ◌^◌};
ghost use Rattle.json_reading.specs.Strings as strings;
ghost use Rattle.json_reading.specs.Turns as spec;

use crate::bytes::is_space;
use crate::fault::{JsonFault, JsonKind};
use crate::item::{Container, Span};
use crate::mode::{Inside, Mode, NumberMode, Role, TextMode, Turn, WordMode};
use crate::numbers::{form_begun, form_behind};
use crate::strings::text_turn;
use crate::words::{letter, longer, word_begun, word_kind};

pub(crate) fn stops(kind: JsonKind, at: u32) -> Turn
    ensures { result ≡ strings.stops kind at }
{
    Turn::Stops(JsonFault {
        kind,
        at: at as u64,
    })
}

/// A string begins.
fn quoted(at: u32, role: Role) -> Turn
    ensures { result ≡ spec.quoted at role }
{
    Turn::Goes(Mode::Text(TextMode {
        start: at,
        escaped: false,
        role,
        inside: Inside::Plain,
    }))
}

/// A value that is a number or word begins, or none.
#[tactic(auto, unfolding(crate::specs::Turns::plain_begun))]
fn plain_begun(at: u32, byte: u8) -> Turn
    ensures { result ≡ spec.plain_begun at byte }
{
    match form_begun(byte) {
        Some(form) => Turn::Goes(Mode::Number(NumberMode { start: at, form })),
        None => match word_begun(byte) {
            Some(letters) => Turn::Goes(Mode::Word(WordMode { start: at, letters })),
            None => stops(JsonKind::NotJson, at),
        },
    }
}

/// A value begins, or none.
#[tactic(auto, unfolding(crate::specs::Turns::value_begun))]
fn value_begun(at: u32, byte: u8) -> Turn
    ensures { result ≡ spec.value_begun at byte }
{
    if byte == b'"' {
        quoted(at, Role::Value)
    } else if byte == b'{' {
        Turn::Begins(Container::Object)
    } else if byte == b'[' {
        Turn::Begins(Container::Array)
    } else {
        plain_begun(at, byte)
    }
}

/// A name begins, or none.
#[tactic(auto, unfolding(crate::specs::Turns::name_begun))]
fn name_begun(at: u32, byte: u8) -> Turn
    ensures { result ≡ spec.name_begun at byte }
{
    if byte == b'"' {
        quoted(at, Role::Name)
    } else {
        stops(JsonKind::NotJson, at)
    }
}

#[tactic(auto, unfolding(crate::specs::Turns::at_value))]
fn at_value(at: u32, byte: u8) -> Turn
    ensures { result ≡ spec.at_value at byte }
{
    if is_space(byte) {
        Turn::Goes(Mode::Value)
    } else {
        value_begun(at, byte)
    }
}

#[tactic(auto, unfolding(crate::specs::Turns::at_start))]
fn at_start(at: u32, byte: u8) -> Turn
    ensures { result ≡ spec.at_start at byte }
{
    if byte == 0xEF {
        Turn::Goes(Mode::SecondOfMark)
    } else {
        at_value(at, byte)
    }
}

/// Exactly this byte has to come.
#[tactic(auto, unfolding(crate::specs::Turns::at_byte))]
fn at_byte(at: u32, byte: u8, wanted: u8, mode: Mode) -> Turn
    ensures { result ≡ spec.at_byte at byte wanted mode }
{
    if byte == wanted {
        Turn::Goes(mode)
    } else {
        stops(JsonKind::NotJson, at)
    }
}

#[tactic(auto, unfolding(crate::specs::Turns::at_first_item))]
fn at_first_item(at: u32, byte: u8) -> Turn
    ensures { result ≡ spec.at_first_item at byte }
{
    if is_space(byte) {
        Turn::Goes(Mode::FirstItem)
    } else if byte == b']' {
        Turn::Closes
    } else {
        value_begun(at, byte)
    }
}

#[tactic(auto, unfolding(crate::specs::Turns::at_first_member))]
fn at_first_member(at: u32, byte: u8) -> Turn
    ensures { result ≡ spec.at_first_member at byte }
{
    if is_space(byte) {
        Turn::Goes(Mode::FirstMember)
    } else if byte == b'}' {
        Turn::Closes
    } else {
        name_begun(at, byte)
    }
}

#[tactic(auto, unfolding(crate::specs::Turns::at_name))]
fn at_name(at: u32, byte: u8) -> Turn
    ensures { result ≡ spec.at_name at byte }
{
    if is_space(byte) {
        Turn::Goes(Mode::Name)
    } else {
        name_begun(at, byte)
    }
}

#[tactic(auto, unfolding(crate::specs::Turns::at_colon))]
fn at_colon(at: u32, byte: u8) -> Turn
    ensures { result ≡ spec.at_colon at byte }
{
    if is_space(byte) {
        Turn::Goes(Mode::Colon)
    } else {
        at_byte(at, byte, b':', Mode::Value)
    }
}

/// Behind a value: the comma leads to this, the bracket ends what is open.
#[tactic(auto, unfolding(crate::specs::Turns::at_comma))]
fn at_comma(at: u32, byte: u8, bracket: u8, mode: Mode) -> Turn
    ensures { result ≡ spec.at_comma at byte bracket mode }
{
    if byte == b',' {
        Turn::Goes(mode)
    } else if byte == bracket {
        Turn::Closes
    } else {
        stops(JsonKind::NotJson, at)
    }
}

/// Behind a value inside what is innermost.
#[tactic(auto, unfolding(crate::specs::Turns::behind_inside))]
fn behind_inside(at: u32, byte: u8, innermost: Option<Container>) -> Turn
    ensures { result ≡ spec.behind_inside at byte innermost }
{
    match innermost {
        Some(Container::Object) => at_comma(at, byte, b'}', Mode::Name),
        Some(Container::Array) => at_comma(at, byte, b']', Mode::Value),
        None => stops(JsonKind::NotJson, at),
    }
}

#[tactic(auto, unfolding(crate::specs::Turns::at_behind))]
fn at_behind(at: u32, byte: u8, innermost: Option<Container>) -> Turn
    ensures { result ≡ spec.at_behind at byte innermost }
{
    if is_space(byte) {
        Turn::Goes(Mode::Behind)
    } else {
        behind_inside(at, byte, innermost)
    }
}

#[tactic(auto, unfolding(crate::specs::Turns::in_number))]
fn in_number(at: u32, byte: u8, number: NumberMode) -> Turn
    ensures { result ≡ spec.in_number at byte number }
{
    match form_behind(number.form, byte) {
        Some(form) => Turn::Goes(Mode::Number(NumberMode {
            start: number.start,
            form,
        })),
        None => stops(JsonKind::NotJson, at),
    }
}

/// The letter is the right one.
#[tactic(auto, unfolding(crate::specs::Turns::lettered))]
fn lettered(at: u32, word: WordMode) -> Turn
    requires { at + 1 < 2 ^ 32 }
    ensures { result ≡ spec.lettered at word }
{
    match longer(word.letters) {
        Some(letters) => Turn::Goes(Mode::Word(WordMode {
            start: word.start,
            letters,
        })),
        None => Turn::Tells(
            word_kind(word.letters),
            Span {
                at: word.start,
                end: at + 1,
                escaped: false,
            },
        ),
    }
}

#[tactic(auto, unfolding(crate::specs::Turns::in_word))]
fn in_word(at: u32, byte: u8, word: WordMode) -> Turn
    requires { at + 1 < 2 ^ 32 }
    ensures { result ≡ spec.in_word at byte word }
{
    if byte == letter(word.letters) {
        lettered(at, word)
    } else {
        stops(JsonKind::NotJson, at)
    }
}

/// What a byte does, where a number that it doesn't belong to has ended.
#[tactic(auto, unfolding(crate::specs::Turns::turn))]
pub(crate) fn turn(at: u32, byte: u8, mode: Mode, innermost: Option<Container>) -> Turn
    requires { at + 1 < 2 ^ 32 }
    ensures { result ≡ spec.turn at byte mode innermost }
{
    match mode {
        Mode::Start => at_start(at, byte),
        Mode::SecondOfMark => at_byte(at, byte, 0xBB, Mode::ThirdOfMark),
        Mode::ThirdOfMark => at_byte(at, byte, 0xBF, Mode::Value),
        Mode::Value => at_value(at, byte),
        Mode::FirstItem => at_first_item(at, byte),
        Mode::FirstMember => at_first_member(at, byte),
        Mode::Name => at_name(at, byte),
        Mode::Colon => at_colon(at, byte),
        Mode::Behind => at_behind(at, byte, innermost),
        Mode::Text(text) => text_turn(at, byte, text),
        Mode::Number(number) => in_number(at, byte, number),
        Mode::Word(word) => in_word(at, byte, word),
    }
}
