ghost use Rattle.std.specs.Prelude.{◌≡◌, ◌<◌, ◌+◌, ◌^◌, ℕ, List, [], length, true, false};
ghost use Rattle.invoice_cli.specs.Job as spec;
ghost use Rattle.invoice_cli.specs.Job.{Job, job, outline, words_of};
ghost use Rattle.invoice_cli.specs.Commands.{asked, asked_by, by_operand, given_options};
ghost use Rattle.invoice_cli.specs.declared.options.Optioned.TheVariants as commands;

use crate::options::{Given, NO_RULES, NONE_GIVEN, Optioned, RuleFiles, scan};
use bind_meaning::Syntax;
use invoice_jobs::{AnswerFormat, Sources};
use job_protocol::ReportFormat;
use trial_invoice::MOST_LINES;

/// The greatest number of an attached document.
const MOST_DOCUMENTS: u32 = 9_999;

/// What the words ask for.
#[derive(Clone, Copy)]
pub(crate) enum Command<'w> {
    Outline(&'w str),
    /// In a format, with the files beside the document, as far as they are named.
    Show(AnswerFormat, Sources<'w>, &'w str),
    /// Likewise.
    Totals(AnswerFormat, Sources<'w>, &'w str),
    /// The page of an invoice, likewise.
    View(Sources<'w>, &'w str),
    Convert(Syntax, Sources<'w>, &'w str),
    /// The same, where nothing of the document is lost.
    ConvertWhole(Syntax, Sources<'w>, &'w str),
    /// How the report is to be written, the phase, if one is named, and the document. The rule files are named beside.
    Check(ReportFormat, Option<&'w str>, &'w str),
    /// How the report is to be written, the files beside the document, and the document.
    Validate(ReportFormat, Sources<'w>, &'w str),
    /// With the number of the attached document, from 1.
    Extract(u32, &'w str),
    /// An expression, and the document at which it is evaluated.
    Query(&'w str, &'w str),
    /// With the number of lines.
    Trial(u32),
    Help,
    Version,
    /// The number of the first word that fits no command, from 1.
    BadWord(u64),
}

/// A command with the rule files that are named.
#[derive(Clone, Copy)]
pub(crate) struct Asked<'w> {
    pub(crate) command: Command<'w>,
    pub(crate) rules: RuleFiles<'w>,
}

/// What the words behind the program's name ask for.
pub(crate) fn command_of(words: &[String]) -> Asked<'_>
    ensures { asked result ≡ job (words_of words.now) }
{
    match words.split_first() {
        None => without_rules(Command::BadWord(1)),
        Some((command, rest)) => match command.as_str() {
            "outline" => without_rules(outline_of(rest)),
            "show" => without_rules(show_of(rest)),
            "totals" => without_rules(totals_of(rest)),
            "view" => without_rules(view_of(rest)),
            "convert" => without_rules(convert_of(rest)),
            "check" => check_of(rest),
            "validate" => without_rules(validate_of(rest)),
            "extract" => without_rules(extract_of(rest)),
            "query" => without_rules(query_of(rest)),
            "try" => without_rules(try_of(rest)),
            "--help" => without_rules(with_no_more(2, Command::Help, rest)),
            "--version" => without_rules(with_no_more(2, Command::Version, rest)),
            _ => without_rules(Command::BadWord(1)),
        },
    }
}

/// A command for which no rule file is named.
fn without_rules<'w>(command: Command<'w>) -> Asked<'w>
    ensures { asked result ≡ asked_by [] command.entry }
{
    Asked {
        command,
        rules: NO_RULES,
    }
}

/// The command, where no word is left behind it; else that word is bad.
fn with_no_more<'w>(number: u64, command: Command<'w>, rest: &[String]) -> Command<'w>
    ensures { asked_by [] result ≡ spec.with_no_more number (asked_by [] command.entry) (words_of rest.now) }
{
    if rest.is_empty() {
        command
    } else {
        Command::BadWord(number)
    }
}

/// The word of this number as the last operand, or the number of the first word that doesn't fit.
fn last_operand(number: u64, words: &[String]) -> Result<&str, u64>
    requires { number + length words.now < 2 ^ 64 }
    ensures { (make : List ℕ → Job) → by_operand make result ≡ spec.last_operand make number (words_of words.now) }
{
    match words.split_first() {
        None => Err(number),
        Some((word, rest)) => {
            if word.as_bytes().starts_with(b"--") {
                Err(number)
            } else if rest.is_empty() {
                Ok(word.as_str())
            } else {
                Err(number + 1)
            }
        }
    }
}

/// The outline of the file that the words behind `outline` name.
fn outline_of(words: &[String]) -> Command<'_>
    requires { 2 + length words.now < 2 ^ 64 }
    ensures { asked_by [] result ≡ spec.last_operand outline 2 (words_of words.now) }
{
    match last_operand(2, words) {
        Ok(file) => Command::Outline(file),
        Err(number) => Command::BadWord(number),
    }
}

/// The listing that the words behind `show` ask for.
fn show_of(words: &[String]) -> Command<'_>
    requires { 2 + length words.now < 2 ^ 64 }
    ensures { asked_by [] result ≡ spec.optioned commands.Show spec.show_of spec.none_given 2 (words_of words.now) }
{
    let found = scan(Optioned::Show, &NONE_GIVEN, 2, words);
    match found.bad {
        Some(number) => Command::BadWord(number),
        None => show_with(&found.given, found.number, found.words),
    }
}

fn show_with<'w>(given: &Given<'w>, number: u64, words: &'w [String]) -> Command<'w>
    requires { number + length words.now < 2 ^ 64 }
    ensures { asked_by [] result ≡ spec.show_of (given_options given.now) number (words_of words.now) }
{
    match last_operand(number, words) {
        Ok(file) => Command::Show(format_of(given.json), given.sources, file),
        Err(number) => Command::BadWord(number),
    }
}

fn format_of(json: bool) -> AnswerFormat
    ensures { result ≡ spec.format_of json }
{
    if json {
        AnswerFormat::Json
    } else {
        AnswerFormat::Lines
    }
}

fn report_format(json: bool, svrl: bool) -> ReportFormat
    ensures { result ≡ spec.report_format json svrl }
{
    if json {
        ReportFormat::Json
    } else if svrl {
        ReportFormat::Svrl
    } else {
        ReportFormat::Plain
    }
}

/// The comparison that the words behind `totals` ask for.
fn totals_of(words: &[String]) -> Command<'_>
    requires { 2 + length words.now < 2 ^ 64 }
    ensures { asked_by [] result ≡ spec.optioned commands.Totals spec.totals_of spec.none_given 2 (words_of words.now) }
{
    let found = scan(Optioned::Totals, &NONE_GIVEN, 2, words);
    match found.bad {
        Some(number) => Command::BadWord(number),
        None => totals_with(&found.given, found.number, found.words),
    }
}

fn totals_with<'w>(given: &Given<'w>, number: u64, words: &'w [String]) -> Command<'w>
    requires { number + length words.now < 2 ^ 64 }
    ensures { asked_by [] result ≡ spec.totals_of (given_options given.now) number (words_of words.now) }
{
    match last_operand(number, words) {
        Ok(file) => Command::Totals(format_of(given.json), given.sources, file),
        Err(number) => Command::BadWord(number),
    }
}

/// The page that the words behind `view` ask for.
fn view_of(words: &[String]) -> Command<'_>
    requires { 2 + length words.now < 2 ^ 64 }
    ensures { asked_by [] result ≡ spec.optioned commands.View spec.view_of spec.none_given 2 (words_of words.now) }
{
    let found = scan(Optioned::View, &NONE_GIVEN, 2, words);
    match found.bad {
        Some(number) => Command::BadWord(number),
        None => view_with(&found.given, found.number, found.words),
    }
}

fn view_with<'w>(given: &Given<'w>, number: u64, words: &'w [String]) -> Command<'w>
    requires { number + length words.now < 2 ^ 64 }
    ensures { asked_by [] result ≡ spec.view_of (given_options given.now) number (words_of words.now) }
{
    match last_operand(number, words) {
        Ok(file) => Command::View(given.sources, file),
        Err(number) => Command::BadWord(number),
    }
}

/// The conversion that the words behind `convert` ask for.
fn convert_of(words: &[String]) -> Command<'_>
    requires { 2 + length words.now < 2 ^ 64 }
    ensures { asked_by [] result ≡ spec.optioned commands.Convert spec.convert_of spec.none_given 2 (words_of words.now) }
{
    let found = scan(Optioned::Convert, &NONE_GIVEN, 2, words);
    match found.bad {
        Some(number) => Command::BadWord(number),
        None => convert_with(&found.given, found.number, found.words),
    }
}

fn convert_with<'w>(given: &Given<'w>, number: u64, words: &'w [String]) -> Command<'w>
    requires { number + length words.now < 2 ^ 64 }
    ensures { asked_by [] result ≡ spec.convert_of (given_options given.now) number (words_of words.now) }
{
    let Some(syntax) = given.target else {
        return Command::BadWord(number);
    };
    match last_operand(number, words) {
        Ok(file) => conversion(given, syntax, file),
        Err(number) => Command::BadWord(number),
    }
}

/// The conversion of a file to a syntax.
fn conversion<'w>(given: &Given<'w>, syntax: Syntax, file: &'w str) -> Command<'w>
    ensures { asked_by [] result ≡ spec.conversion given.now.whole syntax (spec.sources (given_options given.now)) file.now }
{
    if given.whole {
        Command::ConvertWhole(syntax, given.sources, file)
    } else {
        Command::Convert(syntax, given.sources, file)
    }
}

/// The check that the words behind `check` ask for.
fn check_of(words: &[String]) -> Asked<'_>
    requires { 2 + length words.now < 2 ^ 64 }
    ensures { asked result ≡ spec.optioned commands.Check spec.check_of spec.none_given 2 (words_of words.now) }
{
    let found = scan(Optioned::Check, &NONE_GIVEN, 2, words);
    match found.bad {
        Some(number) => without_rules(Command::BadWord(number)),
        None => check_with(&found.given, found.number, found.words),
    }
}

fn check_with<'w>(given: &Given<'w>, number: u64, words: &'w [String]) -> Asked<'w>
    requires { number + length words.now < 2 ^ 64 }
    ensures { asked result ≡ spec.check_of (given_options given.now) number (words_of words.now) }
{
    if given.rules.is_empty() {
        return without_rules(Command::BadWord(number));
    }
    match last_operand(number, words) {
        Ok(file) => Asked {
            command: Command::Check(report_format(given.json, given.svrl), given.phase, file),
            rules: given.rules,
        },
        Err(number) => without_rules(Command::BadWord(number)),
    }
}

/// The validation that the words behind `validate` ask for.
fn validate_of(words: &[String]) -> Command<'_>
    requires { 2 + length words.now < 2 ^ 64 }
    ensures { asked_by [] result ≡ spec.optioned commands.Validate spec.validate_of spec.none_given 2 (words_of words.now) }
{
    let found = scan(Optioned::Validate, &NONE_GIVEN, 2, words);
    match found.bad {
        Some(number) => Command::BadWord(number),
        None => validate_with(&found.given, found.number, found.words),
    }
}

fn validate_with<'w>(given: &Given<'w>, number: u64, words: &'w [String]) -> Command<'w>
    requires { number + length words.now < 2 ^ 64 }
    ensures { asked_by [] result ≡ spec.validate_of (given_options given.now) number (words_of words.now) }
{
    match last_operand(number, words) {
        Ok(file) => Command::Validate(report_format(given.json, given.svrl), given.sources, file),
        Err(number) => Command::BadWord(number),
    }
}

/// The attached document that the words behind `extract` ask for.
fn extract_of(words: &[String]) -> Command<'_>
    requires { 2 + length words.now < 2 ^ 64 }
    ensures { asked_by [] result ≡ spec.extract_of (words_of words.now) }
{
    let Some((word, rest)) = words.split_first() else {
        return Command::BadWord(2);
    };
    let Some(number) = number_up_to(MOST_DOCUMENTS, word.as_bytes()) else {
        return Command::BadWord(2);
    };
    match last_operand(3, rest) {
        Ok(file) => Command::Extract(number, file),
        Err(number) => Command::BadWord(number),
    }
}

/// The query that the words behind `query` ask for.
fn query_of(words: &[String]) -> Command<'_>
    requires { 3 + length words.now < 2 ^ 64 }
    ensures { asked_by [] result ≡ spec.query_of (words_of words.now) }
{
    let Some((word, rest)) = words.split_first() else {
        return Command::BadWord(2);
    };
    if word.as_bytes().starts_with(b"--") {
        return Command::BadWord(2);
    }
    match last_operand(3, rest) {
        Ok(file) => Command::Query(word.as_str(), file),
        Err(number) => Command::BadWord(number),
    }
}

/// The trial that the words behind `try` ask for.
fn try_of(words: &[String]) -> Command<'_>
    ensures { asked_by [] result ≡ spec.try_of (words_of words.now) }
{
    let Some((word, rest)) = words.split_first() else {
        return Command::BadWord(2);
    };
    let Some(lines) = number_up_to(MOST_LINES, word.as_bytes()) else {
        return Command::BadWord(2);
    };
    with_no_more(3, Command::Trial(lines), rest)
}

/// A number from 1 to the most, in decimal digits without a leading zero.
fn number_up_to(most: u32, word: &[u8]) -> Option<u32>
    requires { most < 100000000 }
    ensures { result ≡ spec.number_up_to most word.now }
{
    match word.first() {
        None | Some(b'0') => None,
        Some(_) => digits_value(most, word),
    }
}

/// The number that the digits spell, where it is at most the most. The digits behind one that makes it greater aren't looked at.
fn digits_value(most: u32, digits: &[u8]) -> Option<u32>
    requires { most < 100000000 }
    ensures { result ≡ spec.at_most most (spec.digits_value 0 digits.now) }
{
    let mut value = 0;
    'digits: for digit in digits {
        if !digit.is_ascii_digit() {
            return None;
        }
        value = 10 * value + u32::from(*digit - b'0');
        if value > most {
            return None;
        }
    }
    Some(value)
}
