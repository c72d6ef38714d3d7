//! The options of a command, which stand between it and its operands.
ghost use Rattle.std.specs.Prelude.{◌≡◌, ◌<◌, ◌+◌, ◌++◌, ◌∷◌, ◌^◌, ℕ, List, [], length, nat_eq, nat_lt, true, IfSome, Some, option_map};
ghost use Rattle.invoice_cli.specs.Job as spec;
ghost use Rattle.invoice_cli.specs.Job.{Job, Options, words_of};
ghost use Rattle.invoice_cli.specs.declared.options.Switch.TheVariants as switches;
ghost use Rattle.job_protocol.specs.Views.{texts_of};
ghost use Rattle.invoice_cli.specs.Commands.{named_files, given_options, followed};

use bind_meaning::Syntax;
use invoice_jobs::{NO_SOURCES, Sources};

/// How many rule files may be named.
const MOST_RULE_FILES: usize = 16;

/// The rule files that were named, in their order.
#[derive(Clone, Copy)]
pub(crate) struct RuleFiles<'w> {
    names: [&'w str; MOST_RULE_FILES],
    count: usize,
}

/// No rule file.
pub(crate) const NO_RULES: RuleFiles<'static> = RuleFiles {
    names: [""; MOST_RULE_FILES],
    count: 0,
};

impl<'w> RuleFiles<'w> {
    /// Whether one more may be named.
    fn has_room(&self) -> bool
        ensures { result ≡ nat_lt (length (named_files self.now)) 16 }
    {
        self.count < MOST_RULE_FILES
    }

    /// The same with one more.
    fn with(&self, name: &'w str) -> RuleFiles<'w>
        requires { nat_lt (length (named_files self.now)) 16 ≡ true }
        ensures { named_files result ≡ named_files self.now ++ name.now ∷ [] }
    {
        let mut names = self.names;
        names[self.count] = name;
        RuleFiles {
            names,
            count: self.count + 1,
        }
    }

    pub(crate) fn is_empty(&self) -> bool
        ensures { result ≡ nat_eq (length (named_files self.now)) 0 }
    {
        self.count == 0
    }

    pub(crate) fn as_slice(&self) -> &[&'w str]
        ensures { texts_of result.now ≡ named_files self.now }
    {
        &self.names[..self.count.min(MOST_RULE_FILES)]
    }
}

/// The options that were given.
#[derive(Clone, Copy)]
pub(crate) struct Given<'w> {
    /// The files of code lists and of extension terms.
    pub(crate) sources: Sources<'w>,
    /// The syntax to write.
    pub(crate) target: Option<Syntax>,
    /// Whether a conversion has to keep all that the document says.
    pub(crate) whole: bool,
    /// Whether the answer is to be JSON.
    pub(crate) json: bool,
    /// Whether the report is to be SVRL.
    pub(crate) svrl: bool,
    /// The phase whose patterns are judged.
    pub(crate) phase: Option<&'w str>,
    pub(crate) rules: RuleFiles<'w>,
}

/// No option.
pub(crate) const NONE_GIVEN: Given<'static> = Given {
    sources: NO_SOURCES,
    target: None,
    whole: false,
    json: false,
    svrl: false,
    phase: None,
    rules: NO_RULES,
};

/// What the words behind a command are: its options, the number of the word behind them, and the words from there on.
#[derive(Clone, Copy)]
pub(crate) struct Scanned<'w> {
    /// The number of a word that fits none; then the others say nothing.
    pub(crate) bad: Option<u64>,
    pub(crate) given: Given<'w>,
    pub(crate) number: u64,
    pub(crate) words: &'w [String],
}

/// A command that has options.
#[derive(Clone, Copy)]
pub(crate) enum Optioned {
    Show,
    Totals,
    View,
    Convert,
    Check,
    Validate,
}

/// An option.
#[derive(Clone, Copy)]
enum Switch {
    CodeLists,
    /// The file of terms that are added to those of the standard.
    Extension,
    SyntaxToWrite,
    /// A conversion has to keep all that the document says. It takes no value.
    Whole,
    /// The answer is to be JSON. It takes no value.
    Json,
    /// The report is to be SVRL. It takes no value.
    Svrl,
    Phase,
    RuleFile,
}

/// The option of that word.
fn switch_named(word: &str) -> Option<Switch>
    ensures { result ≡ spec.switch_named word.now }
{
    match word {
        "--codes" => Some(Switch::CodeLists),
        "--extension" => Some(Switch::Extension),
        "--to" => Some(Switch::SyntaxToWrite),
        "--whole" => Some(Switch::Whole),
        "--json" => Some(Switch::Json),
        "--svrl" => Some(Switch::Svrl),
        "--phase" => Some(Switch::Phase),
        "--rules" => Some(Switch::RuleFile),
        _ => None,
    }
}

/// Whether the command has the option.
fn has(command: Optioned, switch: Switch) -> bool
    ensures { result ≡ spec.has command switch }
{
    match command {
        Optioned::Show => match switch {
            Switch::CodeLists | Switch::Extension | Switch::Json => true,
            _ => false,
        },
        Optioned::Totals => match switch {
            Switch::CodeLists | Switch::Extension | Switch::Json => true,
            _ => false,
        },
        Optioned::View => match switch {
            Switch::CodeLists | Switch::Extension => true,
            _ => false,
        },
        Optioned::Convert => match switch {
            Switch::CodeLists | Switch::Extension | Switch::SyntaxToWrite | Switch::Whole => true,
            _ => false,
        },
        Optioned::Check => match switch {
            Switch::Json | Switch::Svrl | Switch::Phase | Switch::RuleFile => true,
            _ => false,
        },
        Optioned::Validate => match switch {
            Switch::CodeLists | Switch::Extension | Switch::Json | Switch::Svrl => true,
            _ => false,
        },
    }
}

/// Whether the option may stand behind those that were given.
fn may_follow(given: &Given<'_>, switch: Switch) -> bool
    ensures { result ≡ spec.may_follow (given_options given.now) switch }
{
    match switch {
        Switch::CodeLists => given.sources.codes_file.is_none(),
        Switch::Extension => given.sources.extension_file.is_none(),
        Switch::SyntaxToWrite => given.target.is_none(),
        Switch::Whole => !given.whole,
        Switch::Json => !given.json && !given.svrl,
        Switch::Svrl => !given.svrl && !given.json,
        Switch::Phase => given.phase.is_none(),
        Switch::RuleFile => given.rules.has_room(),
    }
}

/// The option of that word, where the command has it and it may still be given.
fn offered(command: Optioned, given: &Given<'_>, word: &str) -> Option<Switch>
    ensures is { result ≡ spec.offered command (given_options given.now) word.now }
    ensures may { IfSome result (λ switch. spec.may_follow (given_options given.now) switch ≡ true) }
{
    let Some(switch) = switch_named(word) else {
        return None;
    };
    if has(command, switch) && may_follow(given, switch) {
        Some(switch)
    } else {
        None
    }
}

fn takes_value(switch: Switch) -> bool
    ensures { result ≡ spec.takes_value switch }
{
    match switch {
        Switch::Whole | Switch::Json | Switch::Svrl => false,
        _ => true,
    }
}

/// The syntax of that name.
fn syntax_named(word: &str) -> Option<Syntax>
    ensures { result ≡ spec.syntax_named word.now }
{
    match word {
        "ubl" => Some(Syntax::Ubl),
        "cii" => Some(Syntax::Cii),
        _ => None,
    }
}

fn with_whole<'w>(given: &Given<'w>) -> Given<'w>
    ensures { given_options result ≡ spec.with_whole (given_options given.now) }
{
    let mut more = *given;
    more.whole = true;
    more
}

fn with_json<'w>(given: &Given<'w>) -> Given<'w>
    ensures { given_options result ≡ spec.with_json (given_options given.now) }
{
    let mut more = *given;
    more.json = true;
    more
}

fn with_svrl<'w>(given: &Given<'w>) -> Given<'w>
    ensures { given_options result ≡ spec.with_svrl (given_options given.now) }
{
    let mut more = *given;
    more.svrl = true;
    more
}

/// The options with one more that takes no value.
fn with_flag<'w>(given: &Given<'w>, switch: Switch) -> Given<'w>
    ensures { given_options result ≡ spec.with_flag (given_options given.now) switch }
{
    match switch {
        Switch::Whole => with_whole(given),
        Switch::Json => with_json(given),
        _ => with_svrl(given),
    }
}

fn with_rules<'w>(given: &Given<'w>, file: &'w str) -> Given<'w>
    requires { spec.may_follow (given_options given.now) switches.RuleFile ≡ true }
    ensures { Some (given_options result) ≡ spec.with_value (given_options given.now) switches.RuleFile file.now }
{
    let mut more = *given;
    more.rules = given.rules.with(file);
    more
}

fn with_target<'w>(given: &Given<'w>, name: &'w str) -> Option<Given<'w>>
    ensures { option_map given_options result ≡ spec.with_value (given_options given.now) switches.SyntaxToWrite name.now }
{
    match syntax_named(name) {
        None => None,
        Some(syntax) => {
            let mut more = *given;
            more.target = Some(syntax);
            Some(more)
        }
    }
}

/// The options with the value of one more, if it is one.
fn with_value<'w>(given: &Given<'w>, switch: Switch, value: &'w str) -> Option<Given<'w>>
    requires { spec.may_follow (given_options given.now) switch ≡ true }
    ensures { option_map given_options result ≡ spec.with_value (given_options given.now) switch value.now }
{
    let mut more = *given;
    match switch {
        Switch::CodeLists => {
            more.sources = Sources {
                codes_file: Some(value),
                extension_file: given.sources.extension_file,
            };
            Some(more)
        }
        Switch::Extension => {
            more.sources = Sources {
                codes_file: given.sources.codes_file,
                extension_file: Some(value),
            };
            Some(more)
        }
        Switch::SyntaxToWrite => with_target(given, value),
        Switch::Whole => Some(with_whole(given)),
        Switch::Json => Some(with_json(given)),
        Switch::Svrl => Some(with_svrl(given)),
        Switch::Phase => {
            more.phase = Some(value);
            Some(more)
        }
        Switch::RuleFile => Some(with_rules(given, value)),
    }
}

/// The options at the front of the words, the first of which has this number: those that the command has, in any order.
pub(crate) fn scan<'w>(
    command: Optioned,
    given: &Given<'w>,
    number: u64,
    words: &'w [String],
) -> Scanned<'w>
    requires { number + length words.now < 2 ^ 64 }
    ensures follows { (further : Options → ℕ → List (List ℕ) → Job)
        → followed further result ≡ spec.optioned command further (given_options given.now) number (words_of words.now) }
    ensures few { result.number + length result.words.now < 2 ^ 64 }
{
    let ready = Scanned {
        bad: None,
        given: *given,
        number,
        words,
    };
    let Some((word, behind)) = words.split_first() else {
        return ready;
    };
    let Some(switch) = offered(command, given, word.as_str()) else {
        return ready;
    };
    if !takes_value(switch) {
        return scan(command, &with_flag(given, switch), number + 1, behind);
    }
    let Some((value, rest)) = behind.split_first() else {
        return bad(ready, number + 1);
    };
    match with_value(given, switch, value.as_str()) {
        None => bad(ready, number + 1),
        Some(more) => scan(command, &more, number + 2, rest),
    }
}

/// The same with a word of this number that fits none.
fn bad<'w>(scanned: Scanned<'w>, number: u64) -> Scanned<'w>
    ensures { result ≡ record scanned.entry { bad = Some number } }
{
    let mut refused = scanned;
    refused.bad = Some(number);
    refused
}
