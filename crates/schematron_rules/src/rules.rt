//! What a rule file says, ready to be judged by.
ghost use Rattle.std.specs.Prelude.{◌≡◌, length, option_copied, slice_get, IfOk};
ghost use Rattle.schematron_rules.specs.Seen.{seen_compiled, all_lets, lets_in};
ghost use Rattle.schematron_rules.specs.Said.{AreOfAFile};

use inv_base::{Many, Txt};
use schematron_findings::Level;
use schematron_meaning::AssertionKind;
use std::alloc::AllocError;
use std::marker::Model;
use xpath_plan::Plan;

/// A variable and what it stands for.
pub struct Let {
    /// As it is written: `x` or `p:x`.
    pub name: Txt,
    pub plan: Plan,
}

impl Drop for Let {
    fn drop(self) {
        let Let { name, plan } = self;
        drop(name);
        drop(plan);
    }
}

/// A context or a test, with its text as it is reported.
pub struct Shown {
    pub text: Txt,
    pub plan: Plan,
}

impl Drop for Shown {
    fn drop(self) {
        let Shown { text, plan } = self;
        drop(text);
        drop(plan);
    }
}

/// A part of a message.
#[derive(Drop)]
pub enum Part {
    /// A text as it stands.
    Words(Txt),
    /// The values of an expression.
    Values(Plan),
    /// The local name of the node.
    Name,
}

/// An `assert` or a `report`.
pub struct Assertion {
    pub kind: AssertionKind,
    pub test: Shown,
    pub id: Option<Txt>,
    pub flag: Option<Txt>,
    pub role: Option<Txt>,
    pub level: Level,
    pub message: Many<Part>,
}

impl Drop for Assertion {
    fn drop(self) {
        let Assertion {
            kind: _,
            test,
            id,
            flag,
            role,
            level: _,
            message,
        } = self;
        drop(test);
        drop(id);
        drop(flag);
        drop(role);
        drop(message);
    }
}

/// A rule with what it extends.
pub struct Rule {
    pub context: Shown,
    pub lets: Many<Let>,
    pub assertions: Many<Assertion>,
}

impl Drop for Rule {
    fn drop(self) {
        let Rule {
            context,
            lets,
            assertions,
        } = self;
        drop(context);
        drop(lets);
        drop(assertions);
    }
}

/// A pattern that is judged, with the lets and rules of the one that it uses, if it uses one.
pub struct Expanded {
    pub id: Option<Txt>,
    pub lets: Many<Let>,
    pub rules: Many<Rule>,
}

impl Drop for Expanded {
    fn drop(self) {
        let Expanded { id, lets, rules } = self;
        drop(id);
        drop(lets);
        drop(rules);
    }
}

/// A phase, with the numbers of its patterns, which are their places in the file from 0.
pub struct Phase {
    pub id: Option<Txt>,
    pub lets: Many<Let>,
    pub patterns: Many<u32>,
}

impl Drop for Phase {
    fn drop(self) {
        let Phase { id, lets, patterns } = self;
        drop(id);
        drop(lets);
        drop(patterns);
    }
}

/// What a rule file comes to.
pub struct Compiled {
    pub default_phase: Option<Txt>,
    pub lets: Many<Let>,
    pub phases: Many<Phase>,
    pub patterns: Many<Expanded>,
}

impl Drop for Compiled {
    fn drop(self) {
        let Compiled {
            default_phase,
            lets,
            phases,
            patterns,
        } = self;
        drop(default_phase);
        drop(lets);
        drop(phases);
        drop(patterns);
    }
}

/// The rules of a file that has no fault. Contracts see what the file comes to.
pub struct Rules {
    pub(crate) compiled: Compiled,
}

impl Drop for Rules {
    fn drop(self) {
        let Rules { compiled } = self;
        drop(compiled);
    }
}

impl Model for Rules {
    ghost use Rattle.schematron_rules.specs.declared.rules.Compiled.{Compiled};
    ghost use Rattle.schematron_rules.specs.contracts.rules.Compiled as compiled_type;

    ghost Value = { Compiled };

    ghost coded = { compiled_type.the_row.coded };

    ghost use Rattle.schematron_rules.specs.Said.{IsSaid};

    ghost view = { λ rules. rules.compiled };

    ghost invariant = { λ rules. IsSaid rules.compiled };
}

impl Rules {
    /// What the file comes to, as its rules. More phases than a number of 32 bits counts, which no file has, count as
    /// want of memory.
    pub fn of(compiled: Compiled) -> Result<Rules, AllocError>
        requires { AreOfAFile (seen_compiled compiled) }
        ensures { IfOk result (λ rules. rules ≡ compiled) }
    {
        if compiled.phases.len() > u32::MAX as usize {
            drop(compiled);
            return Err(AllocError);
        }
        Ok(Rules { compiled })
    }

    /// They are what some rule file says, which has no fault. It has no code.
    pub fn are_of_a_file(&self)
        ensures { AreOfAFile (seen_compiled self.now) }
    {
        let _compiled = &self.compiled;
    }

    /// All patterns that are judged, with what they use.
    pub fn parts(&self) -> &[Expanded]
        ensures { result.now ≡ self.now.patterns }
    {
        self.compiled.patterns.as_slice()
    }

    /// The pattern of that number, from 0.
    pub fn part(&self, k: usize) -> Option<&Expanded>
        ensures { option_copied result ≡ slice_get self.now.patterns k }
    {
        self.compiled.patterns.as_slice().get(k)
    }

    /// How many phases there are.
    pub fn phases(&self) -> u32
        ensures { result ≡ length self.now.phases }
    {
        self.compiled.phases.len() as u32
    }

    /// The lets of the schema, or of the phase of that number, from 0; none where there is no such phase.
    pub fn all_lets(&self, phase: Option<u32>) -> &[Let]
        ensures { result.now ≡ all_lets self.now phase }
    {
        match phase {
            None => self.compiled.lets.as_slice(),
            Some(n) => lets_at(self.compiled.phases.as_slice(), n as usize),
        }
    }

    /// The let of that number, from 0, of the schema, or of the phase of that number.
    pub fn lets(&self, phase: Option<u32>, k: usize) -> Option<&Let>
        ensures { option_copied result ≡ slice_get (all_lets self.now phase) k }
    {
        self.all_lets(phase).get(k)
    }
}

fn lets_at(phases: &[Phase], n: usize) -> &[Let]
    ensures { result.now ≡ lets_in phases.now n }
{
    match phases.get(n) {
        None => &[],
        Some(phase) => phase.lets.as_slice(),
    }
}

/// What is active in a phase. Contracts see the number of the phase, none where all patterns are active, and the numbers
/// of the patterns.
pub struct Active {
    pub(crate) phase: Option<u32>,
    pub(crate) patterns: Many<u32>,
}

impl Drop for Active {
    fn drop(self) {
        let Active { phase: _, patterns } = self;
        drop(patterns);
    }
}

impl Model for Active {
    ghost use Rattle.schematron_meaning.specs.Phases as phases;

    ghost Value = { phases.Active };

    ghost view = { λ active. record { phase = active.phase; patterns = active.patterns } };
}

impl Active {
    /// The number of its phase, and none where all patterns are active.
    pub fn phase(&self) -> Option<u32>
        ensures { result ≡ self.now.phase }
    {
        self.phase
    }

    /// The numbers of the patterns that are active, in their order.
    pub fn parts(&self) -> &[u32]
        ensures { result.now ≡ self.now.patterns }
    {
        self.patterns.as_slice()
    }

    /// The number of the pattern that is active in that place, from 0.
    pub fn part(&self, k: usize) -> Option<&u32>
        ensures { option_copied result ≡ slice_get self.now.patterns k }
    {
        self.patterns.as_slice().get(k)
    }
}
