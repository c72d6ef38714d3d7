ghost use Rattle.std.specs.Prelude.{◌≡◌, ◌++◌, ◌∷◌, [], OnOk, OnErr, option_copied, slice_get};

use crate::finding::Line;
use std::alloc::{AllocError, Global};
use std::marker::Model;

/// What one rule file finds in a document, in the order of judging. Its texts are lent from the rules. Contracts see the
/// list of lines.
pub struct Findings<'r> {
    lines: Vec<Line<'r>>,
}

impl Drop for Findings<'_> {
    fn drop(self) {
        let Findings { lines } = self;
        drop(lines);
    }
}

impl<'r> Model for Findings<'r> {
    ghost use Rattle.std.specs.Prelude.{List};
    ghost use Rattle.schematron_findings.specs.declared.finding.Line.{Line};

    ghost Value = { List Line };

    ghost view = { λ findings. findings.lines.items };
}

impl<'r> Findings<'r> {
    /// No line.
    pub fn new(alloc: Global) -> Findings<'r>
        ensures { result ≡ [] }
    {
        Findings {
            lines: Vec::new(alloc),
        }
    }

    /// Adds a line behind the others. Want of memory changes nothing.
    pub fn push(&mut self, line: Line<'r>) -> Result<(), AllocError>
        ensures ok { OnOk result (self.new ≡ self.old ++ line.entry ∷ []) }
        ensures err { OnErr result (self.new ≡ self.old) }
    {
        push_line(&mut self.lines, line)
    }

    /// The k-th line, from 0 on; None exactly at or past the end.
    pub fn part(&self, k: usize) -> Option<&Line<'r>>
        ensures { option_copied result ≡ slice_get self.now k }
    {
        self.lines.get(k)
    }

    /// All lines in order.
    pub fn lines(&self) -> &[Line<'r>]
        ensures { result.now ≡ self.now }
    {
        &self.lines
    }
}

fn push_line<'r>(lines: &mut Vec<Line<'r>>, line: Line<'r>) -> Result<(), AllocError>
    ensures ok { OnOk result (lines.new.items ≡ lines.old.items ++ line.entry ∷ []) }
    ensures err { OnErr result (lines.new.items ≡ lines.old.items) }
{
    lines.push(line)?;
    Ok(())
}
