ghost use Rattle.std.specs.Prelude.{◌≡◌, ◌++◌, ◌∷◌, [], List};
ghost use Rattle.schematron_findings.specs.declared.finding.Line.{Line};
ghost use Rattle.svrl_report.specs.Plain as spec;

use schematron_findings::{Finding, FindingKind, Level, Line};

/// How many findings there are of each sort. The numbers stop at the greatest `u64`.
#[derive(Clone, Copy, PartialEq, Eq)]
pub struct Tally {
    /// Fatal assertions that failed.
    pub failed: u64,
    pub reported: u64,
    pub errors: u64,
    /// Other assertions that failed.
    pub minor: u64,
}

impl Tally {
    /// Of these lines.
    pub fn of(lines: &[Line<'_>]) -> Tally
        ensures { result ≡ spec.tally_of lines.now }
    {
        let mut tally = Tally::new();
        'lines: for line in lines {
            tally = tally.with(line);
        }
        tally
    }

    /// Of no finding.
    pub fn new() -> Tally
        ensures { result ≡ spec.tally_of [] }
    {
        Tally {
            failed: 0,
            reported: 0,
            errors: 0,
            minor: 0,
        }
    }

    /// With one line more.
    pub fn with(self, line: &Line<'_>) -> Tally
        ensures { (lines : List Line) → self ≡ spec.tally_of lines → result ≡ spec.tally_of (lines ++ line.now ∷ []) }
    {
        Tally {
            failed: self.failed.saturating_add(u64::from(is_failed(line))),
            reported: self.reported.saturating_add(u64::from(is_reported(line))),
            errors: self.errors.saturating_add(u64::from(is_error(line))),
            minor: self.minor.saturating_add(u64::from(is_minor(line))),
        }
    }
}

fn is_failed(line: &Line<'_>) -> bool
    ensures { result ≡ spec.is_failed line.now }
{
    match line {
        Line::Found(finding) => is_failed_finding(finding),
        _ => false,
    }
}

fn is_failed_finding(finding: &Finding<'_>) -> bool
    ensures { result ≡ spec.is_failed_by finding.now.outcome finding.now.level }
{
    match (finding.outcome, finding.level) {
        (FindingKind::Failed, Level::Fatal) => true,
        _ => false,
    }
}

fn is_reported(line: &Line<'_>) -> bool
    ensures { result ≡ spec.is_reported line.now }
{
    match line {
        Line::Found(finding) => match finding.outcome {
            FindingKind::Reported => true,
            _ => false,
        },
        _ => false,
    }
}

fn is_error(line: &Line<'_>) -> bool
    ensures { result ≡ spec.is_error line.now }
{
    match line {
        Line::Found(finding) => match finding.outcome {
            FindingKind::Error(_) => true,
            _ => false,
        },
        _ => false,
    }
}

fn is_minor(line: &Line<'_>) -> bool
    ensures { result ≡ spec.is_minor line.now }
{
    match line {
        Line::Found(finding) => is_minor_finding(finding),
        _ => false,
    }
}

fn is_minor_finding(finding: &Finding<'_>) -> bool
    ensures { result ≡ spec.is_minor_by finding.now.outcome finding.now.level }
{
    match finding.outcome {
        FindingKind::Failed => match finding.level {
            Level::Fatal => false,
            Level::Warning | Level::Information => true,
        },
        _ => false,
    }
}
