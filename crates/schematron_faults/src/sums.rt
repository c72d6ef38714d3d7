//! How many patterns, rules and assertions there are so far, and where they pass their limits.
ghost use Rattle.std.specs.Prelude.{◌≡◌};
ghost use Rattle.schematron_meaning.specs.Counts as meaning;
ghost use Rattle.schematron_faults.specs.Stopped as spec;

/// Numbers that stop at the greatest `u64`.
#[derive(Clone, Copy)]
pub(crate) struct Sums {
    pub patterns: u64,
    pub rules: u64,
    pub assertions: u64,
}

const MOST_PATTERNS: u64 = 2_000;

const MOST_RULES: u64 = 10_000;

const MOST_ASSERTIONS: u64 = 20_000;

/// Nothing.
pub(crate) fn no_sums() -> Sums
    ensures { spec.seen_sums result ≡ meaning.no_tally }
{
    Sums {
        patterns: 0,
        rules: 0,
        assertions: 0,
    }
}

/// Both together.
pub(crate) fn added(a: Sums, b: Sums) -> Sums
    ensures { spec.seen_sums result ≡ spec.stopped (meaning.added (spec.seen_sums a) (spec.seen_sums b)) }
{
    Sums {
        patterns: a.patterns.saturating_add(b.patterns),
        rules: a.rules.saturating_add(b.rules),
        assertions: a.assertions.saturating_add(b.assertions),
    }
}

fn passes(limit: u64, before: u64, after: u64) -> bool
    ensures { result ≡ meaning.passes limit before after }
{
    (before <= limit) & (limit < after)
}

/// Whether one of the numbers passes its limit here.
pub(crate) fn passes_any(before: Sums, after: Sums) -> bool
    ensures { result ≡ meaning.passes_any (spec.seen_sums before) (spec.seen_sums after) }
{
    passes(MOST_PATTERNS, before.patterns, after.patterns)
        | (passes(MOST_RULES, before.rules, after.rules)
            | passes(MOST_ASSERTIONS, before.assertions, after.assertions))
}
