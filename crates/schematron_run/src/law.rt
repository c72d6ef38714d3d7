ghost use Rattle.std.specs.Prelude.{◌≡◌, List, Ok};
ghost use Rattle.inv_base.specs.Tree.{Node};
ghost use Rattle.schematron_meaning.specs.Rules.{Rules, rules_of};
ghost use Rattle.schematron_run.specs.Contexts.{HasPatterns};

use xpath_grammar::laws::{machine_reads, patterns_are_expressions};
use xpath_marks::patterns_have_their_shape;

/// The contexts of every rule file that was compiled have the shape of patterns. It has no code.
pub fn compiled_rules_have_patterns()
    ensures { (nodes : List Node) (rules : Rules) → rules_of nodes ≡ Ok rules → HasPatterns rules }
{
    machine_reads();
    patterns_are_expressions();
    patterns_have_their_shape();
}
