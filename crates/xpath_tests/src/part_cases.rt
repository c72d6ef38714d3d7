//! What is known of each part of an expression, an outer part before the parts in it.
//!
//! A row is an expression and `→`, then the kinds of each part's items, `*` where it uses the focus, and `!` where it
//! depends on the document alone.

use crate::checking::{Wanted, expect_checked, holds, scope};
use std::alloc::{AllocError, Global};
use std::test::Fail;
use test_rows::expect;
use xpath_grammar::expr::{Expr, Form};
use xpath_grammar::operators::Production;
use xpath_syntax::parse;
use xpath_types::{Scope, Typed, check};

/// Parts without parts in them.
const LEAVES: &str = "\
1 → number !
'a' → string !
() → !
. → node *
.. → node *
a → node *
@a → node *
/ → node * !
$v → node boolean number string untyped date
$p:v → node boolean number string untyped date
position() → number * #
last() → number * #
true() → boolean !
string() → string *
string-length() → number *
normalize-space() → string *
local-name() → string *
namespace-uri() → string *";

/// Operators, and what unites, binds, filters or casts.
const FORMS: &str = "\
1, 'a' → number string ! ; number ! ; string !
1 or a → boolean * ; number ! ; node *
1 and 'a' → boolean ! ; number ! ; string !
1 = 'a' → boolean ! ; number ! ; string !
1 eq 2 → boolean ! ; number ! ; number !
1 to 2 → number ! ; number ! ; number !
1 + a → number * ; number ! ; node *
6 idiv 4 → number ! ; number ! ; number !
a | b → node * ; node * ; node *
a union $v → node * ; node * ; node boolean number string untyped date
a intersect () → node * ; node * ; !
a except b → node * ; node * ; node *
-1 → number ! ; number !
'1' cast as xs:string → string ! ; string !
'1' cast as xs:decimal? → number ! ; string !
'1' cast as xs:integer → number ! ; string !
'1' cast as t:date → date ! ; string !
'1' cast as xs:boolean → boolean ! ; string !
'1' castable as xs:date → boolean ! ; string !
(1) → number ! ; number !
if (a) then 1 else 'b' → number string * ; node * ; number ! ; string !
for $x in (1, 'a') return ($x, a) → node number string * ; number string ! ; number string ! ; number ! ; string ! ; node number string * ; node number string * ; number string ; node *
for $x in 1, $y in ($x, 'a') return $y → number string ! ; number ! ; number string ; number string ; number ; string ! ; number string
for $v in 1 return $v → number ! ; number ! ; number
some $x in a satisfies $x → boolean * ; node * ; node
every $x in 1 satisfies $x = $v → boolean ; number ! ; boolean ; number ; node boolean number string untyped date";

/// Paths and predicates: where the focus is another one.
const FOCUSES: &str = "\
a/b → node * ; node * ; node *
a/1 → number * ; node * ; number !
a/string() → string * ; node * ; string *
//a → node * ! ; node *
/a/b → node * ! ; node * ; node *
a//b → node * ; node * ; node *
(/)/a → node * ! ; node * ! ; node * ! ; node *
a[1] → node * ; node * ; number !
a[b] → node * ; node * ; node *
a[/b] → node * ; node * ; node * ! ; node *
1[/b] → number ! ; number ! ; node * ; node *
(a, 1)[/b] → node number * ; node number * ; node number * ; node * ; number ! ; node * ; node *
(1, 'a')[. = 1] → number string ! ; number string ! ; number string ! ; number ! ; string ! ; boolean * ; number string * ; number !
a[position() = last()] → node * ; node * ; boolean * # ; number * # ; number * #
//a[last()] → node * ! ; node * ; node * ; number * #
//l[. = 1] → node * ! ; node * ; node * ; boolean * ; node * ; number !
//l[position() = 1] → node * ! ; node * ; node * ; boolean * # ; number * # ; number !
a[b[last()]] → node * ; node * ; node * ; node * ; number * #
//a[$v] → node * ; node * ; node * ; node boolean number string untyped date
count(//l) → number * ! ; node * ! ; node *
(1, 2)[count(//l) > 1] → number ! ; number ! ; number ! ; number ! ; number ! ; boolean * ; number * ; node * ; node * ; number !
for $x in 1, $y in 'a' return (for $x in $y return $x, $x) → number string ! ; number ! ; string ! ; number string ; number string ; string ; string ; string ; number
for $x in //a return $x/b → node * ! ; node * ! ; node * ; node ; node ; node *
a/(for $x in . return $x) → node * ; node * ; node * ; node * ; node * ; node";

/// What functions give.
const FUNCTIONS: &str = "\
reverse((1, 'a')) → number string ! ; number string ! ; number string ! ; number ! ; string !
data(a) → untyped * ; node *
distinct-values((a, 1)) → number untyped * ; node number * ; node number * ; node * ; number !
min(a) → number * ; node *
max(('a', 1)) → number string ! ; number string ! ; number string ! ; string ! ; number !
min(t:date('2020-02-29')) → date ! ; date ! ; string !
max(true()) → ! ; boolean !
sum('a') → number ! ; string !
count(()) → number ! ; !
abs(a) → number * ; node *
floor(1) → number ! ; number !
ceiling(1) → number ! ; number !
round(1) → number ! ; number !
string-length('a') → number ! ; string !
not(a) → boolean * ; node *
boolean(1) → boolean ! ; number !
exists(1) → boolean ! ; number !
empty(1) → boolean ! ; number !
contains('a', 'b') → boolean ! ; string ! ; string !
starts-with('a', 'b') → boolean ! ; string ! ; string !
ends-with('a', 'b') → boolean ! ; string ! ; string !
false() → boolean !
string(a) → string * ; node *
concat('a', 'b', 'c') → string ! ; string ! ; string ! ; string !
string-join('a', 'b') → string ! ; string ! ; string !
substring('a', 1) → string ! ; string ! ; number !
substring('a', 1, 2) → string ! ; string ! ; number ! ; number !
normalize-space('a') → string ! ; string !
upper-case('a') → string ! ; string !
lower-case('a') → string ! ; string !
translate('a', 'b', 'c') → string ! ; string ! ; string ! ; string !
substring-before('a', 'b') → string ! ; string ! ; string !
substring-after('a', 'b') → string ! ; string ! ; string !
local-name(a) → string * ; node *
namespace-uri(a) → string * ; node *
xs:string(1) → string ! ; number !
xs:decimal('1') → number ! ; string !
xs:integer('1') → number ! ; string !
xs:boolean('1') → boolean ! ; string !
fn:true() → boolean !
f:true() → boolean !
twice:true() → boolean !";

const PATTERNS: &str = "\
a → node *
/ → node * !
//a[1] → node * ! ; node * ; node * ; number !
a[. = $v] | b → node * ; node * ; node * ; boolean * ; node * ; node boolean number string untyped date ; node *";

#[test]
fn leaves_have_their_facts(rt: HostRuntime) -> Result<(), Fail> {
    expect_checked(rt.alloc(), Wanted::Line, LEAVES)
}

#[test]
fn forms_have_their_facts(rt: HostRuntime) -> Result<(), Fail> {
    expect_checked(rt.alloc(), Wanted::Line, FORMS)
}

#[test]
fn paths_and_predicates_have_their_facts(rt: HostRuntime) -> Result<(), Fail> {
    expect_checked(rt.alloc(), Wanted::Line, FOCUSES)
}

#[test]
fn functions_have_their_facts(rt: HostRuntime) -> Result<(), Fail> {
    expect_checked(rt.alloc(), Wanted::Line, FUNCTIONS)
}

#[test]
fn patterns_have_their_facts(rt: HostRuntime) -> Result<(), Fail> {
    expect_checked(rt.alloc(), Wanted::LineOfPattern, PATTERNS)
}

/// Whether a typed `1 + 2` keeps its expression and its scope, and has no part behind the last.
fn keeps_its_own(typed: &Typed<'_>) -> bool {
    let is_sum = matches!(typed.expr(), Expr::Node(Form::Chain(Production::Sum), _));
    let has_scope = typed.scope().uri("p").unwrap_or("none") == "urn:p";
    is_sum & has_scope & typed.part(2).is_some() & typed.part(3).is_none()
}

fn is_kept(alloc: Global, scope: &Scope, expression: &Expr) -> bool {
    match check(alloc, expression, scope) {
        Ok(typed) => {
            let holds = keeps_its_own(&typed);
            drop(typed);
            holds
        }
        Err(_) => false,
    }
}

fn is_kept_of(alloc: Global, scope: &Scope, text: &str) -> bool {
    match parse(alloc, text) {
        Ok(expression) => {
            let holds = is_kept(alloc, scope, &expression);
            drop(expression);
            holds
        }
        Err(_) => false,
    }
}

#[test]
fn a_typed_expression_keeps_what_it_is_of(rt: HostRuntime) -> Result<(), Fail> {
    let scope = scope(rt.alloc())?;
    let holds = is_kept_of(rt.alloc(), &scope, "1 + 2");
    drop(scope);
    expect(holds, "1 + 2")
}

/// Whether a variable that was declared last is there, and isn't once it is taken back; and whether an earlier one
/// still is.
fn is_cut_back(alloc: Global, scope: &mut Scope) -> Result<bool, AllocError> {
    let count = scope.count();
    scope.variable(alloc, "w")?;
    let is_counted = scope.count() == 4;
    let is_there = holds(alloc, scope, Wanted::Line, DECLARED)?;
    scope.truncate(count);
    let is_gone = holds(alloc, scope, Wanted::Line, TAKEN_BACK)?;
    let is_left = holds(alloc, scope, Wanted::Line, LEFT)?;
    Ok(is_counted & is_there & is_gone & is_left)
}

const DECLARED: &str = "$w → node boolean number string untyped date";

const TAKEN_BACK: &str = "$w → UndeclaredVariable 0";

const LEFT: &str = "$v → node boolean number string untyped date";

#[test]
fn a_scope_is_cut_back(rt: HostRuntime) -> Result<(), Fail> {
    let mut scope = scope(rt.alloc())?;
    let holds = is_cut_back(rt.alloc(), &mut scope);
    drop(scope);
    expect(holds?, "scope")
}
