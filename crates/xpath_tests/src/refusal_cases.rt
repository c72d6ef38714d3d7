//! The first refusal of an expression: the least token, and there the first kind.

use crate::checking::{Wanted, expect_checked, scope};
use std::alloc::Global;
use std::test::Fail;
use test_rows::{Shown, expect_shown};
use xpath_types::Scope;

const NAMES: &str = "\
$w → UndeclaredVariable 0
1 + $w → UndeclaredVariable 2
$V → UndeclaredVariable 0
$p:w → UndeclaredVariable 0
$absent:v → UndeclaredPrefix 0
absent:a → UndeclaredPrefix 0
absent:* → UndeclaredPrefix 0
a/@absent:b → UndeclaredPrefix 2
@xml:lang → UndeclaredPrefix 0
absent:true() → UndeclaredPrefix 0
absent:not(1) → UndeclaredPrefix 0
for $absent:x in 1 return 2 → UndeclaredPrefix 0
1 + (for $absent:x in 1 return 2) → UndeclaredPrefix 3
(for $x in 1 return $x), $x → UndeclaredVariable 11
for $x in $x return 1 → UndeclaredVariable 4
for $x in 1, $y in $z return 1 → UndeclaredVariable 9
(some $x in 1 satisfies $x) = $x → UndeclaredVariable 11
nope(1) → UnknownFunction 0
nope() → UnknownFunction 0
p:true() → UnknownFunction 0
xs:true() → UnknownFunction 0
fn:string(fn:date('a')) → UnknownFunction 2
other:true() → UnknownFunction 0
decimal('1') → UnknownFunction 0
replace('a', 'b', 'c') → UnknownFunction 0
1 cast as integer → UnknownType 0
1 cast as xs:foo → UnknownType 0
1 castable as fn:string → UnknownType 0
1 cast as absent:integer → UndeclaredPrefix 0
2 + 1 cast as xs:foo → UnknownType 2
a[absent:b] → UndeclaredPrefix 2";

/// Several refusals, of which one is the first.
const FIRST: &str = "\
nope() cast as absent:t → UndeclaredPrefix 0
$w cast as xs:foo → UndeclaredVariable 0
nope() cast as xs:foo → UnknownFunction 0
concat($w) → WrongArity 0
concat('a', $w + 'b') → UndeclaredVariable 4
('a' + $w, nope()) → SureTypeError 1
$w + 'a' → UndeclaredVariable 0
'a' + nope() → SureTypeError 0
nope(1, 2, absent:c) → UnknownFunction 0
count(1, 2) cast as xs:foo → UnknownType 0
1 + ('a' + 1) + 'b' → SureTypeError 3
(1, $w)/a → UndeclaredVariable 3
not('a' + 1) + 1 → SureTypeError 2";

/// Patterns that aren't a string literal.
const PATTERNS: &str = "\
matches('a', ('b')) → NotLiteral 4
matches('a', 'b'[1]) → NotLiteral 4
matches('a', concat('a', 'b')) → NotLiteral 4
matches('a', 'b' + 1) → NotLiteral 4
matches('a', 1 + 'b') → NotLiteral 4
matches(a/b[1], $v) → NotLiteral 9
1 + matches('a', .) → NotLiteral 6
fn:matches('a', ()) → NotLiteral 4
matches('a', nope()) → UnknownFunction 4
matches('a', $w) → UndeclaredVariable 4
matches('a', absent:x) → UndeclaredPrefix 4
matches('a', concat('a')) → WrongArity 4
matches('a', 'b' cast as xs:foo) → UnknownType 4
matches($w, .) → UndeclaredVariable 2
matches('a' + 1, .) → SureTypeError 2
matches('a', 1, 'b' + 1) → WrongArity 0
other:matches('a', .) → UnknownFunction 0";

/// Operands of one sure kind.
const OPERANDS: &str = "\
1 + 'a' → SureTypeError 2
'a' + 1 → SureTypeError 0
1 + 2 + 'a' → SureTypeError 4
1 - true() → SureTypeError 2
1 * xs:date('2020-02-29') → SureTypeError 2
true() div 1 → SureTypeError 0
1 idiv 'a' → SureTypeError 2
xs:date('2020-02-29') mod 1 → SureTypeError 0
-'a' → SureTypeError 1
+ - true() → SureTypeError 2
('a') + 1 → SureTypeError 0
1 + (('a')) → SureTypeError 2
'a' to 2 → SureTypeError 0
1 to true() → SureTypeError 2
1 to xs:date('2020-02-29') → SureTypeError 2
1/a → SureTypeError 0
'a'//b → SureTypeError 0
a/true()/b → SureTypeError 2
a/xs:date('2020-02-29')/b → SureTypeError 2
/a/1/b → SureTypeError 3
$v/1/a → SureTypeError 3
data(a)/b → SureTypeError 0
1 | a → SureTypeError 0
a | 'a' → SureTypeError 2
a union true() → SureTypeError 2
a intersect xs:date('2020-02-29') → SureTypeError 2
data(a) except a → SureTypeError 0
a | b | 1 → SureTypeError 4
(if (1) then 'a' else true()) + 1 → SureTypeError 0
(for $x in 1 return 'a') + 1 → SureTypeError 0
'a'[1] + 1 → SureTypeError 0
(1, 'a')[1]/a → SureTypeError 0";

/// Operands that may be right.
const MAY_BE: &str = "\
1 + ()
1 + a
1 + data(a)
1 + $v
1 + ('a', 1)
1 + (if (1) then 'a' else 2)
-(a, 'a')
1 to a
()/a
(1, a)/b
$v/a
() | a
(1, a) | $v
a except ()
('a' cast as xs:integer) + 1
abs('a')
1 = 'a'
'a' and true()
min(a) + 1
distinct-values(a) + 1
reverse(a)/b";

/// Calls with one argument too few or too many.
const ARITIES: &str = "\
true(1)
false(1)
position(1)
last(1)
not()
not(1, 2)
boolean()
boolean(1, 2)
exists()
exists(1, 2)
empty()
empty(1, 2)
count()
count(1, 2)
reverse()
reverse(1, 2)
data()
data(1, 2)
string(1, 2)
concat()
concat('a')
string-join('a')
string-join('a', 'b', 'c')
substring('a')
substring('a', 1, 2, 3)
string-length(1, 2)
normalize-space(1, 2)
upper-case()
upper-case(1, 2)
lower-case()
lower-case(1, 2)
translate('a', 'b')
translate('a', 'b', 'c', 'd')
contains('a')
contains('a', 'b', 'c')
starts-with('a')
starts-with('a', 'b', 'c')
ends-with('a')
matches('a')
matches('a', '[', 'i')
ends-with('a', 'b', 'c')
substring-before('a')
substring-before('a', 'b', 'c')
substring-after('a')
substring-after('a', 'b', 'c')
abs()
abs(1, 2)
floor()
floor(1, 2)
ceiling()
ceiling(1, 2)
round()
round(1, 2)
sum()
sum(1, 2)
min()
min(1, 2)
max()
max(1, 2)
distinct-values()
distinct-values(1, 2)
local-name(1, 2)
namespace-uri(1, 2)
xs:string()
xs:string(1, 2)
xs:decimal()
xs:decimal(1, 2)
xs:integer()
xs:integer(1, 2)
xs:date()
xs:date(1, 2)
xs:boolean()
xs:boolean(1, 2)";

#[test]
fn names_that_are_not_there_are_refused(rt: HostRuntime) -> Result<(), Fail> {
    expect_checked(rt.alloc(), Wanted::Line, NAMES)
}

#[test]
fn the_least_token_and_there_the_first_kind_counts(rt: HostRuntime) -> Result<(), Fail> {
    expect_checked(rt.alloc(), Wanted::Line, FIRST)
}

#[test]
fn operands_of_a_sure_kind_are_refused(rt: HostRuntime) -> Result<(), Fail> {
    expect_checked(rt.alloc(), Wanted::Line, OPERANDS)
}

#[test]
fn operands_that_may_be_right_are_accepted(rt: HostRuntime) -> Result<(), Fail> {
    expect_checked(rt.alloc(), Wanted::NoSureError, MAY_BE)
}

#[test]
fn a_pattern_is_a_literal(rt: HostRuntime) -> Result<(), Fail> {
    expect_checked(rt.alloc(), Wanted::Line, PATTERNS)
}

#[test]
fn numbers_of_arguments_are_judged(rt: HostRuntime) -> Result<(), Fail> {
    expect_checked(rt.alloc(), Wanted::WrongArity, ARITIES)
}

/// Prefixes, the last of which is empty, and their namespaces.
const PREFIXES: &str = "\
p urn:p
twice http://www.w3.org/2005/xpath-functions
fn http://www.w3.org/2005/xpath-functions
xs http://www.w3.org/2001/XMLSchema
absent none
 none";

/// The namespaces of prefixes in a scope.
#[derive(Drop)]
struct Namespaces<'a> {
    scope: &'a Scope,
}

impl Shown for Namespaces<'_> {
    fn shown(&self, alloc: Global, given: &'static str) -> Result<String, Fail> {
        let uri = self.scope.uri(given).unwrap_or("none");
        Ok(String::from_str(alloc, uri)?)
    }
}

#[test]
fn the_first_of_one_prefix_counts(rt: HostRuntime) -> Result<(), Fail> {
    let scope = scope(rt.alloc())?;
    let namespaces = Namespaces { scope: &scope };
    let found = expect_shown(rt.alloc(), &namespaces, " ", PREFIXES);
    drop(namespaces);
    drop(scope);
    found
}
