//! The trees of texts, and their refusals.

use crate::made::{Made, expect_made};
use std::test::Fail;

/// Texts, and what they are as expressions.
const EXPRESSIONS: &str = "\
1 + 2 * 3 → {1 Plus {2 Times 3}}
1 * 2 + 3 → {{1 Times 2} Plus 3}
1 + 2 - 3 → {1 Plus 2 Minus 3}
6 * 2 div 3 idiv 4 mod 5 → {6 Times 2 Div 3 Idiv 4 Mod 5}
1, 2 → {1, 2}
1 or 2 and 3 or 4 → {1 Or {2 And 3} Or 4}
1 = 2 and 3 → {{1 Equal 2} And 3}
1 to 2 + 3 → {1 To {2 Plus 3}}
1 to 2 = 3 → {{1 To 2} Equal 3}
1 = 2 = 3 → Syntax
(1 = 2) = 3 → {{({1 Equal 2})} Equal 3}
1 eq 2 eq 3 → Syntax
1 to 2 to 3 → Syntax
a | b union c → {a Bar b Union c}
a | b intersect c → {a Bar {b Intersect c}}
a * b | c → {a Times {b Bar c}}
-a/b → {Minus {a Slash b}}
a/-b → Syntax
-1 + 2 → {{Minus 1} Plus 2}
1 - -2 → {1 Minus {Minus 2}}
+-+1 → {Plus Minus Plus 1}
-1 cast as t → {{Minus 1} Cast t}
1 cast as p:t? → {1 Cast p:t?}
1 cast as t castable as t → {{1 Cast t} Castable t}
1 castable as t cast as t → Syntax
1 cast as p:* → Syntax
a//b → {a DoubleSlash b}
a/b//c → {a Slash b DoubleSlash c}
/ → /
/a → { Slash a}
//a → { DoubleSlash a}
// → Syntax
/ * 5 → Syntax
(/) * 5 → {{(/)} Times 5}
/ + 5 → {/ Plus 5}
a/b[1] → {a Slash {b[1]}}
a[1][2] → {a[1][2]}
(a/b)[1] → {{({a Slash b})}[1]}
a[b = 1]/c → {{a[{b Equal 1}]} Slash c}
a[1 → Syntax
a[] → Syntax
.[1]/.. → {{.[1]} Slash ..}
() → ()
(1) → {(1)}
f() → f()
p:f(1, (2, 3)) → {p:f(1, {({2, 3})})}
f(1,) → Syntax
f(1)[2] → {{f(1)}[2]}
1/f(2) → {1 Slash {f(2)}}
text() → Text()
text(1) → Syntax
child::text() → Child::Text()
@a/attribute::b → {@a Slash Attribute::b}
descendant-or-self::node()/self::p:* → {DescendantOrSelf::Node() Slash Itself::p:*}
preceding-sibling::*:a → PrecedingSibling::*:a
sideways::a → Syntax
@@a → Syntax
$x + $p:y → {$x Plus $p:y}
$p:* → Syntax
for $x in 1, $y in 2 return $x, 3 → {{For $x In 1, $y In 2 Return $x}, 3}
some $x in 1 satisfies 2 or 3 → {Some $x In 1 Satisfies {2 Or 3}}
every $x in 1 return 2 → Syntax
for $x in 1, 2 return 3 → Syntax
1 + for $x in 2 return 3 → Syntax
(for $x in 2 return 3) + 1 → {{({For $x In 2 Return 3})} Plus 1}
if (1, 2) then 3 else 4, 5 → {{If {1, 2} Then 3 Else 4}, 5}
if (1) then 2 → Syntax
1 + if (1) then 2 else 3 → Syntax
if → if
* * * → {* Times *}
div div div → {div Div div}
10div 3 → {10 Div 3}
1.50 → 1.500000000000000000
'it''s' → 'it's'
1e → Syntax
1 2 → Syntax
1 + → Syntax
(1 → Syntax
1) → Syntax
(: a (: b :) :) 1 → 1
1 # 2 → Lexical(2)
1 is 2 → Unsupported(1)
1e3 → Unsupported(0)
(1 is 2 → Unsupported(2)
1234567890123456789 → NumberTooWide
1234567890123456789 is → NumberTooWide
1234567890123456789 # → Lexical(20)
1234567890123456789e1 → Unsupported(0)
(: x → Lexical(1)
instance of → Syntax
nope(1) → {nope(1)}
 → Syntax";

#[test]
fn texts_have_one_tree_or_a_refusal(rt: HostRuntime) -> Result<(), Fail> {
    expect_made(rt.alloc(), Made::Tree, EXPRESSIONS)
}

/// Texts, and what they are as patterns.
const PATTERNS: &str = "\
a → a
a/b//c → {a Slash b DoubleSlash c}
/ → /
//a | @b | /p:c/text() → {{ DoubleSlash a} Bar @b Bar { Slash p:c Slash Text()}}
child::a[1 + 2]/attribute::*[. = 3] → {{Child::a[{1 Plus 2}]} Slash {Attribute::*[{. Equal 3}]}}
a[(1)][2] → {a[{(1)}][2]}
a union b → Syntax
(a) → Syntax
a/self::b → Syntax
descendant::a → Syntax
. → Syntax
.. → Syntax
a/. → Syntax
$x → Syntax
1 → Syntax
a, b → Syntax
a[1 → Syntax
f(1) → Syntax
id('a') → Syntax
a # → Lexical(2)
a[1e3] → Unsupported(2)";

#[test]
fn patterns_are_some_of_the_expressions(rt: HostRuntime) -> Result<(), Fail> {
    expect_made(rt.alloc(), Made::PatternTree, PATTERNS)
}
