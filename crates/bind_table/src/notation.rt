/// The pieces of a table, written as the standards list it: `table_items!({holding leaf} ..)`, where `holding` is the
/// namespace of an element that holds elements, and `leaf` that of one that holds a value. What is listed is:
///
/// - `Name { .. }`: an element with what stands in it; `Name = cell;`: one that holds a value, with `, @ name = cell`
///   for each attribute;
/// - `Namespace: Name ..`: an element in another namespace; `+ Name { .. }`: one that is always written;
/// - `for Group` behind the name: the element is one occurrence of the group; `if CONDITION`, once or twice: one that
///   meets the conditions;
/// - `begin Name;`, `begin Namespace: Name;`: an element that ends only at an `end;`, in another section of the table;
/// - `name!(..);`: what the macro `name` lists in its place, an abbreviation.
#[macro_export]
macro_rules! table_items {
    (@ $spaces:tt [$({$($item:expr,)*})*]) => {
        &[$($($item,)*)*]
    };
    (@ $spaces:tt [$($done:tt)*] ; $($rest:tt)*) => {
        $crate::table_items!(@ $spaces [$($done)* {$crate::TableItem::End,}] $($rest)*)
    };
    (@ $spaces:tt [$($done:tt)*] end ; $($rest:tt)*) => {
        $crate::table_items!(@ $spaces [$($done)* {$crate::TableItem::End,}] $($rest)*)
    };
    (@ $spaces:tt [$($done:tt)*] begin $space:ident : $name:ident ; $($rest:tt)*) => {
        $crate::table_items!(@ $spaces [$($done)* {
            $crate::TableItem::Element($crate::table_items!(head $space $name false () ())),
        }] $($rest)*)
    };
    (@ {$holding:ident $leaf:ident} [$($done:tt)*] begin $name:ident $(for $group:ident)? ; $($rest:tt)*) => {
        $crate::table_items!(@ {$holding $leaf} [$($done)* {
            $crate::TableItem::Element($crate::table_items!(head $holding $name false ($($group)?) ())),
        }] $($rest)*)
    };
    (@ $spaces:tt $done:tt $abbreviation:ident ! $arguments:tt ; $($rest:tt)*) => {
        $abbreviation!($spaces $done $arguments $($rest)*)
    };
    (@ $spaces:tt [$($done:tt)*] $space:ident : $name:ident = $cell:expr $(, @ $attribute:ident = $value:expr)* ; $($rest:tt)*) => {
        $crate::table_items!(@ $spaces [$($done)* {
            $crate::TableItem::Element($crate::table_items!(head $space $name false () ())),
            $crate::TableItem::Text($cell),
            $($crate::TableItem::Attribute(stringify!($attribute), $value),)*
            $crate::TableItem::End,
        }] $($rest)*)
    };
    (@ {$holding:ident $leaf:ident} [$($done:tt)*] $name:ident $(for $group:ident)? = $cell:expr $(, @ $attribute:ident = $value:expr)* ; $($rest:tt)*) => {
        $crate::table_items!(@ {$holding $leaf} [$($done)* {
            $crate::TableItem::Element($crate::table_items!(head $leaf $name false ($($group)?) ())),
            $crate::TableItem::Text($cell),
            $($crate::TableItem::Attribute(stringify!($attribute), $value),)*
            $crate::TableItem::End,
        }] $($rest)*)
    };
    (@ $spaces:tt [$($done:tt)*] $space:ident : $name:ident { $($inside:tt)* } $($rest:tt)*) => {
        $crate::table_items!(@ $spaces [$($done)* {
            $crate::TableItem::Element($crate::table_items!(head $space $name false () ())),
        }] $($inside)* ; $($rest)*)
    };
    (@ {$holding:ident $leaf:ident} [$($done:tt)*] + $name:ident { $($inside:tt)* } $($rest:tt)*) => {
        $crate::table_items!(@ {$holding $leaf} [$($done)* {
            $crate::TableItem::Element($crate::table_items!(head $holding $name true () ())),
        }] $($inside)* ; $($rest)*)
    };
    (@ {$holding:ident $leaf:ident} [$($done:tt)*] $name:ident $(for $group:ident)? $(if $condition:ident)* { $($inside:tt)* } $($rest:tt)*) => {
        $crate::table_items!(@ {$holding $leaf} [$($done)* {
            $crate::TableItem::Element($crate::table_items!(head $holding $name false ($($group)?) ($($condition)*))),
        }] $($inside)* ; $($rest)*)
    };
    (head $space:ident $name:ident $always:literal () ($($condition:ident)*)) => {
        $crate::Head {
            tag: $crate::Tag { namespace: Namespace::$space, local: stringify!($name) },
            always: $always,
            group: None,
            conditions: &[$($condition),*],
        }
    };
    (head $space:ident $name:ident $always:literal ($group:ident) ($($condition:ident)*)) => {
        $crate::Head {
            tag: $crate::Tag { namespace: Namespace::$space, local: stringify!($name) },
            always: $always,
            group: Some(Group::$group),
            conditions: &[$($condition),*],
        }
    };
    ({$holding:ident $leaf:ident} $($listed:tt)*) => {
        $crate::table_items!(@ {$holding $leaf} [] $($listed)*)
    };
}
