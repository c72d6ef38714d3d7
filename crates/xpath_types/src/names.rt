//! The parts of names.
ghost use Rattle.std.specs.Prelude.{◌≡◌, chars, option_map, IfOk, string_bytes};
ghost use Rattle.xpath_types.specs.Scopes as spec;

use std::alloc::{AllocError, Global};
use xpath_tokens::token::Name;

/// The prefix that has to be bound.
pub fn prefix(name: &Name) -> Option<&str>
    ensures { option_map (λ prefix. chars prefix.now) result ≡ spec.prefix_of name.now }
{
    match name {
        Name::Prefixed(prefix, _) | Name::AnyLocal(prefix) => Some(prefix.as_str()),
        Name::Plain(_) | Name::AnyPrefix(_) => None,
    }
}

/// What stands behind the prefix.
pub fn local(name: &Name) -> &str
    ensures { chars result.now ≡ spec.local_of name.now }
{
    match name {
        Name::Plain(local) | Name::Prefixed(_, local) | Name::AnyPrefix(local) => local.as_str(),
        Name::AnyLocal(_) => "*",
    }
}

/// The name as it is written.
pub fn written(alloc: Global, name: &Name) -> Result<String, AllocError>
    ensures { IfOk result (λ text. chars (string_bytes text) ≡ spec.written_name name.now) }
{
    match name {
        Name::Plain(local) => String::from_str(alloc, local.as_str()),
        Name::Prefixed(prefix, local) => joined(alloc, prefix.as_str(), local.as_str()),
        Name::AnyLocal(prefix) => Ok(joined(alloc, prefix.as_str(), "*")?),
        Name::AnyPrefix(local) => Ok(joined(alloc, "*", local.as_str())?),
    }
}

/// Two texts with a colon between them.
fn joined(alloc: Global, prefix: &str, local: &str) -> Result<String, AllocError>
    ensures { IfOk result (λ text. chars (string_bytes text) ≡ spec.with_colon (chars prefix.now) (chars local.now)) }
{
    let mut text = String::from_str(alloc, prefix)?;
    text.push(':')?;
    text.push_str(local)?;
    Ok(text)
}
