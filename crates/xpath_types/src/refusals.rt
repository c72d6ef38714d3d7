ghost use Rattle.std.specs.Prelude.{◌≡◌, not};
ghost use Rattle.xpath_types.specs.Judging.{is_empty, standing_at, unless};
ghost use Rattle.xpath_types.specs.Refusals as spec;

use crate::fault::TypeKind;

/// What is refused at a token.
#[derive(Clone, Copy)]
pub(crate) struct Refusal {
    pub token: u32,
    pub kind: TypeKind,
}

/// The place of a kind among those at one token.
fn order(kind: TypeKind) -> u8
    ensures { result ≡ spec.order kind }
{
    match kind {
        TypeKind::UndeclaredPrefix => 0,
        TypeKind::UndeclaredVariable => 1,
        TypeKind::UnknownFunction => 2,
        TypeKind::UnknownType => 3,
        TypeKind::WrongArity => 4,
        TypeKind::NotLiteral => 5,
        TypeKind::BadPattern => 6,
        TypeKind::PatternTooLarge => 7,
        TypeKind::SureTypeError => 8,
    }
}

fn is_before(a: Refusal, b: Refusal) -> bool
    ensures { result ≡ spec.is_before a b }
{
    a.token < b.token || (a.token == b.token && order(a.kind) < order(b.kind))
}

/// Keeps the refusal where it is before the first one so far.
pub(crate) fn refuse(first: &mut Option<Refusal>, token: u32, kind: TypeKind)
    ensures { first.new ≡ spec.earlier first.old (record { token = token; kind = kind }) }
{
    let refusal = Refusal { token, kind };
    match *first {
        None => *first = Some(refusal),
        Some(so_far) => {
            if is_before(refusal, so_far) {
                *first = Some(refusal);
            }
        }
    }
}

/// Refuses the token unless the test holds, and tells whether it did.
pub(crate) fn refuse_unless(
    first: &mut Option<Refusal>,
    token: u32,
    holds: bool,
    kind: TypeKind,
) -> bool
    ensures first { first.new ≡ spec.first_of first.old (standing_at token (unless holds kind)) }
    ensures told { result ≡ not (is_empty (unless holds kind)) }
{
    if holds {
        return false;
    }
    refuse(first, token, kind);
    true
}
