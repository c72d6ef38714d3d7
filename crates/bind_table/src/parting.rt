ghost use Rattle.std.specs.Prelude.{◌≡◌};
ghost use Rattle.std.specs.List.{list_any};
ghost use Rattle.std.specs.Str.{bytes_eq};
ghost use Rattle.std.specs.Cmp.Lexicographic.{pointwise};
ghost use Rattle.bind_table.specs.Parting as spec;
ghost use Rattle.bind_table.specs.Samples as seen;

use bind_rows::{Guard, Place, Row, Same, Step, Test, Written};
use inv_base::Txt;

/// Whether both rows have one path of names, and nothing parts them.
pub(crate) fn clash(a: &Row, b: &Row) -> bool
    ensures { result ≡ spec.clash a.now b.now }
{
    let (p, q) = (a.path.as_slice(), b.path.as_slice());
    have_same_names(p, q)
        && a.leaf.is_same(&b.leaf)
        && !(part_totals(&a.written, &b.written) || part_paths(p, q))
}

fn have_same_names(a: &[Step], b: &[Step]) -> bool
    ensures { result ≡ pointwise spec.same_step_name a.now b.now }
{
    let mut xs = a;
    let mut ys = b;
    'steps: while let Some((x, more_xs)) = xs.split_first() {
        match ys.split_first() {
            None => return false,
            Some((y, more_ys)) => {
                if !x.name.is_same(&y.name) {
                    return false;
                }
                xs = more_xs;
                ys = more_ys;
            }
        }
    }
    ys.is_empty()
}

fn is_vat_total(written: &Written) -> bool
    ensures { result ≡ spec.is_vat_total written.now }
{
    match written {
        Written::VatTotal => true,
        _ => false,
    }
}

fn is_accounting_total(written: &Written) -> bool
    ensures { result ≡ spec.is_accounting_total written.now }
{
    match written {
        Written::AccountingVatTotal => true,
        _ => false,
    }
}

fn part_totals(a: &Written, b: &Written) -> bool
    ensures { result ≡ spec.part_totals a.now b.now }
{
    (is_vat_total(a) && is_accounting_total(b)) || (is_accounting_total(a) && is_vat_total(b))
}

fn part_paths(a: &[Step], b: &[Step]) -> bool
    ensures { result ≡ spec.part_paths a.now b.now }
{
    let mut xs = a;
    let mut ys = b;
    'steps: while let Some((x, more_xs)) = xs.split_first() {
        match ys.split_first() {
            None => return false,
            Some((y, more_ys)) => {
                if part(x, y, x.guards.as_slice()) || part(x, y, y.guards.as_slice()) {
                    return true;
                }
                xs = more_xs;
                ys = more_ys;
            }
        }
    }
    false
}

fn part(a: &Step, b: &Step, guards: &[Guard]) -> bool
    ensures { result ≡ spec.part a.now b.now guards.now }
{
    guards.iter().any(|guard| !can_meet(&guard.place, a, b))
}

/// Whether one string at the place, or none there, meets the guards of both.
fn can_meet(place: &Place, a: &Step, b: &Step) -> bool
    ensures { result ≡ spec.can_meet place.now a.now b.now }
{
    both_meet(place, a, b, Sample::Absent)
        || both_meet(place, a, b, Sample::Unnamed)
        || some_text_meets(place, a, b, a.guards.as_slice())
        || some_text_meets(place, a, b, b.guards.as_slice())
}

fn some_text_meets(place: &Place, a: &Step, b: &Step, guards: &[Guard]) -> bool
    ensures { result ≡ spec.some_text_meets place.now a.now b.now guards.now }
{
    guards
        .iter()
        .any(|guard| one_text_meets(place, a, b, texts_of(&guard.test)))
}

fn one_text_meets(place: &Place, a: &Step, b: &Step, texts: &[Txt]) -> bool
    ensures { result ≡ list_any (λ text. spec.both_meet place.now a.now b.now (spec.named text)) texts.now }
{
    texts
        .iter()
        .any(|text| both_meet(place, a, b, Sample::Named(text)))
}

fn texts_of(test: &Test) -> &[Txt]
    ensures { result.now ≡ spec.texts_of test.now }
{
    match test {
        Test::OneOf(texts) => texts.as_slice(),
        Test::NoneOf(texts) => texts.as_slice(),
        Test::Present => &[],
        Test::Absent => &[],
    }
}

/// What may stand at a place.
#[derive(Clone, Copy)]
enum Sample<'a> {
    /// A string that guards name.
    Named(&'a Txt),
    /// A string that no guard names.
    Unnamed,
    Absent,
}

fn both_meet(place: &Place, a: &Step, b: &Step, sample: Sample<'_>) -> bool
    ensures { result ≡ spec.both_meet place.now a.now b.now (seen.sample_of sample.entry) }
{
    all_meet(place, a.guards.as_slice(), sample) && all_meet(place, b.guards.as_slice(), sample)
}

fn all_meet(place: &Place, guards: &[Guard], sample: Sample<'_>) -> bool
    ensures { result ≡ spec.all_meet place.now (seen.sample_of sample.entry) guards.now }
{
    guards.iter().all(|guard| !guard.place.is_same(place) || meets(&guard.test, sample))
}

fn meets(test: &Test, sample: Sample<'_>) -> bool
    ensures { result ≡ spec.meets test.now (seen.sample_of sample.entry) }
{
    match test {
        Test::OneOf(texts) => is_one_of(sample, texts.as_slice()),
        Test::NoneOf(texts) => !is_one_of(sample, texts.as_slice()),
        Test::Present => is_present(sample),
        Test::Absent => !is_present(sample),
    }
}

fn is_one_of(sample: Sample<'_>, texts: &[Txt]) -> bool
    ensures { result ≡ spec.is_one_of (seen.sample_of sample.entry) texts.now }
{
    match sample {
        Sample::Named(text) => is_among(text, texts),
        Sample::Unnamed => false,
        Sample::Absent => false,
    }
}

fn is_among(text: &Txt, texts: &[Txt]) -> bool
    ensures { result ≡ list_any (bytes_eq text.now) texts.now }
{
    texts.iter().any(|other| text.is_same(other))
}

fn is_present(sample: Sample<'_>) -> bool
    ensures { result ≡ spec.is_present (seen.sample_of sample.entry) }
{
    match sample {
        Sample::Named(text) => !is_blank(text),
        Sample::Unnamed => true,
        Sample::Absent => false,
    }
}

fn is_blank(text: &Txt) -> bool
    ensures { result ≡ spec.is_blank text.now }
{
    text.as_str().chars().next().is_none()
}
