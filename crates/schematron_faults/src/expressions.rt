//! The soonest of the expressions of a file that are refused.
ghost use Rattle.std.specs.Prelude.{◌≡◌, false, IfOk, OnOk};
ghost use Rattle.schematron_meaning.specs.Written.{all_written};
ghost use Rattle.schematron_faults.specs.Least.{soonest};
ghost use Rattle.schematron_faults.specs.Read.{IsRead};
ghost use Rattle.schematron_faults.specs.Staying.{blanks_of, AreTexts};

use crate::patterns::judge_patterns;
use crate::phases::judge_outside;
use crate::search::{Search, begin};
use crate::texts::texts_of;
use schematron_expansion::{Found, RuleFile};
use std::alloc::{AllocError, Global};

/// The sooner of a fault that is known and of the expressions that are refused, of which only those are judged that
/// stand before it, and not behind the last element if one is given.
///
/// All bytes of expressions that are judged and of names, and 16 for each thing, are counted over the whole file. More
/// than `MOST_JUDGED_BYTES` count as want of memory, and so do more than `MOST_TURNS` of walks.
pub(crate) fn first_expression(
    alloc: Global,
    file: &RuleFile<'_, '_>,
    best: Option<Found>,
    last: Option<u32>,
) -> Result<Option<Found>, AllocError>
    ensures { IfOk result (λ found. IsRead file.now → found ≡ soonest best last (all_written file.now)) }
{
    let texts = texts_of(alloc, file.entries())?;
    let mut search = begin(best, last, texts);
    let gone = judge_all(alloc, &mut search, file);
    let best = search.best;
    drop(search);
    match gone {
        Ok(()) => Ok(best),
        Err(error) => Err(error),
    }
}

/// Goes over all expressions of a file.
fn judge_all(alloc: Global, search: &mut Search, file: &RuleFile<'_, '_>) -> Result<(), AllocError>
    requires again { search.old.again ≡ false }
    requires texts { AreTexts (blanks_of file.now.entries) file.now.entries search.old.texts }
    ensures { OnOk result (IsRead file.now → search.new.best ≡ soonest search.old.best search.old.last (all_written file.now)) }
{
    judge_outside(alloc, search, file)?;
    judge_patterns(alloc, search, file)
}
