ghost use Rattle.std.specs.Prelude.{◌≡◌, ◌≤◌, ◌<◌, ◌+◌, length, IfSome, IfOk, ◌==◌, ◌&&◌};
ghost use Rattle.xpath_tokens.specs.Words as spec;
ghost use Rattle.xpath_tokens.specs.Scanning as scan;

use inv_base::is_white_space;
use std::alloc::{AllocError, Global};

fn begins_comment(c: char, d: char) -> bool
    ensures { result ≡ (c == 40 && d == 58) }
{
    c == '(' && d == ':'
}

fn ends_comment(c: char, d: char) -> bool
    ensures { result ≡ (c == 58 && d == 41) }
{
    c == ':' && d == ')'
}

/// Inside a comment: how many characters it still has, where it ends. Comments nest.
fn comment_rest(text: &[char]) -> Option<usize>
    ensures exact { result ≡ spec.comment_rest 0 0 text.now }
    ensures within { IfSome result (λ n. n ≤ length text.now) }
{
    let mut outer: usize = 0;
    let mut before = '\0';
    'characters: for (i, c) in text.iter().enumerate() {
        if begins_comment(before, *c) {
            outer += 1;
            before = '\0';
        } else if ends_comment(before, *c) {
            if outer == 0 {
                return Some(i + 1);
            }
            outer -= 1;
            before = '\0';
        } else {
            before = *c;
        }
    }
    None
}

/// How many ends of comments are left over behind `(:`, given how many are behind its first character.
#[tactic(auto, unfolding(crate::specs::Scanning::pending_inside))]
fn pending_inside(text: &[char], pending: usize) -> usize
    ensures { result ≡ scan.pending_inside pending text.now }
{
    match text {
        [')', ..] => pending.saturating_sub(1),
        _ => pending,
    }
}

/// How many ends of comments are left over in the text, given how many are behind its first character.
#[tactic(auto, unfolding(crate::specs::Scanning::pending_before))]
fn pending_before(text: &[char], pending: usize) -> usize
    requires { pending ≤ length text.now }
    ensures { result ≡ scan.pending_before pending text.now }
{
    match text {
        ['(', ':', inside @ ..] => pending_inside(inside, pending).saturating_sub(1),
        [':', ')', ..] => pending + 1,
        _ => pending,
    }
}

/// Whether the text begins with `(:` and no comment, given how many ends of comments are left over behind its first character.
#[tactic(auto, unfolding(crate::specs::Scanning::unclosed_before))]
fn unclosed_before(text: &[char], pending: usize) -> bool
    ensures { result ≡ scan.unclosed_before pending text.now }
{
    match text {
        ['(', ':', inside @ ..] => pending_inside(inside, pending) == 0,
        _ => false,
    }
}

/// For each place of the text, whether a comment begins there that doesn't end. One pass from the end finds all, so that
/// many comments that don't end cost no more than few.
pub fn unclosed_comments(alloc: Global, text: &[char]) -> Result<Vec<bool>, AllocError>
    ensures { IfOk result (λ v. scan.MarksFrom 0 text.now v.items) }
{
    let mut unclosed = vec![in alloc; false; text.len()]?;
    let mut pending: usize = 0;
    let mut place = text.len();
    'places: while place > 0 {
        place -= 1;
        let (_, rest) = text.split_at(place);
        unclosed[place] = unclosed_before(rest, pending);
        pending = pending_before(rest, pending);
    }
    Ok(unclosed)
}

/// The length of the comment at the front of the text, where one is there that ends.
#[tactic(auto, using(crate::proofs::CommentLaws::unclosed_none), unfolding(crate::specs::Words::comment_at))]
fn comment_length(text: &[char], unclosed: bool) -> Option<usize>
    requires { unclosed ≡ scan.is_unclosed text.now }
    ensures exact { result ≡ spec.comment_at text.now }
    ensures within { IfSome result (λ n. n ≤ length text.now) }
{
    if unclosed {
        return None;
    }
    match text {
        ['(', ':', inside @ ..] => Some(1 + (1 + comment_rest(inside)?)),
        _ => None,
    }
}

/// The length of the white space or the comment at the front of the text, 0 where there is neither.
#[tactic(auto, unfolding(crate::specs::Words::separator_length))]
pub fn separator_length(text: &[char], unclosed: bool) -> usize
    requires { unclosed ≡ scan.is_unclosed text.now }
    ensures exact { result ≡ spec.separator_length text.now }
    ensures within { result ≤ length text.now }
{
    match text {
        [first, ..] if is_white_space(*first) => 1,
        [_, ..] => comment_length(text, unclosed).unwrap_or(0),
        [] => 0,
    }
}
