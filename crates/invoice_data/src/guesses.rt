ghost use Rattle.std.specs.Prelude.{◌≡◌, fold, bytes_eq};
ghost use Rattle.inv_listing.specs.Listing.{term_text};
ghost use Rattle.invoice_data.specs.Guesses as spec;

use inv_listing::put_term;
use short_lines::Short;
use term_table::Term;

/// The numbers that stand in a name: the first behind its first dash, the second behind the next one.
#[derive(Clone, Copy)]
pub struct Guess {
    pub dashes: u8,
    pub number: u16,
    pub part: u16,
}

const NO_GUESS: Guess = Guess {
    dashes: 0,
    number: 0,
    part: 0,
};

/// A number with one more digit, of which only the last ones are kept.
fn with_digit(number: u16, byte: u8) -> u16
    ensures { result ≡ spec.with_digit number byte }
{
    number % 1000 * 10 + u16::from(byte % 16)
}

fn digit_read(g: Guess, byte: u8) -> Guess
    ensures { result ≡ spec.digit_read g byte }
{
    if g.dashes == 0 {
        g
    } else if g.dashes == 1 {
        Guess {
            dashes: g.dashes,
            number: with_digit(g.number, byte),
            part: g.part,
        }
    } else {
        Guess {
            dashes: g.dashes,
            number: g.number,
            part: with_digit(g.part, byte),
        }
    }
}

fn dash_read(g: Guess) -> Guess
    ensures { result ≡ spec.dash_read g }
{
    let dashes = if g.dashes < 2 { g.dashes + 1 } else { g.dashes };
    Guess {
        dashes,
        number: g.number,
        part: g.part,
    }
}

#[tactic(auto, unfolding(crate::specs::Guesses::guess_read))]
fn guess_read(g: Guess, byte: u8) -> Guess
    ensures { result ≡ spec.guess_read g byte }
{
    if byte == b'-' {
        dash_read(g)
    } else {
        digit_read(g, byte)
    }
}

fn all_read(name: &[u8]) -> Guess
    ensures { result ≡ fold spec.guess_read spec.no_guess name.now }
{
    let mut guess = NO_GUESS;
    'bytes: for byte in name {
        guess = guess_read(guess, *byte);
    }
    guess
}

fn term_by(first: u8, g: Guess) -> Term
    ensures { result ≡ spec.term_by first g }
{
    if first == b'E' {
        Term {
            number: g.number.wrapping_add(1000),
            part: 0,
        }
    } else {
        Term {
            number: g.number,
            part: (g.part % 256) as u8,
        }
    }
}

/// The only term that the name may be of.
#[tactic(auto, unfolding(crate::specs::Guesses::guessed))]
pub(crate) fn guessed(name: &[u8]) -> Term
    ensures { result ≡ spec.guessed name.now }
{
    match name.split_first() {
        Some((first, behind)) => term_by(*first, all_read(behind)),
        None => Term { number: 0, part: 0 },
    }
}

/// Whether the name is that of the term.
pub(crate) fn is_name_of(term: Term, name: &[u8]) -> bool
    ensures { result ≡ bytes_eq (term_text term) name.now }
{
    let mut text = Short::new();
    put_term(&mut text, term);
    text.as_slice() == name
}
