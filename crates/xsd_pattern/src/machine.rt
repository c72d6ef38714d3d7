//! Reading a pattern token by token, with what is open on a stack.
ghost use Rattle.std.specs.Prelude.{◌≡◌, OnOk, IfOk, true, false};
ghost use Rattle.xsd_pattern.specs.Machine as m;
ghost use Rattle.xsd_pattern.specs.Parts.{no_part, parts};
ghost use Rattle.xsd_pattern.specs.States.{seen, only_if};

use crate::frames::Frames;
use crate::parts::{Part, either, followed, line, repeated};
use crate::token::{Repeat, Token};
use std::alloc::{AllocError, Global};
use std::mem;

/// What a group stands behind: the alternatives and the pieces before it.
#[derive(Drop)]
pub struct Frame<R, B> {
    pub before: Option<R>,
    pub branch: B,
}

/// What stands last.
#[derive(Drop)]
pub enum Last<A> {
    /// Nothing yet in a line.
    Fresh,
    /// Nothing that a quantifier may stand behind.
    Nothing,
    Atom(A),
    /// The end of a line.
    Ended,
}

/// What was read: the lines before, whether the line begins at the text's begin, the groups that are open, the alternatives
/// and the pieces before, and what stands last.
#[derive(Drop)]
pub(crate) struct State {
    pub lines: Option<Part>,
    pub starts: bool,
    pub frames: Frames,
    pub before: Option<Part>,
    pub branch: Part,
    pub last: Last<Part>,
}

/// The branch with what stands last in it.
fn settled(alloc: Global, branch: Part, last: Last<Part>) -> Result<Part, AllocError>
    ensures { IfOk result (λ part. part ≡ m.settled parts branch last) }
{
    match last {
        Last::Atom(atom) => followed(alloc, branch, atom),
        Last::Fresh | Last::Nothing | Last::Ended => Ok(branch),
    }
}

/// The alternatives with the branch, and with what stands last in that.
fn alternatives(
    alloc: Global,
    before: Option<Part>,
    branch: Part,
    last: Last<Part>,
) -> Result<Part, AllocError>
    ensures { IfOk result (λ part. part ≡ m.with_branch parts before (m.settled parts branch last)) }
{
    match before {
        None => settled(alloc, branch, last),
        Some(before) => {
            let branch = settled(alloc, branch, last)?;
            either(alloc, before, branch)
        }
    }
}

/// The lines with the line.
fn with_line(
    alloc: Global,
    lines: Option<Part>,
    starts: bool,
    branch: Part,
    ends: bool,
) -> Result<Part, AllocError>
    ensures { IfOk result (λ part. part ≡ m.with_line parts lines starts branch ends) }
{
    match lines {
        None => line(alloc, starts, branch, ends),
        Some(lines) => {
            let line = line(alloc, starts, branch, ends)?;
            either(alloc, lines, line)
        }
    }
}

fn is_ended(last: &Last<Part>) -> bool
    ensures { result ≡ m.is_ended parts last.now }
{
    matches!(last, Last::Ended)
}

fn is_fresh(last: &Last<Part>) -> bool
    ensures { result ≡ m.is_fresh parts last.now }
{
    matches!(last, Last::Fresh)
}

impl State {
    /// Nothing read yet.
    pub(crate) fn new(alloc: Global) -> State
        ensures { seen result ≡ m.start parts }
    {
        State {
            lines: None,
            starts: false,
            frames: Frames::new(alloc),
            before: None,
            branch: Part::nothing(alloc),
            last: Last::Fresh,
        }
    }

    /// Puts what stands last into the branch.
    fn settle(&mut self, alloc: Global) -> Result<(), AllocError>
        ensures { OnOk result (seen self.new ≡ m.at self.old.lines self.old.starts self.old.frames self.old.before
            (m.settled parts self.old.branch self.old.last) m.nothing) }
    {
        let last = mem::replace(&mut self.last, Last::Nothing);
        let branch = mem::replace(&mut self.branch, Part::nothing(alloc));
        let branch = settled(alloc, branch, last)?;
        drop(mem::replace(&mut self.branch, branch));
        Ok(())
    }

    fn item(&mut self, alloc: Global, place: Option<usize>) -> Result<bool, AllocError>
        ensures { IfOk result (λ read. m.step parts (Token.Item place) (seen self.old) ≡ only_if read (seen self.new)) }
    {
        if is_ended(&self.last) {
            return Ok(false);
        }
        self.settle(alloc)?;
        let atom = Part::one(alloc, place)?;
        drop(mem::replace(&mut self.last, Last::Atom(atom)));
        Ok(true)
    }

    fn count(&mut self, alloc: Global, repeat: Repeat) -> Result<bool, AllocError>
        ensures { IfOk result (λ read. m.step parts (Token.Quantifier repeat) (seen self.old) ≡ only_if read (seen self.new)) }
    {
        let last = mem::replace(&mut self.last, Last::Nothing);
        match last {
            Last::Atom(atom) => {
                let atom = repeated(alloc, repeat, atom)?;
                let branch = mem::replace(&mut self.branch, Part::nothing(alloc));
                let branch = followed(alloc, branch, atom)?;
                drop(mem::replace(&mut self.branch, branch));
                Ok(true)
            }
            Last::Fresh | Last::Nothing | Last::Ended => Ok(false),
        }
    }

    fn open(&mut self, alloc: Global) -> Result<bool, AllocError>
        ensures { IfOk result (λ read. m.step parts Token.Opens (seen self.old) ≡ only_if read (seen self.new)) }
    {
        if is_ended(&self.last) {
            return Ok(false);
        }
        self.settle(alloc)?;
        let before = self.before.take();
        let branch = mem::replace(&mut self.branch, Part::nothing(alloc));
        self.frames.push(Frame { before, branch })?;
        Ok(true)
    }

    /// Takes the alternatives of the group that is open, or of the line.
    fn take_alternatives(&mut self, alloc: Global) -> Result<Part, AllocError>
        ensures { IfOk result (λ part. (part ≡ m.with_branch parts self.old.before (m.settled parts self.old.branch self.old.last)) ×
            (seen self.new ≡ m.at self.old.lines self.old.starts self.old.frames None no_part m.nothing)) }
    {
        let last = mem::replace(&mut self.last, Last::Nothing);
        let branch = mem::replace(&mut self.branch, Part::nothing(alloc));
        let before = self.before.take();
        alternatives(alloc, before, branch, last)
    }

    fn close(&mut self, alloc: Global) -> Result<bool, AllocError>
        ensures { IfOk result (λ read. m.step parts Token.Closes (seen self.old) ≡ only_if read (seen self.new)) }
    {
        match self.frames.pop() {
            None => Ok(false),
            Some(frame) => {
                let group = self.take_alternatives(alloc)?;
                let Frame { before, branch } = frame;
                drop(mem::replace(&mut self.before, before));
                drop(mem::replace(&mut self.branch, branch));
                drop(mem::replace(&mut self.last, Last::Atom(group)));
                Ok(true)
            }
        }
    }

    fn end_line(&mut self, alloc: Global) -> Result<(), AllocError>
        requires { m.is_nil self.old.frames ≡ true }
        ensures { OnOk result (m.step parts Token.Bar (seen self.old) ≡ Some (seen self.new)) }
    {
        let ends = is_ended(&self.last);
        let starts = mem::replace(&mut self.starts, false);
        let last = mem::replace(&mut self.last, Last::Fresh);
        let branch = mem::replace(&mut self.branch, Part::nothing(alloc));
        let lines = self.lines.take();
        let branch = settled(alloc, branch, last)?;
        let line = with_line(alloc, lines, starts, branch, ends)?;
        drop(mem::replace(&mut self.lines, Some(line)));
        drop(mem::replace(&mut self.before, None));
        Ok(())
    }

    fn end_branch(&mut self, alloc: Global) -> Result<(), AllocError>
        requires { m.is_nil self.old.frames ≡ false }
        ensures { OnOk result (m.step parts Token.Bar (seen self.old) ≡ Some (seen self.new)) }
    {
        let alternatives = self.take_alternatives(alloc)?;
        drop(mem::replace(&mut self.before, Some(alternatives)));
        Ok(())
    }

    fn bar(&mut self, alloc: Global) -> Result<bool, AllocError>
        ensures { IfOk result (λ read. m.step parts Token.Bar (seen self.old) ≡ only_if read (seen self.new)) }
    {
        if self.frames.is_empty() {
            self.end_line(alloc)?;
        } else {
            self.end_branch(alloc)?;
        }
        Ok(true)
    }

    fn begin(&mut self) -> bool
        ensures { m.step parts Token.Begins (seen self.old) ≡ only_if result (seen self.new) }
    {
        if !self.frames.is_empty() || !is_fresh(&self.last) {
            return false;
        }
        self.starts = true;
        drop(mem::replace(&mut self.last, Last::Nothing));
        true
    }

    fn end(&mut self, alloc: Global) -> Result<bool, AllocError>
        ensures { IfOk result (λ read. m.step parts Token.Ends (seen self.old) ≡ only_if read (seen self.new)) }
    {
        if !self.frames.is_empty() || is_ended(&self.last) {
            return Ok(false);
        }
        self.settle(alloc)?;
        drop(mem::replace(&mut self.last, Last::Ended));
        Ok(true)
    }

    /// Reads one token. False where it can't stand there.
    pub(crate) fn step(
        &mut self,
        alloc: Global,
        token: Token<Option<usize>>,
    ) -> Result<bool, AllocError>
        ensures { IfOk result (λ read. m.step parts token (seen self.old) ≡ only_if read (seen self.new)) }
    {
        match token {
            Token::Item(place) => self.item(alloc, place),
            Token::Quantifier(repeat) => self.count(alloc, repeat),
            Token::Opens => self.open(alloc),
            Token::Closes => self.close(alloc),
            Token::Bar => self.bar(alloc),
            Token::Begins => Ok(self.begin()),
            Token::Ends => self.end(alloc),
        }
    }

    /// The whole pattern, where no group is open.
    pub(crate) fn finish(&mut self, alloc: Global) -> Result<Option<Part>, AllocError>
        ensures { IfOk result (λ part. part ≡ m.finished parts (seen self.old)) }
    {
        if !self.frames.is_empty() {
            return Ok(None);
        }
        let ends = is_ended(&self.last);
        let last = mem::replace(&mut self.last, Last::Nothing);
        let branch = mem::replace(&mut self.branch, Part::nothing(alloc));
        let lines = self.lines.take();
        let branch = settled(alloc, branch, last)?;
        let line = with_line(alloc, lines, self.starts, branch, ends)?;
        Ok(Some(line))
    }
}
