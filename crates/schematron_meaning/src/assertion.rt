/// What an assertion says of its test.
#[derive(Clone, Copy, PartialEq, Eq)]
pub enum AssertionKind {
    /// It fails where its test is false.
    Assert,
    /// It succeeds where its test is true.
    Report,
}
