/// How the terms of an invoice are written.
#[derive(Clone, Copy)]
pub enum AnswerFormat {
    /// A line each, for a person.
    Lines,
    /// As JSON.
    Json,
}
