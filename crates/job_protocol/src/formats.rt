/// How the report on a document is written.
#[derive(Clone, Copy)]
pub enum ReportFormat {
    /// A line for each finding, for a person.
    Plain,
    /// In the Schematron Validation Report Language.
    Svrl,
    /// As JSON.
    Json,
}
