//! Jobs of every kind and refusals, with what they read.

use crate::cases::Case;
use crate::invoice_cases::changed;

/// Of each job its words, the number of its status, and the files that it reads, in their order.
pub(crate) const JOBS: &str = "\
outline f|0|f
show f|0|f
show --codes eur f|0|eur f
show --json f|0|f
totals f|1|f
totals --codes eur f|1|eur f
convert --to ubl f|0|f
convert --to cii --codes eur f|0|eur f
check --rules taxes f|1|taxes f
check --svrl --rules taxes --phase #ALL --rules dates f|1|taxes dates f
query //cbc:ID f|0|f
extract 1 f|0|f
try 3|0|";

/// Of each refusal the words, the number of the status, and the line on the error output.
pub(crate) const REFUSALS: &str = "\
shew f|2|bad word 1
frob|2|bad word 1
convert --to pdf f|2|bad word 3
show --json --json f|2|bad word 3
convert --json --to cii f|2|bad word 2
check f|2|bad word 2
validate f f|2|bad word 3
try 10001|2|bad word 2
outline ill|3|ill: Mismatched at 3
show first|3|first: UnknownRoot at 0
totals first|3|first: UnknownRoot at 0
validate first|3|first: UnknownRoot at 0
validate --svrl ill|3|ill: Mismatched at 3
convert --to cii first|3|first: UnknownRoot at 0
extract 1 first|3|first: UnknownRoot at 0
check --rules taxes ill|3|ill: Mismatched at 3
query 1 ill|3|ill: Mismatched at 3
show --codes taxes f|4|taxes: NotToml
validate --codes taxes f|4|taxes: NotToml
check --rules first f|4|first: NotSchematron at 0 -
check --rules ill f|4|ill: Mismatched at 3
check --rules taxes --phase none f|4|taxes: NoPhase none
query 1# f|4|expression: Lexical 1
extract 2 f|5|attachment 2: NoSuch
show none|6|none: read fault
totals none|6|none: read fault
validate none|6|none: read fault
outline none|6|none: read fault
check --rules none f|6|none: read fault";

const ATTACHED: &str = "<cac:AdditionalDocumentReference><cbc:ID>d</cbc:ID><cac:Attachment>\
<cbc:EmbeddedDocumentBinaryObject mimeCode=\"text/csv\" filename=\"d.csv\">YWJj</cbc:EmbeddedDocumentBinaryObject>\
</cac:Attachment></cac:AdditionalDocumentReference><cac:AccountingSupplierParty>";

/// A job over an invoice that has a document attached.
pub(crate) fn job_of(words: &str) -> Case<'_> {
    changed(words, "<cac:AccountingSupplierParty>", ATTACHED)
}
