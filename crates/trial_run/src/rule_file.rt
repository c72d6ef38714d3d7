//! The rule file by which the trial judges.
ghost use Rattle.std.specs.Prelude.{◌≡◌};
ghost use Rattle.trial_run.specs.Trials as spec;

const RULE_FILE: &str = "\
<schema xmlns=\"http://purl.oclc.org/dsdl/schematron\" queryBinding=\"xslt2\">\n\
<ns prefix=\"cac\" uri=\"urn:oasis:names:specification:ubl:schema:xsd:CommonAggregateComponents-2\"/>\n\
<ns prefix=\"cbc\" uri=\"urn:oasis:names:specification:ubl:schema:xsd:CommonBasicComponents-2\"/>\n\
<pattern><rule context=\"cac:InvoiceLine\">\n\
<assert test=\"xs:decimal(cbc:LineExtensionAmount) = cbc:InvoicedQuantity * cac:Price/cbc:PriceAmount\">\n\
The net amount of a line is its quantity times its price.</assert>\n\
<report test=\"cbc:ID = count(//cac:InvoiceLine)\">This is the last line.</report>\n\
</rule></pattern></schema>\n";

/// The rule file by which the trial judges: the net amount of each line, and a report of the last one.
#[tactic(auto, unfolding(crate::specs::Trials::rule_text))]
pub(crate) fn rule_file() -> &'static str
    ensures { result.now ≡ spec.rule_text }
{
    RULE_FILE
}
