ghost use Rattle.std.specs.Prelude.{◌≡◌};
ghost use Rattle.invoice_json.specs.InvoiceJson.{array_name};

use term_table::Group;

/// How the array of a group is named.
pub fn array_name(group: Group) -> &'static str
    ensures { result.now ≡ array_name group }
{
    match group {
        Group::SellerIdentifier => "BT-29",
        Group::SellerSchemedIdentifier => "BT-29",
        Group::ItemClassification => "BT-158",
        other => other.label(),
    }
}
