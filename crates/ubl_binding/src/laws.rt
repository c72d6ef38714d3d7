ghost use Rattle.std.specs.Prelude.{◌≡◌, true, Ok};
ghost use Rattle.bind_table.specs.Laid.{is_writable};
ghost use Rattle.bind_table.specs.WellFormed.{first_fault};
ghost use Rattle.ubl_binding.specs.Tables.{invoice_rows, credit_note_rows};

/// The table of an invoice is well formed.
pub fn invoice_is_well_formed()
    ensures { first_fault invoice_rows ≡ Ok tt }
{}

/// The table of an invoice is laid.
pub fn invoice_is_writable()
    ensures { is_writable invoice_rows ≡ true }
{}

/// The table of a credit note is well formed.
pub fn credit_note_is_well_formed()
    ensures { first_fault credit_note_rows ≡ Ok tt }
{}

/// The table of a credit note is laid.
pub fn credit_note_is_writable()
    ensures { is_writable credit_note_rows ≡ true }
{}
