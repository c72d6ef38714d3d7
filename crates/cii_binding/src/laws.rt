ghost use Rattle.std.specs.Prelude.{◌≡◌, true, Ok};
ghost use Rattle.bind_table.specs.Laid.{is_writable};
ghost use Rattle.bind_table.specs.WellFormed.{first_fault};
ghost use Rattle.cii_binding.specs.Table.{cii_rows};

/// The table is well formed.
pub fn cii_is_well_formed()
    ensures { first_fault cii_rows ≡ Ok tt }
{}

/// The table is laid.
pub fn cii_is_writable()
    ensures { is_writable cii_rows ≡ true }
{}
