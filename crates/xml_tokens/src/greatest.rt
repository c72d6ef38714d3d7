/// The greatest number of bytes of a tag, its `<` and `>` among them.
pub const GREATEST_TAG: usize = 262_144;
