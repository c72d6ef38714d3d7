//! What a rule file may come to, so that a small one can't cost minutes or take all memory. What passes one of these
//! counts as want of memory.

/// How many bytes are judged at most while faults are looked for: those of expressions, and of names that are declared
/// in patterns, each as it is written or with its parameters, whichever is more. A few are counted for each thing that is
/// gone over.
pub const MOST_JUDGED_BYTES: u64 = 67_108_864;

/// How many turns are taken at most, while faults are looked for, by walks over what stands in elements and over what
/// `extends` puts.
pub const MOST_TURNS: u64 = 16_777_216;

/// How many things are built at most: lets, rules, assertions and parts of messages, each wherever it is put.
pub const MOST_THINGS: usize = 4_000_000;

/// How many lets and assertions a rule that extends others has at most.
pub const MOST_THINGS_OF_A_RULE: usize = 1_000_000;

/// How many bytes of texts are read and made at most while a file is built.
pub const MOST_BUILT_BYTES: usize = 268_435_456;
