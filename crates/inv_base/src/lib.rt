//! What every layer of `einv` speaks in: files that are read and outputs that are written, counts of
//! faults, places, characters, and in `specs/` the plain tree of a document.
#![tactic(auto)]

mod ascii;
mod buffered;
mod characters;
mod copying;
mod fronts;
mod many;
mod mem_shelf;
mod mem_sink;
mod outside;
mod place;
mod printing;
mod steps;
mod strings;
mod sure_shelf;
mod sure_sink;
mod tree;
mod txt;
mod writing;

pub use ascii::ascii_text;
pub use buffered::Buffered;
pub use characters::{is_char, is_name_char, is_name_start, is_white_space};
pub use fronts::{Stops, front_len};
pub use many::Many;
pub use mem_shelf::MemShelf;
pub use mem_sink::MemSink;
pub use outside::{Failed, Shelf, Sink};
pub use place::Place;
pub use printing::Printer;
pub use steps::Steps;
pub use strings::Str;
pub use sure_shelf::SureShelf;
pub use sure_sink::SureSink;
pub use tree::Kind;
pub use txt::{Txt, is_same_text};
pub use writing::write_all;
