//! Scripts: their lines, their faults and their text.
#![tactic(auto)]

mod block_faults;
mod builders;
mod buildings;
mod flats;
mod laws;
mod levels;
mod line_splits;
mod parse_faults;
mod parsing;
mod printing;
mod readers;
mod row_faults;
mod row_laws;
mod row_printer;
mod row_reader;
mod row_texts;
mod rows;
mod script_printer;
mod targets;

pub use block_faults::BlockFault;
pub use builders::Builder;
pub use flats::Flat;
pub use laws::{law_of_faults, law_of_lines, law_of_reading_again};
pub use line_splits::{first_line, is_blank};
pub use parse_faults::{ParseFault, ParseKind};
pub use parsing::parse;
pub use printing::print;
pub use readers::ScriptReader;
pub use row_laws::{law_of_rows, law_of_scripts};
pub use row_printer::print_row;
pub use row_reader::read_row;
pub use script_printer::print_script;
