//! The top call of the program: the command that the words name, its text on the output, and its status with one line on
//! the error output. Nothing else is written.
#![tactic(auto)]

mod answering;
mod commands;
pub mod laws;
mod listings;
mod makes;
mod messages;
mod plains;
mod refusals;
mod replays;
mod tidies;

pub use answering::dcpi_still;
pub use commands::{Command, words_of};
pub use database_state::{DbFault, FullWhat};
pub use dcpiprof_report::Epochs;
pub use direct_counts::{counts_text, plain_counts};
pub use messages::tell;
pub use plains::plain;
pub use refusals::Refusal;
pub use symbol_ranges::SymbolWhy;
pub use trace_text::{TraceRefusal, TraceWhy};
