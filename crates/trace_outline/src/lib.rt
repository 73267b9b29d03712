//! A trace as a run sees it beside its samples and records, whole or in outline.
#![tactic(auto)]

mod laws;
mod views;

pub use laws::{views_are_fit, views_keep_limits};
pub use views::TraceView;
