//! The report on how operators stood: what was sampled of each rule as rows of CSV (RFC 4180), a summary of each rule's
//! days, and both as a page that prints.
#![tactic(auto)]

mod cell;
mod counts;
mod days;
mod escape;
mod excess;
mod formula;
mod names;
mod page;
mod pieces;
mod ranking;
mod reported;
mod rows;
mod rule_section;
mod since;
mod spells;
mod summary;
mod timeline;
mod verdicts;
mod words;

pub use page::{page_start, push_page_end, push_page_operator};
pub use reported::{ReportHead, ReportSpan, ReportedOperator};
pub use summary::{push_summary, summary_header};
pub use verdicts::{push_verdicts, verdicts_header};
