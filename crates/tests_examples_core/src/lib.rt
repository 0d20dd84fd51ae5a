//! The definitions of the core tried on worked examples. Each function's contract is an example, or a few of one
//! kind, and each clause is named by what it shows. The check computes both sides, so a definition that gave anything
//! else would be refused. The functions themselves do nothing.
#![tactic(auto)]

pub mod books;
pub mod documents;
pub mod histories;
pub mod limits;
pub mod machine;
pub mod matching;
pub mod numbers;
pub mod place;
pub mod policies;
pub mod publications;
pub mod requests;
pub mod texts;
pub mod time;
pub mod verdicts;
