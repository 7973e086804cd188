//! The whole report of a history, as text or as JSON.
//!
//! Promised: `report` answers exactly the bytes of the report of a history with its effects, in the form of the
//! settings: its lines, what is used at each round's end, and the counts; for each trace of which the history
//! begins all rounds, as every lawful one does (`lawful_histories_begin_all_rounds`), and for each list of
//! wanted tasks of which what is handed in is what waits at its end. `timed_report` answers the same with the
//! lines of what the times add up to behind it, and, where it is handed these, the lines of each time. The JSON
//! is the compact form in which `serde_json` prints the lines as a value (`json_is_compact`). `json_of` makes
//! of lines that are given as text the JSON of the same lines; where all numbers have 64 bits it is the JSON
//! that `report` makes of them (`json_of_short_lines`). `audit_report` answers exactly the bytes of the report
//! of an audited history, in either form.
//!
//! A page takes the report's lines one after the other, each as its words, and holds only their bytes
//! in the report's format. One walk over the history, beside what was noted of its effects, puts the
//! lines of each entry on it, and what the history comes to.
#![tactic(auto)]

mod ahead;
mod audited;
mod claims;
mod counts;
mod details;
mod entry_lines;
mod items;
mod json_of_text;
mod json_word;
mod judgements;
mod laws;
mod line_words;
mod lines;
mod page;
mod reporting;
mod tally;
mod walk;
mod writing;

pub use audited::audit_report;
pub use details::TimeDetails;
pub use json_of_text::json_of;
pub use laws::{json_is_compact, json_of_short_lines, lawful_histories_begin_all_rounds};
pub use reporting::{report, timed_report};
