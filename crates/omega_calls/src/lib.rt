//! Calls as lines of text: a line's words, what they say, how answers are put into words, and the steps of a
//! board that the programs of cases have in common.
//!
//! Promised: what words of a line say, as numbers, tasks and claims, and how answers are put into words; where
//! an entry is refused the board's machines and tasks stay as they were.
#![tactic(auto)]

mod answering;
mod entries;
mod fault;
mod line;
mod showing;
mod values;

pub use answering::answer_lines;
pub use entries::{add, apply, commit_claim, end};
pub use fault::Fault;
pub use line::{is_heading, words_of};
pub use showing::{part, show_need, show_place, show_spec, show_task};
pub use values::{
    GREATEST, byte, claim, constraint_of, is_colon, need, number, place, policy_of, small, spec,
    task, tasks, text,
};
