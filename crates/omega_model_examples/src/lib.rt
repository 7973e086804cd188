//! Worked examples of the definitions of `omega_model`: theorems that close by computing both sides.
//!
//! They stand apart, and nothing stands on them, so that an example more proves no other crate again.
#![tactic(auto)]
