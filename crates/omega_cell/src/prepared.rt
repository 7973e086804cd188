//! A transaction with all the room that its commit needs.
use crate::room::AnswerRoom;
use omega_board::Undo;
use omega_model::{Judgement, Outcome, Txn};
use std::marker::Model;

/// A transaction, ready to be committed without memory. A contract sees the transaction.
///
/// It has room for the numbers of its claims' machines, and twice for the names of the tasks that the claims
/// may evict: once for the entry of the history, and once for the answer to the scheduler.
#[derive(Drop)]
pub struct Prepared {
    pub(crate) txn: Txn,
    pub(crate) undo: Undo,
    pub(crate) machines: Vec<u64>,
    pub(crate) entry: AnswerRoom<Judgement>,
    pub(crate) answer: AnswerRoom<Outcome>,
}

impl Model for Prepared {
    ghost use Rattle.std.specs.Prelude.{vec_capacity};
    ghost use Rattle.omega_model.specs.declared.claims.Txn.{Txn};
    ghost use Rattle.omega_cell.specs.Cells.{IsPrepared};

    ghost Value = { Txn };

    ghost view = { λ p. p.txn };

    ghost invariant = { λ p. IsPrepared p.txn p.undo p.machines.items (vec_capacity p.machines) p.entry p.answer };
}
