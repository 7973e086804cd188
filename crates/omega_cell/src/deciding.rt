//! What is decided on the claims of a transaction, on the board itself.
ghost use Rattle.std.specs.Prelude.{◌≡◌, ◌≤◌, ◌<◌, ◌+◌, ◌^◌, ◌==◌, [], ℕ, List, length, map, take, if◌then◌else◌};
ghost use Rattle.std.specs.List.{fold, zip};
ghost use Rattle.omega_board.specs.Board.{cell_of};
ghost use Rattle.omega_board.specs.Undo.{IsUndoOf, at_reserve};
ghost use Rattle.omega_machines.specs.Table.{machines_of, seq_at};
ghost use Rattle.omega_model.specs.Judge.{judge, known_of};
ghost use Rattle.omega_model.specs.Reply.{after_claim, tasks_after_claim, judgements, reply_on, withdrawn_for, first_refused, all_or_nothing};
ghost use Rattle.omega_model.specs.Touches.{seq};
ghost use Rattle.omega_model.specs.Work.{outcomes_of};
ghost use Rattle.omega_model.specs.declared.entries.Entry.{Entry};
ghost use Rattle.omega_cell.specs.Claiming.{AreNumbered, CanUndo};
ghost use Rattle.omega_cell.specs.Rooms.{victim_counts, EvictWithin};

use crate::room::{AnswerRoom, KeyRoom};
use omega_board::{Board, Undo};
use omega_model::{Claim, Judgement, Judgements, Mode, Outcome, Outcomes, Rule, Seq, Txn, Verdict};
use std::alloc::Global;

/// The reply to a transaction, whose placed claims are then on the board. The sequence numbers
/// stay.
pub fn decide(
    board: &mut Board,
    txn: &Txn,
    seqs: &[u64],
    mut undo: Undo,
    room: AnswerRoom<Judgement>,
) -> Judgements
    requires few { length txn.now.claims < 2 ^ 32 }
    requires seqs { length seqs.now ≡ length txn.now.claims }
    requires undo { IsUndoOf board.old undo }
    requires log { undo.log ≡ [] }
    requires undo_room { CanUndo undo txn.now.claims }
    requires room { room ≡ victim_counts txn.now.claims }
    ensures reply { (history : List Entry) (seen : ℕ) → AreNumbered board.old seqs.now txn.now.claims history seen → result ≡ reply_on history (cell_of board.old) seen txn.now }
    ensures tasks { board.new.tasks ≡ fold tasks_after_claim board.old.tasks (zip txn.now.claims result) }
    ensures machines { machines_of board.new.table ≡ machines_of board.old.table }
    ensures numbers { (id : ℕ) → seq_at board.new.table id ≡ seq_at board.old.table id }
{
    let claims = txn.claims.as_slice();
    let mut answered = judge_all(board, txn.rule, claims, seqs, &mut undo, room);
    if let Mode::Gang = txn.mode {
        keep_all_or_nothing(board, &mut undo, &mut answered);
    }
    Seq::of(answered)
}

/// Judges claims in order, each on the board after those before it, and applies those that are placed.
fn judge_all(
    board: &mut Board,
    rule: Rule,
    claims: &[Claim],
    seqs: &[u64],
    undo: &mut Undo,
    room: AnswerRoom<Judgement>,
) -> Vec<Judgement>
    requires seqs { length seqs.now ≡ length claims.now }
    requires undo { IsUndoOf board.old undo.old }
    requires undo_room { CanUndo undo.old claims.now }
    requires room { room ≡ victim_counts claims.now }
    ensures reply { (history : List Entry) (seen : ℕ) → AreNumbered board.old seqs.now claims.now history seen → result.items ≡ judgements history seen (cell_of board.old) rule claims.now }
    ensures each { length result.items ≡ length claims.now }
    ensures tasks { board.new.tasks ≡ fold tasks_after_claim board.old.tasks (zip claims.now result.items) }
    ensures machines { machines_of board.new.table ≡ machines_of board.old.table }
    ensures numbers { (id : ℕ) → seq_at board.new.table id ≡ seq_at board.old.table id }
    ensures undo { IsUndoOf board.new undo.new }
    ensures content { at_reserve undo.new board.new ≡ at_reserve undo.old board.old }
{
    let AnswerRoom {
        answers: mut answered,
        rooms,
    } = room;
    let mut rooms = rooms.into_iter();
    for (i, claim) in claims.iter().enumerate() {
        let copy = known_of(rule, seqs[i]);
        let room = rooms.next().unwrap();
        let judgement = judge_one(board, claim, copy, undo, room);
        answered.push_reserved(judgement);
    }
    answered
}

/// What a rule hands in of the copy, in which a machine has this sequence number.
fn known_of(rule: Rule, copy: u64) -> Option<u64>
    ensures { (history : List Entry) (seen machine : ℕ) → copy ≡ seq (take seen history) machine → result ≡ known_of history seen rule machine }
{
    match rule {
        Rule::Fine => None,
        Rule::Coarse => Some(copy),
    }
}

/// Judges a claim, and applies it where it is placed. Room for names that were not needed is given back,
/// since the entry that holds them stays.
fn judge_one(
    board: &mut Board,
    claim: &Claim,
    copy_seq: Option<u64>,
    undo: &mut Undo,
    room: KeyRoom,
) -> Judgement
    requires undo { IsUndoOf board.old undo.old }
    requires claims { 0 < undo.old.claims }
    requires victims { length claim.now.victims ≤ undo.old.victims }
    requires room { length claim.now.victims ≤ room }
    ensures judgement { (history : List Entry) (seen : ℕ) (rule : Rule) → seq_at board.old.table claim.now.machine ≡ seq history claim.now.machine → copy_seq ≡ known_of history seen rule claim.now.machine → result ≡ judge history seen (cell_of board.old) rule claim.now }
    ensures cell { cell_of board.new ≡ after_claim (cell_of board.old) (claim.now, result) }
    ensures numbers { (id : ℕ) → seq_at board.new.table id ≡ seq_at board.old.table id }
    ensures undo { IsUndoOf board.new undo.new }
    ensures content { at_reserve undo.new board.new ≡ at_reserve undo.old board.old }
    ensures claims { undo.old.claims ≤ undo.new.claims + 1 }
    ensures victims { undo.old.victims ≤ undo.new.victims + length claim.now.victims }
{
    let mut evicted = room.into_keys();
    let verdict = board.judge(claim, copy_seq, &mut evicted);
    if verdict.is_placed() {
        board.apply_placed(claim, evicted.as_slice(), undo);
    }
    evicted.shrink_to_fit();
    Judgement {
        verdict,
        evicted: Seq::of(evicted),
    }
}

/// A gang with a refusal keeps no claim: the board is as it was at the reserve, and what would have
/// been placed is withdrawn for the first refusal.
fn keep_all_or_nothing(board: &mut Board, undo: &mut Undo, answered: &mut Vec<Judgement>)
    requires few { length answered.old.items < 2 ^ 32 }
    requires undo { IsUndoOf board.old undo.old }
    ensures answered { answered.new.items ≡ all_or_nothing answered.old.items }
    ensures board { board.new ≡ (if first_refused answered.old.items == length answered.old.items then board.old else at_reserve undo.old board.old) }
{
    let place = first_refused(answered.as_slice());
    if place < answered.len() {
        board.undo(undo);
        withdraw(*answered.allocator(), place as u32, answered);
    }
}

/// Withdraws the placed claims for the one at this place.
fn withdraw(alloc: Global, place: u32, judgements: &mut Vec<Judgement>)
    ensures { judgements.new.items ≡ map (withdrawn_for place) judgements.old.items }
{
    for judgement in judgements.iter_mut() {
        withdraw_one(alloc, place, judgement);
    }
}

/// A placed claim is withdrawn for the one at this place, and evicts nothing; a refusal stays.
fn withdraw_one(alloc: Global, place: u32, judgement: &mut Judgement)
    ensures { judgement.new ≡ withdrawn_for place judgement.old }
{
    if judgement.verdict.is_placed() {
        *judgement = Judgement {
            verdict: Verdict::Withdrawn(place),
            evicted: Seq::new(alloc),
        };
    }
}

/// The place of the first claim that is refused, or the length where there is none.
fn first_refused(judgements: &[Judgement]) -> usize
    ensures { result ≡ first_refused judgements.now }
{
    for (i, judgement) in judgements.iter().enumerate() {
        if !judgement.verdict.is_placed() {
            return i;
        }
    }
    judgements.len()
}

/// The tasks of some claims, each with what was answered to it.
pub fn outcomes_of(claims: &[Claim], reply: &[Judgement], room: AnswerRoom<Outcome>) -> Outcomes
    requires reply { EvictWithin claims.now reply.now }
    requires room { room ≡ victim_counts claims.now }
    ensures { result ≡ outcomes_of claims.now reply.now }
{
    let AnswerRoom {
        answers: mut outcomes,
        rooms,
    } = room;
    let mut rooms = rooms.into_iter();
    for (i, claim) in claims.iter().enumerate() {
        let judgement = &reply[i];
        let room = rooms.next().unwrap();
        outcomes.push_reserved(Outcome {
            key: claim.key,
            verdict: judgement.verdict,
            evicted: room.fill(judgement.evicted.as_slice()),
        });
    }
    Seq::of(outcomes)
}
