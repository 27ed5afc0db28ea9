ghost use Rattle.std.specs.Prelude.{◌≡◌, ℕ, ◌+◌, ◌-◌, ◌++◌, ◌<◌, ◌≤◌, [], ◌∷◌, IfOk, IfSome, None};
ghost use Rattle.std.specs.Prelude.{OnErr, OnOk};
ghost use Rattle.claim_board.specs.Entries.{numbers, posts};
ghost use Rattle.claim_board.specs.Claims.{IsFair, IsLeastPosted};
ghost use Rattle.claim_run.specs.Hands.{TookTurn, DrewLate, LooksBack};
ghost use Rattle.claim_run.specs.Board.{entries_of, workers_of, pieces_of, staff_of, scout_of};
ghost use Rattle.claim_run.specs.Board.{IsHandOf, MayTurn, IsAtRest};

use crate::board::Board;
use crate::scouts::{Gate, Scout};
use crate::shared_board::{Hand, SharedBoard};
use crate::workers::Workers;
use std::alloc::{AllocError, Global};

impl<'a, S: Scout> Board<'a, S> {
    /// A board of the first `pieces` chunks of a scout, with the hand of all workers, which has no
    /// entries. An error where there is no memory.
    pub fn new(
        alloc: Global,
        workers: Workers,
        pieces: u32,
        scout: &'a S,
    ) -> Result<(Board<'a, S>, Hand), AllocError>
        requires { pieces ≤ S.pieces scout.now }
        ensures board { IfOk result (λ b. (pieces_of b.0 ≡ pieces) × (staff_of b.0 ≡ workers)) }
        ensures scout { IfOk result (λ b. scout_of b.0 ≡ scout.entry.now) }
        ensures hand { IfOk result (λ b. IsHandOf S.begins S.finds S.pieces b.0 b.1) }
        ensures empty { IfOk result (λ b. (entries_of b.1 ≡ []) × (workers_of b.1 ≡ workers)) }
        ensures may { IfOk result (λ b. MayTurn b.0 b.1) }
    {
        let (inner, hand) = SharedBoard::new(alloc, workers.get(), pieces, scout)?;
        Ok((Board { inner, scout }, hand))
    }

    /// A new hand for one of the workers of a hand, which keeps the others and its entries. It
    /// takes no memory today; a caller is ready for a board that does, and then the hand is as it
    /// was.
    pub fn split(&self, hand: &mut Hand) -> Result<Hand, AllocError>
        requires hand { IsHandOf S.begins S.finds S.pieces self.now hand.old }
        requires workers { 2 ≤ workers_of hand.old }
        requires may { MayTurn self.now hand.old }
        ensures hand { IsHandOf S.begins S.finds S.pieces self.now hand.new }
        ensures same { entries_of hand.new ≡ entries_of hand.old }
        ensures gave { OnOk result (workers_of hand.new ≡ workers_of hand.old - 1) }
        ensures refused { OnErr result (workers_of hand.new ≡ workers_of hand.old) }
        ensures given { IfOk result (λ given. IsHandOf S.begins S.finds S.pieces self.now given
            × MayTurn self.now given) }
        ensures empty { IfOk result (λ given. (entries_of given ≡ []) × (workers_of given ≡ 1)) }
    {
        Ok(self.inner.split(hand))
    }

    /// One chunk from its draw to its end: `Some` of its number, with one entry more in the hand,
    /// which is skipped where its look was a step before the chunk, and else worked without a find
    /// or posted. `None` where no chunk is left, and then the worker takes no further turn. Which
    /// hand draws which chunk isn't promised.
    pub fn turn<G: Gate>(&self, gate: &G, worker: u8, hand: &mut Hand) -> Option<u32>
        requires hand { IsHandOf S.begins S.finds S.pieces self.now hand.old }
        requires may { MayTurn self.now hand.old }
        ensures hand { IsHandOf S.begins S.finds S.pieces self.now hand.new
            × (workers_of hand.new ≡ workers_of hand.old) }
        ensures some { IfSome result (λ k. (k < pieces_of self.now)
            × TookTurn (S.begins (scout_of self.now)) (S.finds (scout_of self.now)) k
            (entries_of hand.old) (entries_of hand.new)) }
        ensures looked { IfSome result (λ _.
            LooksBack (entries_of hand.old) (entries_of hand.new)) }
        ensures may { IfSome result (λ _. MayTurn self.now hand.new) }
        ensures none { result ≡ None → IsAtRest hand.new
            × DrewLate (pieces_of self.now) (entries_of hand.old) (entries_of hand.new) }
    {
        self.inner.turn(self.scout, gate, worker, hand)
    }

    /// Takes in what another hand did, with its workers.
    pub fn join(&self, hand: &mut Hand, other: Hand)
        requires hand { IsHandOf S.begins S.finds S.pieces self.now hand.old }
        requires other { IsHandOf S.begins S.finds S.pieces self.now other }
        ensures hand { IsHandOf S.begins S.finds S.pieces self.now hand.new
            × (workers_of hand.new ≡ workers_of hand.old + workers_of other) }
        ensures numbers { (f : ℕ → ℕ) → numbers f (entries_of hand.new)
            ≡ numbers f (entries_of hand.old) + numbers f (entries_of other) }
        ensures posts { (l : ℕ) → posts l (entries_of hand.new)
            ≡ posts l (entries_of hand.old) + posts l (entries_of other) }
        ensures all { IsAtRest other
            → entries_of hand.new ≡ entries_of hand.old ++ entries_of other }
    {
        self.inner.join(hand, other);
    }

    /// The next number and the least posted step, none where none is posted, once every hand is
    /// joined: the numbers below the next one are in the hand, each once.
    pub fn close(self, hand: Hand) -> (u64, Option<u32>)
        requires hand { IsHandOf S.begins S.finds S.pieces self hand }
        requires all { workers_of hand ≡ staff_of self }
        ensures numbers { IsFair result.0 (entries_of hand ∷ []) }
        ensures least { IsLeastPosted result.1 (entries_of hand ∷ []) }
    {
        let Board { inner, scout: _ } = self;
        inner.close(hand)
    }
}
