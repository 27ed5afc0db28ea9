// The steps of a hand on the board that threads share.
ghost use Rattle.std.specs.Prelude.{◌≡◌, ◌+◌, ◌-◌, ◌<◌, ◌≤◌, ◌^◌, [], ◌∷◌, ◌++◌, IfOk, IfSome};
ghost use Rattle.std.specs.Prelude.{Some, None};
ghost use Rattle.claim_board.specs.Entries.{fresh, with_look, ended};
ghost use Rattle.claim_board.specs.Rule.{IsKept};
ghost use Rattle.claim_board.specs.declared.entries.Stage.TheVariants.{Posted};
ghost use Rattle.claim_run.specs.Views.{view, least_of};
ghost use Rattle.claim_run.specs.Plays.{AtMostAll};
ghost use Rattle.claim_run.specs.Hands.{entries_with, TookTurn, DrewLate, LooksBack, MayEnd};
ghost use Rattle.claim_run.specs.Shared.{scout_in, Knows, IsOf, IsNew, MayDraw, HasDrawn};
ghost use Rattle.claim_run.specs.Shared.{HasLooked, IsWord, tail};
ghost use Rattle.claim_run.specs.declared.views.Pending.TheVariants.{Nothing};

use crate::scouts::{Gate, Scout};
use crate::shared_board::{Hand, SharedBoard};
use crate::table::{Draws, Looks, OneWorker, Plan, Posts, SkipsAndDraws, WorksAndDraws};
use crate::views::Pending;
use atomic_table::Table;
use std::alloc::{AllocError, Global};
use std::snapshot::Snapshot;

// The step that word 1 stands for, which is a step or the greatest word.
fn step_in(word: u64) -> Option<u32>
    ensures { IsWord word result }
{
    if word <= u64::from(u32::MAX) {
        Some(word as u32)
    } else {
        None
    }
}

impl<S: Scout> SharedBoard<S> {
    /// A board with the hand of all workers.
    pub fn new(
        alloc: Global,
        workers: u8,
        pieces: u32,
        scout: &S,
    ) -> Result<(SharedBoard<S>, Hand), AllocError>
        ensures board { IfOk result (λ b. (scout_in b.0 ≡ scout.now) × (b.0.pieces ≡ pieces)
            × (b.0.table.shared.key.workers ≡ workers)) }
        ensures hand { IfOk result (λ b. IsNew b.0 workers b.1) }
    {
        let plan = Plan {
            workers: u64::from(workers),
            pieces: u64::from(pieces),
            scout: Snapshot::of(scout),
        };
        let (table, seat) = Table::of_words(alloc, &[0, u64::MAX], &plan)?;
        let board = SharedBoard { table, pieces };
        let pending = Pending::Nothing;
        Ok((board, Hand { seat, pending }))
    }

    // Draws a number. What is pending of the newest entry enters the view with it.
    fn draw(&self, hand: &mut Hand) -> u64
        requires hand { IsOf S.begins S.finds self.now hand.old }
        requires free { MayDraw self.now hand.old }
        ensures seat { (hand.new.seat.table_id ≡ hand.old.seat.table_id)
            × (hand.new.pending ≡ Nothing) }
        ensures drawn { hand.new.seat.me ≡ (
          view hand.old.seat.me.0.workers
              (fresh result ∷ entries_with hand.old.pending hand.old.seat.me.0.entries),
          hand.old.seat.me.1,
        ) }
    {
        let shared = &self.table.shared;
        let found = match hand.pending {
            Pending::Nothing => shared.fetch_add::<Draws>(&mut hand.seat, 0, 1),
            Pending::Skip => shared.fetch_add::<SkipsAndDraws>(&mut hand.seat, 0, 1),
            Pending::Work => shared.fetch_add::<WorksAndDraws>(&mut hand.seat, 0, 1),
        };
        hand.pending = Pending::Nothing;
        found
    }

    // Looks at the least posted step: word 1.
    fn least(&self, hand: &mut Hand, number: u32) -> u64
        requires seat { hand.old.seat.table_id ≡ self.now.table.shared.table_id }
        requires drawn { HasDrawn self.now number hand.old }
        ensures seat { (hand.new.seat.table_id ≡ hand.old.seat.table_id)
            × (hand.new.pending ≡ hand.old.pending) }
        ensures seen { hand.new.seat.me ≡ (
          view hand.old.seat.me.0.workers
              (with_look (least_of result) (fresh number) ∷ tail hand.old.seat.me.0.entries),
          hand.old.seat.me.1,
        ) }
        ensures least { AtMostAll (least_of result) (tail hand.old.seat.me.0.entries) }
    {
        self.table.shared.load::<Looks>(&mut hand.seat, 1)
    }

    // Posts the failing step of the newest entry's chunk.
    fn post(&self, scout: &S, hand: &mut Hand, number: u32, step: u32, least: u64)
        requires told { scout_in self.now ≡ scout.now }
        requires seat { hand.old.seat.table_id ≡ self.now.table.shared.table_id }
        requires looked { HasLooked least number hand.old }
        requires found { (S.finds scout.now number ≡ Some step)
            × (S.begins scout.now number ≤ least) }
        ensures seat { (hand.new.seat.table_id ≡ hand.old.seat.table_id)
            × (hand.new.pending ≡ hand.old.pending) }
        ensures posted { hand.new.seat.me ≡ (
          view hand.old.seat.me.0.workers
              (ended (Posted step) (with_look (least_of least) (fresh number))
              ∷ tail hand.old.seat.me.0.entries),
          hand.old.seat.me.1,
        ) }
    {
        self.table
            .shared
            .fetch_min::<Posts>(&mut hand.seat, 1, u64::from(step));
    }

    /// One chunk from its draw to its end, or `None` where none is left.
    pub fn turn<G: Gate>(&self, scout: &S, gate: &G, worker: u8, hand: &mut Hand) -> Option<u32>
        requires knows { Knows S.pieces self.now scout.now }
        requires hand { IsOf S.begins S.finds self.now hand.old }
        requires free { MayDraw self.now hand.old }
        ensures seat { (hand.new.seat.table_id ≡ hand.old.seat.table_id)
            × (hand.new.seat.me.0.workers ≡ hand.old.seat.me.0.workers)
            × (hand.new.seat.me.1 ≡ hand.old.seat.me.1) }
        ensures some { IfSome result (λ k. (k < self.now.pieces)
            × TookTurn (S.begins scout.now) (S.finds scout.now) k
            (entries_with hand.old.pending hand.old.seat.me.0.entries)
            (entries_with hand.new.pending hand.new.seat.me.0.entries)) }
        ensures looked { IfSome result (λ _. LooksBack
            (entries_with hand.old.pending hand.old.seat.me.0.entries)
            (entries_with hand.new.pending hand.new.seat.me.0.entries)) }
        ensures settles { IfSome result (λ k. MayEnd (S.begins (scout_in self.now))
            (S.finds (scout_in self.now)) hand.new.pending hand.new.seat.me.0.entries) }
        ensures free { IfSome result (λ k. MayDraw self.now hand.new) }
        ensures rests { result ≡ None → hand.new.pending ≡ Nothing }
        ensures none { result ≡ None → DrewLate self.now.pieces
            (entries_with hand.old.pending hand.old.seat.me.0.entries)
            (entries_with hand.new.pending hand.new.seat.me.0.entries) }
    {
        let found = self.draw(hand);
        if found >= u64::from(self.pieces) {
            return None;
        }
        let number = found as u32;
        gate.pass(worker, number);
        let least = self.least(hand, number);
        if least < u64::from(scout.begin(number)) {
            hand.pending = Pending::Skip;
            return Some(number);
        }
        match scout.look(number) {
            Some(step) => self.post(scout, hand, number, step, least),
            None => hand.pending = Pending::Work,
        }
        Some(number)
    }

    /// A new hand for one of the workers.
    pub fn split(&self, hand: &mut Hand) -> Hand
        requires seat { hand.old.seat.table_id ≡ self.now.table.shared.table_id }
        requires free { (2 ≤ hand.old.seat.me.0.workers) × MayDraw self.now hand.old }
        ensures seat { (hand.new.seat.table_id ≡ hand.old.seat.table_id)
            × (hand.new.pending ≡ hand.old.pending) }
        ensures left { hand.new.seat.me ≡ (
          view (hand.old.seat.me.0.workers - 1)
              hand.old.seat.me.0.entries,
          hand.old.seat.me.1,
        ) }
        ensures right { IsNew self.now 1 result }
    {
        let seat = self.table.shared.split_seat::<OneWorker>(&mut hand.seat);
        let pending = Pending::Nothing;
        Hand { seat, pending }
    }

    /// Takes in what another hand did. What is still pending of the other's newest entry is left
    /// out.
    pub fn join(&self, hand: &mut Hand, other: Hand)
        requires seats { (hand.old.seat.table_id ≡ self.now.table.shared.table_id)
            × (other.seat.table_id ≡ self.now.table.shared.table_id)
            × (other.seat.me.1 ≡ []) }
        ensures seat { (hand.new.seat.table_id ≡ hand.old.seat.table_id)
            × (hand.new.pending ≡ hand.old.pending) }
        ensures both { hand.new.seat.me ≡ (
          view
              (hand.old.seat.me.0.workers + other.seat.me.0.workers)
              (hand.old.seat.me.0.entries ++ other.seat.me.0.entries),
          hand.old.seat.me.1,
        ) }
    {
        let Hand { seat, pending: _ } = other;
        self.table
            .shared
            .join_seat::<OneWorker>(&mut hand.seat, seat);
    }

    /// The next number and the least step, once every hand is joined.
    pub fn close(self, hand: Hand) -> (u64, Option<u32>)
        requires within { self.pieces ≤ S.pieces (scout_in self) }
        requires seat { hand.seat.table_id ≡ self.table.shared.table_id }
        requires all { hand.seat.me.0.workers ≡ self.table.shared.key.workers }
        ensures { IsKept (S.begins (scout_in self)) (S.finds (scout_in self)) self.pieces
            result.0 result.1 (hand.seat.me.0.entries ∷ []) }
    {
        let SharedBoard { table, pieces: _ } = self;
        let Hand { seat, pending: _ } = hand;
        let closed = table.close_with(seat);
        let next = closed.word(0);
        let least = closed.word(1);
        closed.free();
        (next, step_in(least))
    }
}
