// Values of numbered pieces, put in order.
ghost use Rattle.std.specs.Prelude.{◌≡◌, ◌⊎◌, ℕ, ◌<◌, length, slice_index_or, IfOk, vec_len, true};
ghost use Rattle.std.specs.Prelude.{None};
ghost use Rattle.claim_board.specs.Entries.{Each, total, is};
ghost use Rattle.claim_run.specs.OneThread.{one_thread_values};
ghost use Rattle.claim_run.specs.Slots.{IsRight, is_there};

use crate::jobs::Job;
use std::alloc::{AllocError, Global};

/// A slot for each piece, all empty.
pub fn empty_slots<T: Drop>(alloc: Global, pieces: u32) -> Result<Vec<Option<T>>, AllocError>
    ensures count { IfOk result (λ v. vec_len v ≡ pieces) }
    ensures none { IfOk result (λ v. (k : ℕ) (d : _) → k < pieces
        → slice_index_or v.items k d ≡ None) }
{
    let mut slots = Vec::new(alloc);
    for k in 0..pieces {
        slots.push(None)?;
    }
    Ok(slots)
}

/// Puts each value into the slot of its number.
pub fn place<J: Job>(_job: &J, slots: &mut Vec<Option<J::Out>>, mut values: Vec<(u32, J::Out)>)
    requires given { Each (λ p. (p.0 < length slots.old.items) × (p.1 ≡ J.value _job.now p.0))
        values.items }
    requires right { IsRight (J.value _job.now) slots.old.items }
    ensures same_length { length slots.new.items ≡ length slots.old.items }
    ensures right { IsRight (J.value _job.now) slots.new.items }
    ensures filled { (k : ℕ) → k < length slots.new.items
        → (is_there slots.old.items k ≡ true) ⊎ (0 < total (λ p. is k p.0) values.items)
        → is_there slots.new.items k ≡ true }
{
    'next: while let Some((k, value)) = values.pop() {
        slots[k as usize] = Some(value);
    }
}

/// The values in the slots, in order, of which none is empty.
pub fn values_in_slots<J: Job>(
    _job: &J,
    alloc: Global,
    slots: Vec<Option<J::Out>>,
) -> Result<Vec<J::Out>, AllocError>
    requires right { IsRight (J.value _job.now) slots.items }
    requires full { (k : ℕ) → k < length slots.items → is_there slots.items k ≡ true }
    ensures { IfOk result (λ v. v.items
        ≡ one_thread_values (J.value _job.now) (length slots.items)) }
{
    let mut all = Vec::new(alloc);
    for slot in slots {
        match slot {
            Some(value) => all.push(value)?,
            None => unreachable!(),
        }
    }
    Ok(all)
}
