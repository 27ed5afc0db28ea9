// What a seat stands for. No value of a view is made.
use claim_board::Entry;
use std::collections::LinkedList;

/// The workers that a seat stands for, and their entries, the newest first.
pub struct View {
    pub workers: u64,
    pub entries: LinkedList<Entry>,
}

/// What has become of a hand's newest entry since its last step on a word. It enters the view with
/// the next draw.
#[derive(Clone, Copy)]
pub enum Pending {
    Nothing,
    // It is skipped.
    Skip,
    // It is worked, and no step was found.
    Work,
}
