use lift_sequence::{
    arrivals_have_one_answer, cargo_has_places, independent_steps_commute, nobody_is_lost,
    overlaps_are_least, sequences_have_one_answer, weights_change_few_steps,
};

#[test]
fn laws() {
    arrivals_have_one_answer();
    sequences_have_one_answer();
    overlaps_are_least();
    cargo_has_places();
    nobody_is_lost();
    weights_change_few_steps();
    independent_steps_commute();
}
