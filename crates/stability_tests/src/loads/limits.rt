//! The limits of a load, each at its end and one beyond.
use strength::{closes, is_between};

#[test]
fn closes_either_way(rt: HostRuntime) {
    for (error, within) in [
        (5_000, true),
        (5_001, false),
        (-5_000, true),
        (-5_001, false),
    ] {
        assert_eq!(rt; closes(error, 5_000), within, "at {error}");
    }
}

#[test]
fn between_limits(rt: HostRuntime) {
    for (load, within) in [(700, true), (701, false), (-300, true), (-301, false)] {
        assert_eq!(rt; is_between(load, 300, 700), within, "at {load}");
    }
}
