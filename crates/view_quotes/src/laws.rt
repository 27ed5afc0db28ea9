//! A law over the definitions.
ghost use Rattle.view_quotes.specs.Laws.{SegmentsAreNumbered};

/// A segment of a message has the parts of the segment of its number among all those of the text:
/// so `edifact_text::segment_at` gives for the number of a fault what was read there.
pub fn segments_are_numbered()
    ensures { SegmentsAreNumbered }
{}
