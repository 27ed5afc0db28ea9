ghost use Rattle.std.specs.Prelude.{◌≡◌, ◌⊎◌, List, ℤ, Ok, Err};
ghost use Rattle.toml.specs.Data.{Members};
ghost use Rattle.ship_tables.specs.declared.extents.Extent.{Extent};
ghost use Rattle.ship_profile.specs.declared.faults.Key.TheVariants.{Stations, Blocks, Frames};
ghost use Rattle.ship_profile.specs.declared.faults.Key.TheVariants.{Fills};
ghost use Rattle.ship_profile.specs.declared.faults.ProfileFault.{ProfileFault};
ghost use Rattle.ship_profile.specs.Faults.{AreElementsAt, AreOptionalAt, HasOneAnswer};
ghost use Rattle.ship_profile.specs.Faults.{IsArrayFaultAt, IsOptionalFaultAt, IsProfile};
ghost use Rattle.ship_profile.specs.Faults.{IsProfileFault};
ghost use Rattle.ship_profile.specs.Record.{ProfileRecord, Texts, record_of};
ghost use Rattle.ship_profile.specs.Ship.{block_of, blocks_of, frame_of, frames_of, named_fill_of};
ghost use Rattle.ship_profile.specs.Ship.{named_fills_of, station_of, stations_of};

/// The value at the key of an array has its elements, each read after those before it, or it has a
/// fault, and one only: there is no array, or it has too many elements, or the first element that
/// is refused has this fault, or it has too few (`specs/Faults.antt`). No element is lost: there
/// are as many as the array has. The fills may be missing.
pub fn one_array()
    ensures stations { (ms : Members) → HasOneAnswer (stations_of ms)
        (AreElementsAt Stations 2 64 station_of ms)
        (IsArrayFaultAt Stations 2 64 station_of ms) }
    ensures blocks { (extent : Extent) (ms : Members) → HasOneAnswer (blocks_of extent ms)
        (AreElementsAt Blocks 1 200 (block_of extent) ms)
        (IsArrayFaultAt Blocks 1 200 (block_of extent) ms) }
    ensures frames { (at : List ℤ) (ms : Members) → HasOneAnswer (frames_of at ms)
        (AreElementsAt Frames 1 16 (frame_of at) ms)
        (IsArrayFaultAt Frames 1 16 (frame_of at) ms) }
    ensures fills { (ms : Members) → HasOneAnswer (named_fills_of ms)
        (AreOptionalAt Fills 200 named_fill_of ms)
        (IsOptionalFaultAt Fills 200 named_fill_of ms) }
{}

/// The texts of a profile's files are those of a profile, or they have a fault, and one only: that
/// of the document, or of the first key that has one, or of the first table, or of the first fill
/// (`specs/Faults.antt`). It is what [`Profile::read`](crate::Profile::read) answers.
pub fn one_profile()
    ensures sound { (texts : Texts) (p : ProfileRecord) →
        IsProfile texts p → record_of texts ≡ Ok p }
    ensures fault { (texts : Texts) (f : ProfileFault) →
        IsProfileFault texts f → record_of texts ≡ Err f }
    ensures either { (texts : Texts) →
        ((p : ProfileRecord) × IsProfile texts p)
        ⊎ ((f : ProfileFault) × IsProfileFault texts f) }
    ensures not_both { (texts : Texts) (p : ProfileRecord) (f : ProfileFault) →
        IsProfile texts p → IsProfileFault texts f → ⊥ }
{}
