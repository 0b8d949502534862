//! S2.6, S2.7, S2.12: what is promised of records and of their masks, as the contracts of functions that do nothing.
ghost use Rattle.sheet.specs.Laws.{RoundTrip, RecordLength, MaskLaw, MasksLaw};
ghost use Rattle.sheet.specs.Wide.{NarrowLevels};

/// S2.6 and S2.7: a record that is written reads back as its task and is as long as its level and its nodes ask for,
/// and what a level says that is not wide.
#[tactic(auto, using(crate::proofs::Encoding::round_trip, crate::proofs::Encoding::record_length, crate::proofs::Wide::narrow_levels))]
pub fn records()
    ensures read { RoundTrip }
    ensures length { RecordLength }
    ensures narrow { NarrowLevels }
{}

/// S2.12: a mask is lawful exactly if no bit from its node on is set; masks, if each names lower nodes alone.
#[tactic(auto, using(crate::proofs::Masks::mask_law, crate::proofs::Masks::masks_law))]
pub fn masks()
    ensures each { MaskLaw }
    ensures all { MasksLaw }
{}
