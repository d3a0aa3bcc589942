//! What holds of values and their plain data, each law the contract of a call that does nothing.
ghost use Rattle.uq_value.specs.Laws.{DataAndBack, LevelAndBack, ItemsAreValues, MembersAreValues, NamesAreTexts};

/// A value is known by its data, and each data is that of one level.
pub fn one_level()
    ensures back { DataAndBack }
    ensures forth { LevelAndBack }
{}

/// The parts of a value are values, and the names of an object are texts.
pub fn parts_are_values()
    ensures items { ItemsAreValues }
    ensures members { MembersAreValues }
    ensures names { NamesAreTexts }
{}
