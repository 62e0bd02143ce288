//! The law that each made day is sound.

ghost use Rattle.model_made_days.specs.Laws.{EachDayIsSound};

/// The day of each number is sound.
pub fn each_day_is_sound()
    ensures { EachDayIsSound }
{}
