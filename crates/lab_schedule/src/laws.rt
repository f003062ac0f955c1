//! What holds of all texts of schedules.
ghost use Rattle.lab_schedule.specs.Schedules.{SchedulesAreOne};

/// Law: a text spells one schedule at most, and none where it has a bad line.
pub fn schedules_are_one()
    ensures { SchedulesAreOne }
{}
