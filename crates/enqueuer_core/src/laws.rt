//! Laws over the definitions.
ghost use Rattle.enqueuer_core.specs.LawsOfCore.{DerivedAlways, LeastWhenIdle, NeverDropped};
ghost use Rattle.enqueuer_core.specs.Least.{OneLeast, LiesInEachClosed};

/// The world that a list of events leaves does not depend on the schedule, nor on how stale the impacts are.
pub fn schedule_free()
    ensures derived { DerivedAlways }
    ensures least { LeastWhenIdle }
    ensures fresh { NeverDropped }
{}

/// There is one least world, and it lies in each closed world.
pub fn least_is_one()
    ensures one { OneLeast }
    ensures within { LiesInEachClosed }
{}
