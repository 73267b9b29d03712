//! The bells of all processors.

ghost use Rattle.std.specs.Prelude.{◌≡◌, ◌^◌, ◌≤◌, map};
ghost use Rattle.std.specs.List.{AllByRecursion};
ghost use Rattle.driver_model.specs.Handover.{rung_of};
ghost use Rattle.dcpid_core.specs.Collection.{MayRing, rang, views};

use lane_side::DaemonSide;

/// Rings the bells of all sides with this value.
pub(crate) fn ring_all<T: DaemonSide>(sides: &mut [T], value: u64)
    requires bound { value ≤ 2 ^ 32 }
    requires later { AllByRecursion (λ side. rung_of side.far.rungs ≤ value)
        (views T.seen T.far T.fixed sides.old) }
    requires evenly { AllByRecursion MayRing (views T.seen T.far T.fixed sides.old) }
    ensures { views T.seen T.far T.fixed sides.new
        ≡ map (rang value) (views T.seen T.far T.fixed sides.old) }
{
    for i in 0..sides.len() {
        sides[i].ring(value);
    }
}
