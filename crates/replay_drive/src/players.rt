//! A turn of one lane among all.
ghost use Rattle.std.specs.Prelude.{◌≡◌, ℕ, map};
ghost use Rattle.sample_key.specs.declared.losses.Pace.{Pace};
ghost use Rattle.trace_model.specs.Recording.{Recording};
ghost use Rattle.run_model.specs.Daemon.{Daemon};
ghost use Rattle.run_model.specs.Running.{turned};
ghost use Rattle.replay_drive.specs.Players.{ArePlayers, IsPlayer, half_of, processor_of, system_of, turned_at};

use cpu_lane::{Lane, running_has_room};
use lane_side::PlainSide;

/// A turn of a lane on its side.
pub fn turn_of(lane: &mut Lane, side: &mut PlainSide)
    requires { (pace : Pace) × (trace : Recording) × (cpu : ℕ) ×
        IsPlayer pace trace cpu lane.old side.old }
    ensures turned { processor_of lane.new side.new
        ≡ turned lane.old.setup (processor_of lane.old side.old) }
    ensures half { half_of side.new ≡ half_of side.old }
    ensures player { (pace : Pace) (trace : Recording) (cpu : ℕ) →
        IsPlayer pace trace cpu lane.old side.old → IsPlayer pace trace cpu lane.new side.new }
{
    running_has_room();
    let _answer = lane.turn(side);
}

/// A turn of the lane of this processor, if there is one.
pub fn turn_at(lanes: &mut [Lane], sides: &mut [PlainSide], cpu: u32)
    requires { (pace : Pace) × (trace : Recording) × ArePlayers pace trace 0 lanes.old sides.old }
    ensures turned { (pace : Pace) (trace : Recording) (daemon : Daemon) →
        ArePlayers pace trace 0 lanes.old sides.old →
        system_of daemon lanes.new sides.new
        ≡ turned_at pace trace (system_of daemon lanes.old sides.old) cpu }
    ensures halves { map half_of sides.new ≡ map half_of sides.old }
    ensures players { (pace : Pace) (trace : Recording) →
        ArePlayers pace trace 0 lanes.old sides.old → ArePlayers pace trace 0 lanes.new sides.new }
{
    let at = cpu as usize;
    if at >= lanes.len() {
        return;
    }
    turn_of(&mut lanes[at], &mut sides[at]);
}
