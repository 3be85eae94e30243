// The frame clock: from a launch tick, a period p/q and a frame to a tick. A tick is one millisecond, one frame lasts p/q ticks, and frame 0 begins at
// the launch tick. A release waits for the end of its frame, which is where the next frame begins. Both functions multiply first and divide once, so no
// error is carried from frame to frame.
#![tactic(auto)]

ghost use Rattle.std.specs.Prelude.{◌≡◌, false, ◌≤◌};
ghost use Rattle.base.specs.Limits.{last_frame, max_launch, bad_period};
ghost use Rattle.clock.specs.Clock.{bad_launch, release_tick, deadline_tick, LeastNotBefore, GreatestNotAfter};

use base::MAX_LAUNCH;

// The launch tick is above the limit.
pub fn bad_launch(launch: u32) -> bool
    ensures { result ≡ bad_launch launch }
{
    MAX_LAUNCH < launch
}

// The tick of a release in `frame`: the least tick not before (frame + 1) * p / q, and the launch tick added.
pub fn release_tick(launch: u32, frame: u32, p: u32, q: u32) -> u32
    requires launch_le_max_launch { launch ≤ max_launch }
    requires frame_le_last_frame { frame ≤ last_frame }
    requires q_value { bad_period p q ≡ false }
    ensures tick { result ≡ release_tick launch p q frame }
    ensures least { LeastNotBefore launch p q frame result }
{
    ((frame + 1) * p + (q - 1)) / q + launch
}

// The tick of a deadline in `frame`: the greatest tick not after frame * p / q, and the launch tick added.
pub fn deadline_tick(launch: u32, frame: u32, p: u32, q: u32) -> u32
    requires launch_le_max_launch { launch ≤ max_launch }
    requires frame_le_last_frame { frame ≤ last_frame }
    requires q_value { bad_period p q ≡ false }
    ensures tick { result ≡ deadline_tick launch p q frame }
    ensures greatest { GreatestNotAfter launch p q frame result }
{
    frame * p / q + launch
}
