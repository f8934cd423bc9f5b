//! The phase Sleep of a group, as at the end of Box2D 2.x's `b2Island::Solve`.

ghost use Rattle.std.specs.Prelude.{◌≡◌, ◌==◌, map};
ghost use Rattle.std.specs.List.{list_all};
ghost use Rattle.pf_islands.specs.Sleep.{at_sleep, island_after_sleep};

use pf_num::Fx;
use pf_rot::V2;
use pf_shapes::BodyState;

/// Stops a body, sets its timer to 0, and puts it to sleep.
#[inline]
pub fn fall_asleep(body: &mut BodyState)
    ensures { body.new ≡ at_sleep body.old }
{
    body.velocity = V2::ZERO;
    body.spin = Fx::ZERO;
    body.timer = 0;
    body.awake = false;
}

/// Stops all bodies and puts them to sleep.
fn fall_asleep_all(bodies: &mut [BodyState])
    ensures { bodies.new ≡ map at_sleep bodies.old }
{
    for body in bodies.iter_mut() {
        fall_asleep(body);
    }
}

/// Whether the timer of each body is `full`.
#[inline]
fn have_timer(bodies: &[BodyState], full: u8) -> bool
    ensures { result ≡ list_all (λ b. b.timer == full) bodies.now }
{
    bodies.iter().all(|body| body.timer == full)
}

/// Stops all bodies of a group and puts them to sleep, if the timer of each is `full`. Takes no
/// memory.
#[inline]
pub fn sleep_if_still(bodies: &mut [BodyState], full: u8)
    ensures { bodies.new ≡ island_after_sleep full bodies.old }
{
    if have_timer(bodies, full) {
        fall_asleep_all(bodies);
    }
}
