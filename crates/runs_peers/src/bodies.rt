//! The lines of bodies.

use pf_shapes::{BodyState, Fixture};
use pf_text::push_line;
use std::alloc::AllocError;

/// Adds the line of a body, if it moves.
fn push_body(
    text: &mut String,
    number: i64,
    fixture: &Fixture,
    body: &BodyState,
) -> Result<(), AllocError> {
    if fixture.is_static() {
        return Ok(());
    }
    let numbers = [
        number,
        body.position.x.raw(),
        body.position.y.raw(),
        body.rotation.c.raw(),
        body.rotation.s.raw(),
        body.velocity.x.raw(),
        body.velocity.y.raw(),
        body.spin.raw(),
        i64::from(body.timer),
        i64::from(body.awake),
    ];
    push_line(text, "body", &numbers)
}

/// Adds a line for each body that moves.
pub fn push_bodies(
    text: &mut String,
    fixtures: &[Fixture],
    bodies: &[BodyState],
) -> Result<(), AllocError> {
    let mut number = 0i64;
    for (fixture, body) in fixtures.iter().zip(bodies) {
        push_body(text, number, fixture, body)?;
        number = number.saturating_add(1);
    }
    Ok(())
}
