//! Contact points of pairs of bodies.

use anyhow::{Context, Result, bail};
use pf_manifold::{ContactPoint, Manifold, PlacedShape, collide};
use pf_num::Fx;
use pf_rot::{Rot, V2};
use pf_shapes::Shape;
use pf_text::{fields_of, integer, push_line};
use std::alloc::Global;

/// A body of a pair.
#[derive(Drop)]
struct Body {
    shape: Shape,
    position: V2,
    rotation: Rot,
}

/// The number that a field encodes.
fn number(field: &[u8]) -> Result<Fx> {
    let raw = integer(field, Fx::MAX.neg().raw(), Fx::MAX.raw())?;
    Fx::from_raw(raw).context("a number is out of range")
}

/// The vector that two fields encode.
fn vector(x: &[u8], y: &[u8]) -> Result<V2> {
    Ok(V2 {
        x: number(x)?,
        y: number(y)?,
    })
}

/// A body of this shape, whose position and rotation are these fields.
fn body_at(shape: Shape, fields: [&[u8]; 4]) -> Result<Body> {
    let [x, y, c, s] = fields;
    let position = vector(x, y)?;
    let rotation = vector(c, s)?;
    Ok(Body {
        shape,
        position,
        rotation: Rot {
            c: rotation.x,
            s: rotation.y,
        },
    })
}

/// The body that a line encodes.
fn parse_body(alloc: Global, line: &[u8]) -> Result<Body> {
    let fields = fields_of(alloc, line)?;
    match fields.as_slice() {
        [word, r, x, y, c, s] if *word == b"circle".as_slice() => {
            body_at(Shape::Circle { r: number(r)? }, [*x, *y, *c, *s])
        }
        [word, hx, hy, x, y, c, s] if *word == b"box".as_slice() => {
            let half = vector(hx, hy)?;
            let shape = Shape::Box {
                hx: half.x,
                hy: half.y,
            };
            body_at(shape, [*x, *y, *c, *s])
        }
        _ => bail!("no such line"),
    }
}

/// Appends the line of a contact point.
fn push_point(text: &mut String, point: &ContactPoint) -> Result<()> {
    let numbers = [
        i64::from(point.feature),
        point.position.x.raw(),
        point.position.y.raw(),
        point.normal.x.raw(),
        point.normal.y.raw(),
        point.separation.raw(),
    ];
    Ok(push_line(text, "point", &numbers)?)
}

/// Appends the lines of contact points.
fn push_points(text: &mut String, points: &Manifold) -> Result<()> {
    match points {
        Manifold::Apart => Ok(()),
        Manifold::One(point) => push_point(text, point),
        Manifold::Two(first, second) => {
            push_point(text, first)?;
            push_point(text, second)
        }
    }
}

/// The output for the bodies of two lines.
pub fn pair_text(alloc: Global, first: &str, second: &str) -> Result<String> {
    let a = parse_body(alloc, first.as_bytes())?;
    let b = parse_body(alloc, second.as_bytes())?;
    let mut text = String::new(alloc);
    let bounds_a = a.shape.bounds(a.position, a.rotation, false);
    let bounds_b = b.shape.bounds(b.position, b.rotation, false);
    let word = if bounds_a.overlaps(&bounds_b) {
        "overlap"
    } else {
        "apart"
    };
    push_line(&mut text, word, &[])?;
    let a = PlacedShape {
        shape: &a.shape,
        position: a.position,
        rotation: a.rotation,
    };
    let b = PlacedShape {
        shape: &b.shape,
        position: b.position,
        rotation: b.rotation,
    };
    push_points(&mut text, &collide(&a, &b))?;
    push_line(&mut text, "end", &[])?;
    Ok(text)
}
