//! Bodies and contacts as plain numbers, for buffers of a caller.

ghost use Rattle.std.specs.Prelude.{◌≡◌, ◌≤◌, ◌++◌, drop, length, map};
ghost use Rattle.pf_context.specs.Plain.{plain_body, plain_contact};

use pf_cache::Contact;
use pf_shapes::BodyState;

/// A body of a world. Numbers are raw, in units of 2^-24.
#[derive(Clone, Copy, Debug, PartialEq, Eq)]
#[repr(C)]
pub struct PlainBody {
    /// The position of its centre.
    pub x: i64,
    pub y: i64,
    /// The cosine and the sine of its rotation.
    pub c: i64,
    pub s: i64,
    /// The velocity, in lengths a second.
    pub vx: i64,
    pub vy: i64,
    /// The angular velocity, in radians a second.
    pub spin: i64,
    /// For how many ticks the body has been still.
    pub timer: u32,
    /// 1 where the body is simulated, 0 where it is static or asleep.
    pub awake: u32,
}

/// A contact of a world: the numbers of its two bodies, the feature that makes its point, and what
/// it has accumulated along the normal and the tangent.
#[derive(Clone, Copy, Debug, PartialEq, Eq)]
#[repr(C)]
pub struct PlainContact {
    pub a: u16,
    pub b: u16,
    pub feature: u32,
    pub normal: i64,
    pub tangent: i64,
}

const _: () = prove!(std::mem::size_of::<PlainBody>() == 64);

const _: () = prove!(std::mem::size_of::<PlainContact>() == 24);

/// How many bodies and how many contacts a world has.
#[derive(Clone, Copy, Debug, PartialEq, Eq)]
pub struct Sizes {
    pub bodies: usize,
    pub contacts: usize,
}

impl PlainBody {
    /// The numbers of a body.
    pub fn of(body: &BodyState) -> PlainBody
        ensures { result ≡ plain_body body.now }
    {
        PlainBody {
            x: body.position.x.raw(),
            y: body.position.y.raw(),
            c: body.rotation.c.raw(),
            s: body.rotation.s.raw(),
            vx: body.velocity.x.raw(),
            vy: body.velocity.y.raw(),
            spin: body.spin.raw(),
            timer: u32::from(body.timer),
            awake: u32::from(body.awake),
        }
    }
}

impl PlainContact {
    /// The numbers of a contact.
    pub fn of(contact: &Contact) -> PlainContact
        ensures { result ≡ plain_contact contact.now }
    {
        PlainContact {
            a: contact.key.a,
            b: contact.key.b,
            feature: contact.key.feature,
            normal: contact.impulses.normal.raw(),
            tangent: contact.impulses.tangent.raw(),
        }
    }
}

/// Writes the bodies to the front of a buffer.
pub(crate) fn write_bodies(bodies: &[BodyState], buffer: &mut [PlainBody])
    requires { length bodies.now ≤ length buffer.old }
    ensures { buffer.new
        ≡ map plain_body bodies.now ++ drop (length bodies.now) buffer.old }
{
    for i in 0..bodies.len() {
        buffer[i] = PlainBody::of(&bodies[i]);
    }
}

/// Writes the contacts to the front of a buffer.
pub(crate) fn write_contacts(contacts: &[Contact], buffer: &mut [PlainContact])
    requires { length contacts.now ≤ length buffer.old }
    ensures { buffer.new
        ≡ map plain_contact contacts.now ++ drop (length contacts.now) buffer.old }
{
    for i in 0..contacts.len() {
        buffer[i] = PlainContact::of(&contacts[i]);
    }
}
