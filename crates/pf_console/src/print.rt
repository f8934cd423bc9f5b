//! The texts of replies.

ghost use Rattle.std.specs.Prelude.{◌≡◌, ◌++◌, ◌<◌, ◌^◌, All, OnOk, IfOk};
ghost use Rattle.std.specs.List.{flat_map};
ghost use Rattle.std.specs.String.{string_bytes};
ghost use Rattle.pf_manifold.specs.Key.{IsKey};
ghost use Rattle.pf_console.specs.Print.{payload_text, line_of_command, body_numbers, dynamic_body_text, bodies_text, contact_numbers, contact_text, block_text, reply_line, refusal_line, refusal_text, reply_text};

use crate::names::{put_name, refusal_name};
use itoa::Buffer;
use pf_cache::Contact;
use pf_commands::{Command, Payload};
use pf_events::Reply;
use pf_rollback::Refusal;
use pf_shapes::{BodyState, Fixture};
use pf_step::World;
use pf_text::{push_line, push_words};
use std::alloc::{AllocError, Global};

/// Room for the text of a reply of one line.
const LINE_CAPACITY: usize = 64;

/// Adds what a command does, and the line's end.
fn push_payload(text: &mut String, payload: &Payload) -> Result<(), AllocError>
    ensures { OnOk result (string_bytes text.new
        ≡ string_bytes text.old ++ payload_text payload.now) }
{
    match *payload {
        Payload::Push { body, x, y } => {
            push_line(text, " push", &[i64::from(body), x.raw(), y.raw()])
        }
        Payload::Turn { body, x } => push_line(text, " turn", &[i64::from(body), x.raw()]),
        Payload::Stop { body } => push_line(text, " stop", &[i64::from(body)]),
        Payload::Place { body, x, y } => push_line(
            text,
            " place",
            &[i64::from(body), x.value().raw(), y.value().raw()],
        ),
    }
}

/// The line of a command.
#[tactic(auto, unfolding(crate::specs::Print::line_of_command))]
pub fn command_text(alloc: Global, command: &Command) -> Result<String, AllocError>
    ensures { IfOk result (λ text. string_bytes text ≡ line_of_command command.now) }
{
    let mut text = String::new(alloc);
    push_words(&mut text, "tick", &[i64::from(command.name.tick())])?;
    push_words(&mut text, " player", &[i64::from(command.name.player())])?;
    push_words(&mut text, " number", &[i64::from(command.name.number())])?;
    push_payload(&mut text, &command.payload)?;
    Ok(text)
}

/// The numbers of a body's line.
fn body_numbers(number: usize, body: &BodyState) -> [i64; 10]
    requires { number < 2 ^ 63 }
    ensures { result ≡ body_numbers number body.now }
{
    [
        number as i64,
        body.position.x.raw(),
        body.position.y.raw(),
        body.rotation.c.raw(),
        body.rotation.s.raw(),
        body.velocity.x.raw(),
        body.velocity.y.raw(),
        body.spin.raw(),
        i64::from(body.timer),
        i64::from(body.awake),
    ]
}

/// Adds the line of a body, if it moves.
fn push_body(
    text: &mut String,
    number: usize,
    fixture: &Fixture,
    body: &BodyState,
) -> Result<(), AllocError>
    requires { number < 2 ^ 63 }
    ensures { OnOk result (string_bytes text.new
        ≡ string_bytes text.old ++ dynamic_body_text number fixture.now body.now) }
{
    if fixture.is_static() {
        return Ok(());
    }
    push_line(text, "body", &body_numbers(number, body))
}

/// Adds a line for each body that moves.
fn push_bodies(
    text: &mut String,
    fixtures: &[Fixture],
    bodies: &[BodyState],
) -> Result<(), AllocError>
    ensures { OnOk result (string_bytes text.new
        ≡ string_bytes text.old ++ bodies_text 0 fixtures.now bodies.now) }
{
    for i in 0..fixtures.len().min(bodies.len()) {
        push_body(text, i, &fixtures[i], &bodies[i])?;
    }
    Ok(())
}

/// The numbers of a contact's line.
fn contact_numbers(contact: &Contact) -> [i64; 5]
    requires { IsKey contact.now.key }
    ensures { result ≡ contact_numbers contact.now }
{
    let key = &contact.key;
    let impulses = &contact.impulses;
    [
        i64::from(key.a),
        i64::from(key.b),
        i64::from(key.feature),
        impulses.normal.raw(),
        impulses.tangent.raw(),
    ]
}

/// Adds a line for each contact.
fn push_contacts(text: &mut String, contacts: &[Contact]) -> Result<(), AllocError>
    requires { All (λ c. IsKey c.key) contacts.now }
    ensures { OnOk result (string_bytes text.new
        ≡ string_bytes text.old ++ flat_map contact_text contacts.now) }
{
    for contact in contacts {
        push_line(text, "contact", &contact_numbers(contact))?;
    }
    Ok(())
}

/// Adds a line: a word, a peer, and its reply.
fn push_reply(text: &mut String, word: &str, peer: u8, answer: &str) -> Result<(), AllocError>
    ensures { OnOk result (string_bytes text.new
        ≡ string_bytes text.old ++ reply_line word.now peer answer.now) }
{
    push_words(text, word, &[i64::from(peer)])?;
    text.push(' ')?;
    text.push_str(answer)?;
    text.push('\n')
}

/// Adds the line of a refusal by its name.
fn push_refusal_line(text: &mut String, name: &str) -> Result<(), AllocError>
    ensures { OnOk result (string_bytes text.new ≡ string_bytes text.old ++ refusal_line name.now) }
{
    text.push_str("refused ")?;
    text.push_str(name)?;
    text.push('\n')
}

/// Adds the text of a refusal.
#[tactic(auto, unfolding(crate::specs::Print::refusal_text))]
fn push_refusal(text: &mut String, refusal: Refusal) -> Result<(), AllocError>
    ensures { OnOk result (string_bytes text.new ≡ string_bytes text.old ++ refusal_text refusal) }
{
    match refusal {
        Refusal::NotReached(reached) => {
            push_line(text, "refused NotReached", &[i64::from(reached)])
        }
        Refusal::TooOld(horizon) => push_line(text, "refused TooOld", &[i64::from(horizon)]),
        Refusal::HorizonsDiffer(own, other) => push_line(
            text,
            "refused HorizonsDiffer",
            &[i64::from(own), i64::from(other)],
        ),
        refusal => push_refusal_line(text, refusal_name(refusal)),
    }
}

/// Adds the block of a world: its bodies that move, and its contacts.
#[tactic(auto, unfolding(crate::specs::Print::block_text))]
pub fn push_block(
    text: &mut String,
    fixtures: &[Fixture],
    peer: u8,
    tick: u32,
    world: &World,
) -> Result<(), AllocError>
    ensures { OnOk result (string_bytes text.new
        ≡ string_bytes text.old ++ block_text fixtures.now peer tick world.now) }
{
    push_line(text, "show", &[i64::from(peer), i64::from(tick)])?;
    push_bodies(text, fixtures, world.bodies())?;
    push_contacts(text, world.contacts().as_slice())?;
    push_line(text, "end", &[])
}

/// The text of a reply, whose worlds have these fixtures.
#[tactic(auto, unfolding(crate::specs::Print::reply_text))]
pub fn reply_text(alloc: Global, fixtures: &[Fixture], reply: &Reply) -> Result<String, AllocError>
    ensures { IfOk result (λ text. string_bytes text ≡ reply_text fixtures.now reply.now) }
{
    let mut text = String::with_capacity(alloc, LINE_CAPACITY)?;
    match reply {
        Reply::Issued { peer, frame } => {
            let digits = hex::encode(alloc, frame.as_slice())?;
            push_reply(&mut text, "issue", *peer, &digits)?;
        }
        Reply::Took { peer, put } => push_reply(&mut text, "take", *peer, put_name(*put))?,
        Reply::Merged { peer, count } => {
            push_reply(&mut text, "merge", *peer, Buffer::new().format(*count))?;
        }
        Reply::Advanced { peer, reached } => {
            push_line(
                &mut text,
                "advance",
                &[i64::from(*peer), i64::from(*reached)],
            )?;
        }
        Reply::Settled { peer, reached } => {
            push_line(
                &mut text,
                "settle",
                &[i64::from(*peer), i64::from(*reached)],
            )?;
        }
        Reply::Shown { peer, tick, world } => {
            push_block(&mut text, fixtures, *peer, *tick, world)?;
        }
        Reply::Sealed { peer, tick } => {
            push_line(&mut text, "seal", &[i64::from(*peer), i64::from(*tick)])?;
        }
        Reply::Refused(refusal) => push_refusal(&mut text, *refusal)?,
    }
    Ok(text)
}
