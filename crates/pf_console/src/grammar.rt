//! The lines of events.

ghost use Rattle.std.specs.Prelude.{◌≡◌, map, IfOk};
ghost use Rattle.pf_events.specs.Session.{IsAmong};
ghost use Rattle.pf_console.specs.Grammar.{push_event, turn_event, stop_event, place_event, issue_of, take_of, merge_event, advance_of, settle_of, show_of, event_of, seal_of};

use crate::digits::frame;
use crate::fields::{EventWord, Kind, body, impulse, kind_in, peer, position, real, tick, word};
use pf_commands::Payload;
use pf_events::Event;
use pf_rot::V2;
use pf_text::LineFault;

/// `issue P push B X Y`.
#[tactic(auto, unfolding(crate::specs::Grammar::push_event))]
fn push(peers: u8, of: &[u8], arguments: &[&[u8]]) -> Result<Event, LineFault>
    ensures value { result ≡ push_event peers of.now (map (λ field. field.now) arguments.now) }
    ensures peer { IfOk result (IsAmong peers) }
{
    let [moved, x, y] = arguments else {
        return Err(LineFault::BadLine);
    };
    let peer = peer(peers, of)?;
    let body = body(moved)?;
    let V2 { x, y } = impulse(x, y)?;
    let payload = Payload::Push { body, x, y };
    Ok(Event::Issue { peer, payload })
}

/// `issue P turn B X`.
#[tactic(auto, unfolding(crate::specs::Grammar::turn_event))]
fn turn(peers: u8, of: &[u8], arguments: &[&[u8]]) -> Result<Event, LineFault>
    ensures value { result ≡ turn_event peers of.now (map (λ field. field.now) arguments.now) }
    ensures peer { IfOk result (IsAmong peers) }
{
    let [moved, x] = arguments else {
        return Err(LineFault::BadLine);
    };
    let peer = peer(peers, of)?;
    let body = body(moved)?;
    let x = real(x)?;
    let payload = Payload::Turn { body, x };
    Ok(Event::Issue { peer, payload })
}

/// `issue P stop B`.
#[tactic(auto, unfolding(crate::specs::Grammar::stop_event))]
fn stop(peers: u8, of: &[u8], arguments: &[&[u8]]) -> Result<Event, LineFault>
    ensures value { result ≡ stop_event peers of.now (map (λ field. field.now) arguments.now) }
    ensures peer { IfOk result (IsAmong peers) }
{
    let [moved] = arguments else {
        return Err(LineFault::BadLine);
    };
    let peer = peer(peers, of)?;
    let body = body(moved)?;
    let payload = Payload::Stop { body };
    Ok(Event::Issue { peer, payload })
}

/// `issue P place B X Y`.
#[tactic(auto, unfolding(crate::specs::Grammar::place_event))]
fn place(peers: u8, of: &[u8], arguments: &[&[u8]]) -> Result<Event, LineFault>
    ensures value { result ≡ place_event peers of.now (map (λ field. field.now) arguments.now) }
    ensures peer { IfOk result (IsAmong peers) }
{
    let [moved, x, y] = arguments else {
        return Err(LineFault::BadLine);
    };
    let peer = peer(peers, of)?;
    let body = body(moved)?;
    let (x, y) = position(x, y)?;
    let payload = Payload::Place { body, x, y };
    Ok(Event::Issue { peer, payload })
}

/// `issue P` and what is issued.
#[tactic(auto, unfolding(crate::specs::Grammar::issue_of))]
fn issue(peers: u8, arguments: &[&[u8]]) -> Result<Event, LineFault>
    ensures value { result ≡ issue_of peers (map (λ field. field.now) arguments.now) }
    ensures peer { IfOk result (IsAmong peers) }
{
    let [of, kind, arguments @ ..] = arguments else {
        return Err(LineFault::BadLine);
    };
    match kind_in(kind) {
        Some(Kind::Push) => push(peers, of, arguments),
        Some(Kind::Turn) => turn(peers, of, arguments),
        Some(Kind::Stop) => stop(peers, of, arguments),
        Some(Kind::Place) => place(peers, of, arguments),
        None => Err(LineFault::BadLine),
    }
}

/// `take P HEX`.
#[tactic(auto, unfolding(crate::specs::Grammar::take_of))]
fn take(peers: u8, arguments: &[&[u8]]) -> Result<Event, LineFault>
    ensures value { result ≡ take_of peers (map (λ field. field.now) arguments.now) }
    ensures peer { IfOk result (IsAmong peers) }
{
    let [of, digits] = arguments else {
        return Err(LineFault::BadLine);
    };
    let peer = peer(peers, of)?;
    let decoded = frame(digits)?;
    Ok(Event::Take { peer, decoded })
}

/// `merge P Q`.
#[tactic(auto, unfolding(crate::specs::Grammar::merge_event))]
fn merge(peers: u8, arguments: &[&[u8]]) -> Result<Event, LineFault>
    ensures value { result ≡ merge_event peers (map (λ field. field.now) arguments.now) }
    ensures peer { IfOk result (IsAmong peers) }
{
    let [to, from] = arguments else {
        return Err(LineFault::BadLine);
    };
    Ok(Event::Merge {
        peer: peer(peers, to)?,
        other: peer(peers, from)?,
    })
}

/// `advance P K`.
#[tactic(auto, unfolding(crate::specs::Grammar::advance_of))]
fn advance(peers: u8, arguments: &[&[u8]]) -> Result<Event, LineFault>
    ensures value { result ≡ advance_of peers (map (λ field. field.now) arguments.now) }
    ensures peer { IfOk result (IsAmong peers) }
{
    let [of, ticks] = arguments else {
        return Err(LineFault::BadLine);
    };
    Ok(Event::Advance {
        peer: peer(peers, of)?,
        ticks: tick(ticks)?,
    })
}

/// `settle P`.
#[tactic(auto, unfolding(crate::specs::Grammar::settle_of))]
fn settle(peers: u8, arguments: &[&[u8]]) -> Result<Event, LineFault>
    ensures value { result ≡ settle_of peers (map (λ field. field.now) arguments.now) }
    ensures peer { IfOk result (IsAmong peers) }
{
    let [of] = arguments else {
        return Err(LineFault::BadLine);
    };
    let peer = peer(peers, of)?;
    Ok(Event::Settle { peer })
}

/// `show P T`.
#[tactic(auto, unfolding(crate::specs::Grammar::show_of))]
fn show(peers: u8, arguments: &[&[u8]]) -> Result<Event, LineFault>
    ensures value { result ≡ show_of peers (map (λ field. field.now) arguments.now) }
    ensures peer { IfOk result (IsAmong peers) }
{
    let [of, at] = arguments else {
        return Err(LineFault::BadLine);
    };
    Ok(Event::Show {
        peer: peer(peers, of)?,
        tick: tick(at)?,
    })
}

/// `seal P H`.
#[tactic(auto, unfolding(crate::specs::Grammar::seal_of))]
fn seal(peers: u8, arguments: &[&[u8]]) -> Result<Event, LineFault>
    ensures value { result ≡ seal_of peers (map (λ field. field.now) arguments.now) }
    ensures peer { IfOk result (IsAmong peers) }
{
    let [of, horizon] = arguments else {
        return Err(LineFault::BadLine);
    };
    Ok(Event::Seal {
        peer: peer(peers, of)?,
        tick: tick(horizon)?,
    })
}

/// The event that a line's fields encode, on one of so many peers.
#[tactic(auto, unfolding(crate::specs::Grammar::event_of))]
pub fn event(peers: u8, fields: &[&[u8]]) -> Result<Event, LineFault>
    ensures value { result ≡ event_of peers (map (λ field. field.now) fields.now) }
    ensures peer { IfOk result (IsAmong peers) }
{
    let [first, arguments @ ..] = fields else {
        return Err(LineFault::BadLine);
    };
    match word(first) {
        Some(EventWord::Issue) => issue(peers, arguments),
        Some(EventWord::Take) => take(peers, arguments),
        Some(EventWord::Merge) => merge(peers, arguments),
        Some(EventWord::Advance) => advance(peers, arguments),
        Some(EventWord::Settle) => settle(peers, arguments),
        Some(EventWord::Show) => show(peers, arguments),
        Some(EventWord::Seal) => seal(peers, arguments),
        None => Err(LineFault::BadLine),
    }
}
