//! Two peers in one context; keys that name nothing; buffers that are too small; numbers and texts
//! that are invalid; frames that come back; seals. The calls stand in functions that borrow the
//! context.

use pf_commands::{FRAME_LEN, Payload};
use pf_context::{Context, ContextError, Key, Material, PlainBody, RawV2, numbers};
use pf_shapes::SceneFault;
use std::alloc::Global;
use std::test::Fail;

/// A length, a mass or a number of a player's: 1, in units of 2^-24.
const ONE: i64 = 1 << 24;

/// A place that no world wrote.
const BLANK: PlainBody = PlainBody {
    x: 1,
    y: 2,
    c: 3,
    s: 4,
    vx: 5,
    vy: 6,
    spin: 7,
    timer: 8,
    awake: 9,
};

/// A circle of player 0, on a scene without gravity.
fn one_circle(context: &mut Context, alloc: Global) -> Result<Key, ContextError> {
    let scene = context.new_scene(alloc, RawV2 { x: 0, y: 0 })?;
    let material = Material {
        owner: Some(0),
        mass: ONE,
        friction: 0,
    };
    context.push_circle(scene, material, ONE, RawV2 { x: 0, y: 0 })?;
    Ok(scene)
}

/// Peers of two players of that scene.
fn two_peers(context: &mut Context, alloc: Global) -> Result<(Key, Key), ContextError> {
    let scene = one_circle(context, alloc)?;
    let ours = context.new_peer(alloc, scene, 0, 8)?;
    let theirs = context.new_peer(alloc, scene, 1, 8)?;
    context.free_scene(scene)?;
    Ok((ours, theirs))
}

/// Where the body of a peer is at a tick, and how fast it goes.
fn motion(
    context: &Context,
    alloc: Global,
    peer: Key,
    tick: u32,
) -> Result<(i64, i64), ContextError> {
    let mut bodies = [BLANK];
    context.world(alloc, peer, tick, &mut bodies, &mut [])?;
    Ok((bodies[0].x, bodies[0].vx))
}

/// A push of the body by a length a second.
fn push() -> Result<Payload, ContextError> {
    numbers::push(0, RawV2 { x: ONE, y: 0 })
}

/// Whether a frame that comes late makes the worlds of two peers equal.
fn is_late_frame_taken(context: &mut Context, alloc: Global) -> Result<bool, ContextError> {
    let (ours, theirs) = two_peers(context, alloc)?;
    let frame = context.issue(ours, push()?)?;
    for peer in [ours, theirs] {
        context.advance(peer, 64)?;
        context.settle(alloc, peer)?;
    }
    let early = motion(context, alloc, theirs, 64)?;
    context.take(theirs, frame.as_slice())?;
    context.settle(alloc, theirs)?;
    let late = motion(context, alloc, theirs, 64)?;
    let own = motion(context, alloc, ours, 64)?;
    Ok(early == (0, 0) && late == (ONE, ONE) && own == late)
}

#[test]
fn a_frame_that_comes_late_makes_worlds_equal(rt: HostRuntime) -> Result<(), Fail> {
    let mut context = Context::new(rt.alloc());
    let is_so = is_late_frame_taken(&mut context, rt.alloc())?;
    assert!(rt; is_so);
    Ok(())
}

/// Whether a command comes to another peer by the first of two merges.
fn is_merged_once(context: &mut Context, alloc: Global) -> Result<bool, ContextError> {
    let (ours, theirs) = two_peers(context, alloc)?;
    context.issue(ours, push()?)?;
    let own = context.merge(ours, ours)?;
    let first = context.merge(theirs, ours)?;
    let second = context.merge(theirs, ours)?;
    Ok([own, first, second] == [0, 1, 0])
}

#[test]
fn a_merge_takes_what_the_other_holds(rt: HostRuntime) -> Result<(), Fail> {
    let mut context = Context::new(rt.alloc());
    let is_so = is_merged_once(&mut context, rt.alloc())?;
    assert!(rt; is_so);
    Ok(())
}

/// Whether the key of a freed peer names nothing, beside another peer.
fn is_freed(context: &mut Context, alloc: Global) -> Result<bool, ContextError> {
    let (ours, theirs) = two_peers(context, alloc)?;
    context.free_peer(ours)?;
    let bad = Err(ContextError::BadKey);
    let is_gone = context.advance(ours, 1) == bad && context.reached(ours) == bad;
    Ok(
        is_gone
            && context.free_peer(ours) == Err(ContextError::BadKey)
            && context.reached(theirs) == Ok(0),
    )
}

#[test]
fn a_freed_peer_is_named_by_no_key(rt: HostRuntime) -> Result<(), Fail> {
    let mut context = Context::new(rt.alloc());
    let is_so = is_freed(&mut context, rt.alloc())?;
    assert!(rt; is_so);
    Ok(())
}

/// Whether players, rings and masses out of their ranges are refused.
fn are_numbers_refused(context: &mut Context, alloc: Global) -> Result<bool, ContextError> {
    let scene = one_circle(context, alloc)?;
    let peers = [(8, 1), (0, 0), (0, 65)].map(|(player, ring)| {
        context.new_peer(alloc, scene, player, ring).err()
    });
    let wanted = [
        ContextError::BadPlayer,
        ContextError::BadRing,
        ContextError::BadRing,
    ];
    let heavy = Material {
        owner: None,
        mass: 1,
        friction: 0,
    };
    let body = context.push_circle(scene, heavy, ONE, RawV2 { x: 0, y: 0 });
    Ok(peers == wanted.map(Some) && body == Err(ContextError::Scene(SceneFault::BadMass)))
}

#[test]
fn numbers_out_of_range_are_refused(rt: HostRuntime) -> Result<(), Fail> {
    let mut context = Context::new(rt.alloc());
    let is_so = are_numbers_refused(&mut context, rt.alloc())?;
    assert!(rt; is_so);
    Ok(())
}

/// Whether a buffer without room for a body is refused.
fn is_too_small(context: &mut Context, alloc: Global) -> Result<bool, ContextError> {
    let (ours, _) = two_peers(context, alloc)?;
    let world = context.world(alloc, ours, 0, &mut [], &mut []);
    Ok(matches!(world, Err(ContextError::SmallBuffers(sizes)) if sizes.bodies == 1))
}

#[test]
fn a_buffer_that_is_too_small_is_not_written(rt: HostRuntime) -> Result<(), Fail> {
    let mut context = Context::new(rt.alloc());
    let is_so = is_too_small(&mut context, rt.alloc())?;
    assert!(rt; is_so);
    Ok(())
}

/// Whether the frames of two commands come back, from tick 0 on and from tick 1 on.
fn are_frames_returned(context: &mut Context, alloc: Global) -> Result<bool, ContextError> {
    let (ours, theirs) = two_peers(context, alloc)?;
    let first = context.issue(ours, push()?)?;
    context.advance(ours, 3)?;
    let second = context.issue(ours, push()?)?;
    let mut both = [[0; FRAME_LEN]; 2];
    let mut late = [[0; FRAME_LEN]; 2];
    let counts = [
        context.frames(ours, 0, &mut both)?,
        context.frames(ours, 1, &mut late)?,
    ];
    let are_right = counts == [2, 1] && both == [first, second] && late[0] == second;
    Ok(
        are_right
            && context.frames(ours, 0, &mut []) == Err(ContextError::SmallBuffer(2))
            && context.frames(theirs, 0, &mut late) == Ok(0),
    )
}

#[test]
fn frames_of_a_tick_and_later_come_back(rt: HostRuntime) -> Result<(), Fail> {
    let mut context = Context::new(rt.alloc());
    let is_so = are_frames_returned(&mut context, rt.alloc())?;
    assert!(rt; is_so);
    Ok(())
}

/// The first invalid line of this text is the second.
const SCENE: &[u8] = b"gravity 0 0\ncircle 0 1 0 16777216 0 0\nend\n";

/// Whether an invalid line is named, and a text without one gets a body.
fn is_read(context: &mut Context, alloc: Global) -> Result<bool, ContextError> {
    let bad = ContextError::Line(2, SceneFault::BadMass);
    let refused = context.read_scene(alloc, SCENE);
    let scene = context.read_scene(alloc, b"gravity 0 0\nend\n")?;
    let material = Material {
        owner: None,
        mass: 0,
        friction: 0,
    };
    let (half, place) = (RawV2 { x: ONE, y: ONE }, RawV2 { x: 0, y: 0 });
    let number = context.push_box(scene, material, half, place, RawV2 { x: ONE, y: 0 });
    Ok(refused == Err(bad) && number == Ok(0) && context.body_count(scene) == Ok(1))
}

#[test]
fn a_text_is_read_or_its_line_is_named(rt: HostRuntime) -> Result<(), Fail> {
    let mut context = Context::new(rt.alloc());
    let is_so = is_read(&mut context, rt.alloc())?;
    assert!(rt; is_so);
    Ok(())
}

/// Issues a turn and a place, settles tick 2, and seals tick 1.
fn seal_first(context: &mut Context, alloc: Global, peer: Key) -> Result<(), ContextError> {
    context.issue(peer, numbers::turn(0, ONE)?)?;
    context.issue(peer, numbers::place(0, RawV2 { x: ONE, y: 0 })?)?;
    context.advance(peer, 2)?;
    context.settle(alloc, peer)?;
    context.seal(alloc, peer, 1)
}

/// Whether a seal moves the horizon, whose world has the body where it was put.
fn is_sealed(context: &mut Context, alloc: Global) -> Result<bool, ContextError> {
    let (ours, theirs) = two_peers(context, alloc)?;
    seal_first(context, alloc, ours)?;
    let mut bodies = [BLANK];
    context.base(ours, &mut bodies, &mut [])?;
    let ticks = context.meter(ours)?.ticks;
    Ok(
        context.horizon(ours) == Ok(1)
            && context.settled(ours) == Ok(2)
            && ticks > 0
            && bodies[0].x == ONE
            && context.merge_alone(theirs, ours) == Ok(0),
    )
}

#[test]
fn a_seal_moves_the_horizon(rt: HostRuntime) -> Result<(), Fail> {
    let mut context = Context::new(rt.alloc());
    let is_so = is_sealed(&mut context, rt.alloc())?;
    assert!(rt; is_so);
    Ok(())
}
