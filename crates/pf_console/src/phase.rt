//! What the lines of a text mean, one after the other: a scene, its peers, and what is played.

ghost use Rattle.std.specs.Prelude.{◌≡◌, ◌<◌, ◌≤◌, [], Ok, IfOk, map};
ghost use Rattle.pf_text.specs.Driver.{Produces};
ghost use Rattle.pf_console.specs.Phase.{after_scene_line, peer_count_of, phase_rules, with_peers};

use pf_shapes::{MAX_BODIES, Progress, Scene, SceneFault, SceneReader};
use pf_text::{LineFault, Machine, TakeError, integer};
use std::alloc::{AllocError, Global};

/// How many peers a text may have.
pub const MAX_TEXT_PEERS: u8 = 8;

/// What `peers N` begins: it takes the lines behind that. Each line is lent an `L`, which it may
/// change only where it is out of memory.
pub trait Play<L>: Drop {
    ghost use Rattle.std.specs.Prelude.{◌≡◌, ◌<◌, ◌≤◌, IfOk, map};
    ghost use Rattle.pf_text.specs.Driver.{KeepsLent, Produces};
    ghost use Rattle.pf_console.specs.PlayRules.{PlayRules};

    // What is begun, what the fields of a line do, and for which it may change what it is lent.
    ghost play: { PlayRules Self };

    /// What a scene with so many peers begins.
    fn begin(alloc: Global, scene: Scene, peers: u8) -> Result<Self, AllocError>
    where
        Self: Sized,
        requires some { 0 < peers }
        requires few { peers ≤ MAX_TEXT_PEERS }
        ensures { IfOk result (λ begun. begun ≡ play.begin scene peers) };

    /// The text of the reply to a line, which may be empty, and what is then there.
    fn take_line(
        self,
        alloc: Global,
        lent: &mut L,
        fields: &[&[u8]],
    ) -> Result<(String, Self), TakeError<SceneFault>>
    where
        Self: Sized,
        ensures reply { Produces result (play.after self (map (λ field. field.now) fields.now)) }
        ensures kept { KeepsLent result
            (play.changes_lent self (map (λ field. field.now) fields.now)) lent.old lent.new };
}

/// Which part of a text comes next.
#[derive(Drop)]
pub enum Phase<B> {
    /// In its scene.
    Reading(SceneReader),
    /// After the scene, before `peers N`.
    Seating(Scene),
    /// Behind `peers N`.
    Playing(B),
}

impl<B> Phase<B> {
    ghost use Rattle.std.specs.Prelude.{◌≡◌};
    ghost use Rattle.pf_console.specs.Phase.{first_phase};

    /// The phase in which a text begins.
    pub fn first() -> Phase<B>
        ensures { result ≡ first_phase }
    {
        Phase::Reading(SceneReader::new(MAX_BODIES))
    }
}

/// The phase after a line of a scene.
fn after_scene_line<B>(progress: Progress) -> Phase<B>
    ensures { after_scene_line (Ok progress) ≡ Ok ([], result) }
{
    match progress {
        Progress::More(reader) => Phase::Reading(reader),
        Progress::Ended(scene) => Phase::Seating(scene),
    }
}

/// The number of peers in `peers N`.
#[tactic(auto, unfolding(crate::specs::Phase::peer_count_of))]
fn peer_count(fields: &[&[u8]]) -> Result<u8, SceneFault>
    ensures value { result ≡ peer_count_of (map (λ field. field.now) fields.now) }
    ensures some { IfOk result (λ count. 0 < count) }
    ensures few { IfOk result (λ count. count ≤ MAX_TEXT_PEERS) }
{
    let [word, count] = fields else {
        return Err(SceneFault::BadLine);
    };
    if *word != b"peers".as_slice() {
        return Err(SceneFault::BadLine);
    }
    let count = integer(count, 1, i64::from(MAX_TEXT_PEERS))?;
    Ok(count as u8)
}

/// The phase after `peers N`.
fn after_peers_line<L, B: Play<L>>(
    alloc: Global,
    scene: Scene,
    fields: &[&[u8]],
) -> Result<(String, Phase<B>), TakeError<SceneFault>>
    ensures { Produces result
        (with_peers B.play scene (peer_count_of (map (λ field. field.now) fields.now))) }
{
    let count = peer_count(fields).map_err(TakeError::Fault)?;
    let begun = B::begin(alloc, scene, count)?;
    Ok((String::new(alloc), Phase::Playing(begun)))
}

impl<L, B: Play<L>> Machine<L> for Phase<B> {
    type Fault = SceneFault;

    ghost rules = { phase_rules B.play };

    fn line_error(fault: LineFault) -> SceneFault {
        SceneFault::from(fault)
    }

    #[tactic(auto, unfolding(crate::specs::Phase::after_line, crate::specs::Phase::takes_memory, crate::specs::Phase::may_change_lent))]
    fn take(
        self,
        alloc: Global,
        lent: &mut L,
        fields: &[&[u8]],
    ) -> Result<(String, Self), TakeError<SceneFault>> {
        match self {
            Phase::Reading(reader) => {
                let progress = reader.take(alloc, fields)?;
                Ok((String::new(alloc), after_scene_line(progress)))
            }
            Phase::Seating(scene) => after_peers_line(alloc, scene, fields),
            Phase::Playing(begun) => {
                let (text, next) = begun.take_line(alloc, lent, fields)?;
                Ok((text, Phase::Playing(next)))
            }
        }
    }
}
