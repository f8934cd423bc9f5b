//! The scene that standing workers share.

ghost use Rattle.std.specs.Prelude.{◌≡◌, IfOk};
ghost use Rattle.std.specs.Arc.{arc_value};

use pf_shapes::Scene;
use std::alloc::{AllocError, Global};
use std::cell::Cell;
use std::sync::Arc;

/// The scene of the last call, if there was one: a match has one scene, which is then copied in the
/// first call only.
#[derive(Drop)]
pub(crate) struct SharedScene {
    kept: Cell<Option<Arc<Scene, Global>>>,
}

impl SharedScene {
    /// No scene. Takes no memory.
    pub(crate) fn new() -> SharedScene {
        SharedScene {
            kept: Cell::new(None),
        }
    }

    /// A scene as the workers share it: the kept one if it is equal, or else a copy, which is kept.
    /// An error leaves none.
    pub(crate) fn shared(
        &self,
        alloc: Global,
        scene: &Scene,
    ) -> Result<Arc<Scene, Global>, AllocError>
        ensures { IfOk result (λ shared. arc_value shared ≡ scene.now) }
    {
        let shared = match self.kept.take() {
            Some(kept) if *kept == *scene => kept,
            _ => Arc::new(alloc, scene.try_clone()?)?,
        };
        self.kept.set(Some(Arc::try_clone(&shared)?));
        Ok(shared)
    }
}
