//! The words of a scene's lines.

ghost use Rattle.std.specs.Prelude.{◌≡◌};
ghost use Rattle.pf_shapes.specs.SceneText.{word_of};

/// The first field of a line of a scene.
#[derive(Clone, Copy, Debug, PartialEq, Eq)]
pub enum SceneWord {
    Gravity,
    Body(BodyWord),
    End,
}

/// The shape that a body's line begins with.
#[derive(Clone, Copy, Debug, PartialEq, Eq)]
pub enum BodyWord {
    Circle,
    Box,
}

/// The word that a field is, if it is one.
pub fn word(field: &[u8]) -> Option<SceneWord>
    ensures { result ≡ word_of field.now }
{
    if field == b"gravity".as_slice() {
        Some(SceneWord::Gravity)
    } else if field == b"circle".as_slice() {
        Some(SceneWord::Body(BodyWord::Circle))
    } else if field == b"box".as_slice() {
        Some(SceneWord::Body(BodyWord::Box))
    } else if field == b"end".as_slice() {
        Some(SceneWord::End)
    } else {
        None
    }
}
