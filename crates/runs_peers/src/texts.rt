//! The parts of a stored run's input: texts, each but the last with `# next text` as its last line,
//! and in each a scene and the lines behind it.

ghost use Rattle.std.specs.Prelude.{◌+◌, ◌<◌, length, IfSome};

use memchr::memmem;

/// The last line of a text that another one follows.
const SEPARATOR: &[u8] = b"# next text\n";

/// The last line of a scene.
const END: &[u8] = b"\nend\n";

/// A text up to the first mark, with the mark, and what is behind it.
fn split_behind<'a>(text: &'a [u8], mark: &[u8]) -> Option<(&'a [u8], &'a [u8])>
    requires { 0 < length mark.now }
    ensures { IfSome result (λ parts. length parts.1.now < length text.now) }
{
    let end = memmem::find(text, mark)? + mark.len();
    Some((&text[..end], &text[end..]))
}

/// The first of several texts, and those behind it.
pub fn split_text(texts: &[u8]) -> Option<(&[u8], &[u8])>
    ensures { IfSome result (λ parts. length parts.1.now < length texts.now) }
{
    split_behind(texts, SEPARATOR)
}

/// The scene of a text with its last line, and the lines behind it.
pub fn split_scene(text: &[u8]) -> Option<(&[u8], &[u8])> {
    split_behind(text, END)
}
