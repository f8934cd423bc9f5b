//! Text of words and numbers.

ghost use Rattle.std.specs.Prelude.{◌≡◌, ◌++◌, OnOk};
ghost use Rattle.std.specs.String.{string_bytes};
ghost use Rattle.pf_text.specs.Words.{words_text, line_text};

use std::alloc::AllocError;

/// Adds a word and numbers, each behind a space.
pub fn push_words(text: &mut String, word: &str, numbers: &[i64]) -> Result<(), AllocError>
    ensures { OnOk result (string_bytes text.new
        ≡ string_bytes text.old ++ words_text word.now numbers.now) }
{
    text.push_str(word)?;
    for number in numbers {
        write!(text, " {number}")?;
    }
    Ok(())
}

/// Adds a line: a word and numbers.
#[tactic(auto, unfolding(crate::specs::Words::line_text))]
pub fn push_line(text: &mut String, word: &str, numbers: &[i64]) -> Result<(), AllocError>
    ensures { OnOk result (string_bytes text.new
        ≡ string_bytes text.old ++ line_text word.now numbers.now) }
{
    push_words(text, word, numbers)?;
    text.push('\n')
}
