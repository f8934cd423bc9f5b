//! How an export answers: the code of how its call ended, and its output.

ghost use Rattle.std.specs.Prelude.{◌≡◌};
ghost use Rattle.pf_c.specs.Calls.{WritesOutput};
ghost use Rattle.pf_c.specs.Codes.{code_of, end_code};

use crate::codes::{PF_CLOSED, PF_OK, error_code};
use pf_context::ContextError;

/// The code of how a call of a context ended.
pub(crate) fn code_of<T>(answer: &Result<T, ContextError>) -> u32
    ensures { result ≡ code_of answer.now }
{
    match answer {
        Ok(_) => PF_OK,
        Err(error) => error_code(*error),
    }
}

/// The same, where a closed context was not called.
pub(crate) fn end_code<T>(answer: &Option<Result<T, ContextError>>) -> u32
    ensures { result ≡ end_code answer.now }
{
    match answer {
        Some(answer) => code_of(answer),
        None => PF_CLOSED,
    }
}

/// Writes what a call returned to an output, and returns the code of how it ended.
pub(crate) fn tell<T: Copy>(answer: Option<Result<T, ContextError>>, output: &mut T) -> u32
    ensures code { result ≡ end_code answer }
    ensures output { WritesOutput (λ told new. new ≡ told) output.old output.new answer }
{
    tell_as(answer, output, |told| told)
}

/// The same, with another form of what was returned.
pub(crate) fn tell_as<T: Copy, U: Copy, F: FnOnce(T) -> U>(
    answer: Option<Result<T, ContextError>>,
    output: &mut U,
    form: F,
) -> u32
    requires { F.IsAlwaysCallable form }
    ensures code { result ≡ end_code answer }
    ensures output { WritesOutput (F.post form) output.old output.new answer }
{
    if let Some(Ok(told)) = answer {
        *output = form(told);
    }
    end_code(&answer)
}
