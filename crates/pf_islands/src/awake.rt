//! Which bodies are awake in a tick, as a list of numbers and as flags.

ghost use Rattle.std.specs.Prelude.{◌≡◌, [], length, IfOk, IsOk};
ghost use Rattle.pf_islands.specs.Flags.{ListsAwake, awake_numbers, simulated_flags};

use pf_shapes::{BodyState, Scene};
use std::alloc::{AllocError, Global};

/// The numbers of all awake bodies, in ascending order. Takes no memory where there are no bodies.
pub(crate) fn awake_of_all(alloc: Global, bodies: &[BodyState]) -> Result<Vec<usize>, AllocError>
    ensures value { IfOk result (λ numbers. numbers.items ≡ awake_numbers bodies.now) }
    ensures no_memory { bodies.now ≡ [] → IsOk result }
{
    let mut numbers = Vec::with_capacity(alloc, bodies.len())?;
    for (number, body) in bodies.iter().enumerate() {
        if body.awake {
            numbers.push_reserved(number);
        }
    }
    Ok(numbers)
}

/// The numbers of all awake bodies, in ascending order. `listed` has each of them: where it is
/// empty, no body is looked at. Takes no memory where there are no bodies.
pub(crate) fn awake_numbers(
    alloc: Global,
    bodies: &[BodyState],
    listed: &[usize],
) -> Result<Vec<usize>, AllocError>
    requires { ListsAwake listed.now bodies.now }
    ensures value { IfOk result (λ numbers. numbers.items ≡ awake_numbers bodies.now) }
    ensures no_memory { bodies.now ≡ [] → IsOk result }
{
    if listed.is_empty() {
        return Ok(Vec::new(alloc));
    }
    awake_of_all(alloc, bodies)
}

/// For each body whether it is dynamic and awake: one byte each, so that the flags can be read
/// again and again. `numbers` lists the awake bodies. Takes no memory where there are no bodies.
pub(crate) fn simulated_flags(
    alloc: Global,
    scene: &Scene,
    bodies: &[BodyState],
    numbers: &[usize],
) -> Result<Vec<bool>, AllocError>
    requires bodies { length bodies.now ≡ length scene.now.fixtures }
    requires numbers { numbers.now ≡ awake_numbers bodies.now }
    ensures value { IfOk result (λ flags. flags.items ≡ simulated_flags scene.now bodies.now) }
    ensures no_memory { bodies.now ≡ [] → IsOk result }
{
    let fixtures = scene.fixtures();
    let mut simulated = Vec::with_capacity(alloc, bodies.len())?;
    simulated.resize(bodies.len(), false)?;
    for number in numbers {
        simulated[*number] = !fixtures[*number].is_static();
    }
    Ok(simulated)
}
