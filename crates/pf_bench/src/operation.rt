//! Operations that are measured, and their words.

ghost use Rattle.std.specs.Prelude.{◌≡◌, IfSome};
ghost use Rattle.pf_bench.specs.declared.operation.Operation.{Operation};
ghost use Rattle.pf_bench.specs.Operation.{operation_word};

/// What the steps of a chain do.
#[derive(Clone, Copy, Debug, PartialEq, Eq)]
pub enum Operation {
    Add,
    Mul,
    Div,
    /// Products that 64 bits can't hold.
    MulWide,
    /// Quotients whose numerators 64 bits can't hold.
    DivWide,
    Root,
    Length,
    Turn,
}

impl Operation {
    /// The operation of this word.
    pub fn parse(word: &str) -> Option<Operation>
        ensures known { (o : Operation) → word.now ≡ operation_word o → result ≡ Some o }
        ensures value { IfSome result (λ o. word.now ≡ operation_word o) }
    {
        match word {
            "add" => Some(Operation::Add),
            "mul" => Some(Operation::Mul),
            "div" => Some(Operation::Div),
            "mul-wide" => Some(Operation::MulWide),
            "div-wide" => Some(Operation::DivWide),
            "root" => Some(Operation::Root),
            "length" => Some(Operation::Length),
            "turn" => Some(Operation::Turn),
            _ => None,
        }
    }
}
