ghost use Rattle.std.specs.Prelude.{◌≡◌, MatchOption};
ghost use Rattle.std.specs.List.{list_all};
ghost use Rattle.script_sites.specs.Limits.{has_few_parameters, IsTooMany, IsWithinBefore};

use script_grammar::{Function, Script};

/// What a script may have only so many of, in the order in which this is judged.
#[derive(Clone, Copy, Debug, PartialEq, Eq)]
pub enum What {
    /// Shared names: at most [`MOST_SHARED`].
    Shared,
    /// Functions: at most [`MOST_FUNCTIONS`].
    Functions,
    /// Tasks: at most [`MOST_TASKS`].
    Tasks,
    /// Parameters of one function: at most [`MOST_PARAMETERS`].
    Parameters,
    /// Arguments of one call, the target of `new` not counted: at most 16.
    Arguments,
    /// Locals of one function or task, which are its parameters and its `let` and `catch` names: at most 256.
    Locals,
    /// Sites: at most [`MOST_SITES`].
    Sites,
    /// Distinct binders: at most [`MOST_BINDERS`].
    Binders,
}

/// The most shared names of a script.
pub const MOST_SHARED: usize = 64;

/// The most functions of a script.
pub const MOST_FUNCTIONS: usize = 256;

/// The most tasks of a script.
pub const MOST_TASKS: usize = 8;

/// The most parameters of a function.
pub const MOST_PARAMETERS: usize = 16;

/// The most sites of a script.
pub const MOST_SITES: usize = 4096;

/// The most distinct binders of a script.
pub const MOST_BINDERS: usize = 1024;

/// The first of the shared names, functions, tasks and parameters of which there are too many.
#[tactic(auto, using(crate::proofs::Turns::within_declared, crate::proofs::Turns::shared_above, crate::proofs::Turns::functions_above, crate::proofs::Turns::tasks_above, crate::proofs::Turns::parameters_above))]
pub(crate) fn declared_too_many(script: &Script) -> Option<What>
    ensures { MatchOption result (IsWithinBefore script.now 4) (λ w. IsTooMany script.now w) }
{
    if script.shared.len() > MOST_SHARED {
        return Some(What::Shared);
    }
    if script.functions.len() > MOST_FUNCTIONS {
        return Some(What::Functions);
    }
    if script.tasks.len() > MOST_TASKS {
        return Some(What::Tasks);
    }
    if !have_few_parameters(script.functions.as_slice()) {
        return Some(What::Parameters);
    }
    None
}

/// Whether no function has more parameters than it may.
fn have_few_parameters(functions: &[Function]) -> bool
    ensures { result ≡ list_all has_few_parameters functions.now }
{
    functions
        .iter()
        .all(|function| function.params.len() <= MOST_PARAMETERS)
}
