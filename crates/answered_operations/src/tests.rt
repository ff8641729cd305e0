//! What no clause says: that a list is made and grows when it runs. What stands in it is in the helper's clause.
ghost use Rattle.std.specs.Prelude.{◌≡◌, [], ◌∷◌, true, IfOk};
ghost use Rattle.dyn_value.specs.declared.value.Value.TheVariants.{Bool, Nil, Obj};
ghost use Rattle.answered_operations.specs.Operations.{operations_of};

use crate::Answered;
use dyn_value::Value;
use std::alloc::{AllocError, Global};
use std::test::Fail;

// Three operations: on two operands, on one, and on none at the first one's site.
fn three_operations(alloc: Global) -> Result<Answered, AllocError>
    ensures { IfOk result (λ answered. operations_of answered
        ≡ record { site = 7; operands = Obj 2 ∷ Bool true ∷ [] }
        ∷ record { site = 3; operands = Nil ∷ [] }
        ∷ record { site = 7; operands = [] } ∷ []) }
{
    let mut answered = Answered::new(alloc)?;
    answered.add(7, &[Value::Obj(2), Value::Bool(true)]);
    answered.add(3, &[Value::Nil]);
    answered.add(7, &[]);
    Ok(answered)
}

#[test]
fn a_list_grows_by_operations(rt: HostRuntime) -> Result<(), Fail> {
    let _answered = three_operations(rt.alloc())?;
    Ok(())
}
