ghost use Rattle.std.specs.Prelude.{◌≡◌, IfOk};
ghost use Rattle.dyn_value.specs.Proper.{IsText};
ghost use Rattle.dyn_value.specs.Texts.{fault_text};
ghost use Rattle.task_code.specs.Acts.{is_caught};
ghost use Rattle.task_walk.specs.Tales.{IsProperFault};

use dyn_value::{DynText, Fault};
use std::alloc::{AllocError, Global};

/// Whether `try` catches a fault: every one but `Turns` and `Depth`.
pub fn catches(fault: &Fault) -> bool
    ensures { result ≡ is_caught fault.now }
{
    !matches!(fault, Fault::Turns | Fault::Depth)
}

/// The text of a fault whose names are short. The one error is want of memory.
pub fn text_of(alloc: Global, fault: &Fault) -> Result<DynText, AllocError>
    requires { IsProperFault fault.now }
    ensures text { IfOk result (λ t. t ≡ fault_text fault.now) }
    ensures proper { IfOk result IsText }
{
    let mut bytes = Vec::new(alloc);
    fault.print_to(&mut bytes)?;
    match std::str::from_utf8(bytes.as_slice()) {
        Ok(text) => match DynText::from_str(alloc, text)? {
            Some(text) => Ok(text),
            None => unreachable!(),
        },
        Err(_) => unreachable!(),
    }
}
