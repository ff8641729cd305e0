ghost use Rattle.std.specs.Prelude.{IfErr, IfOk, IfSome, OnOk};
ghost use Rattle.script_program.specs.Programs.{script_of};
ghost use Rattle.script_program.specs.Scripts.{IsScript};
ghost use Rattle.byte_devices.specs.Devices.{IsReadThrough};
ghost use Rattle.dlr_top.specs.Loads.{FailsToLoad};

use byte_devices::{Source, Unread, read_all};
use script_program::{Program, ReadFault, ScriptRefused, read, scripts_are_not_refused};
use std::alloc::Global;

/// Why a source gave no program.
#[derive(Clone, Copy, Debug, PartialEq, Eq)]
pub(crate) enum Unloaded {
    /// The source failed.
    SourceFailed,
    /// What the source held is no script, for this cause.
    Refused(ScriptRefused),
    /// Memory was refused.
    Memory,
}

/// The program of the script that the source holds.
pub(crate) fn load<S: Source>(alloc: Global, source: &mut S) -> Result<Program, Unloaded>
    ensures found { IfOk result (λ p. IfSome (S.held source.old) (λ bytes. IsScript bytes (script_of p))) }
    ensures through { OnOk result (IsReadThrough (S.held source.old) (S.held source.new)) }
    ensures cause { IfErr result (FailsToLoad (S.held source.old) (S.held source.new) (S.faults source.old)
        (S.faults source.new)) }
{
    let bytes = match read_all(alloc, source) {
        Ok(bytes) => bytes,
        Err(Unread::SourceFailed) => return Err(Unloaded::SourceFailed),
        Err(Unread::Memory) => return Err(Unloaded::Memory),
    };
    match read(alloc, bytes.as_slice()) {
        Ok(program) => Ok(program),
        Err(ReadFault::Refused(refused)) => {
            scripts_are_not_refused();
            Err(Unloaded::Refused(refused))
        }
        Err(ReadFault::Memory) => Err(Unloaded::Memory),
    }
}
