ghost use Rattle.std.specs.Prelude.{◌≡◌, [], map, IfOk, string_bytes};
ghost use Rattle.dlr_run.specs.HandedOn.{handed_on};

use dyn_value::DynText;
use std::alloc::{AllocError, Global};
use std::env;
use std::env::Env;
use std::io::ErrorKind;

/// The words after the program's name, as they are handed on. Where they cannot be had, as where one of them
/// is not UTF-8, one empty word stands for them: no command accepts it.
///
/// Want of memory is the one error.
pub fn after_name<R: Env + AllocGlobal>(rt: &R) -> Result<Vec<DynText>, AllocError> {
    let alloc = rt.alloc();
    match env::args(rt) {
        Ok(args) => {
            let args: Vec<String> = args.skip(1).collect(alloc)?;
            texts(alloc, args.as_slice())
        }
        Err(error) if error.kind() == ErrorKind::OutOfMemory => Err(AllocError),
        Err(_) => {
            let mut words = Vec::new(alloc);
            words.push(empty(alloc)?)?;
            Ok(words)
        }
    }
}

fn texts(alloc: Global, args: &[String]) -> Result<Vec<DynText>, AllocError>
    ensures { IfOk result (λ words. words.items ≡ map (λ arg. handed_on (string_bytes arg)) args.now) }
{
    let mut words = Vec::new(alloc);
    for arg in args {
        words.push(text(alloc, arg.as_str())?)?;
    }
    Ok(words)
}

fn text(alloc: Global, arg: &str) -> Result<DynText, AllocError>
    ensures { IfOk result (λ word. word ≡ handed_on arg.now) }
{
    match DynText::from_str(alloc, arg)? {
        Some(word) => Ok(word),
        None => empty(alloc),
    }
}

fn empty(alloc: Global) -> Result<DynText, AllocError>
    ensures { IfOk result (λ word. word ≡ []) }
{
    match DynText::from_str(alloc, "")? {
        Some(word) => Ok(word),
        None => unreachable!(),
    }
}
