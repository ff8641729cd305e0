//! Which words are a command, and what they ask for.
use super::*;
use dyn_value::DynText;
use std::alloc::{AllocError, Global};
use std::test::Fail;

// What these words ask for, which stand with a space between them.
fn asked(alloc: Global, line: &str) -> Result<Option<Command>, AllocError> {
    let mut words = Vec::new(alloc);
    for word in line.split(' ') {
        if let Some(text) = DynText::from_str(alloc, word)? {
            words.push(text)?;
        }
    }
    match read_words(alloc, words.as_slice()) {
        Ok(command) => Ok(Some(command)),
        Err(WordsRefused::Bad) => Ok(None),
        Err(WordsRefused::Memory) => Err(AllocError),
    }
}

// The words ask for a run with these options.
fn runs(
    alloc: Global,
    line: &str,
    serial: bool,
    journal: bool,
    turns: u32,
    objects: u32,
) -> Result<bool, AllocError> {
    Ok(match asked(alloc, line)? {
        Some(Command::Run(options)) => {
            options.serial == serial
                && options.journal == journal
                && options.turns == turns
                && options.objects == objects
        }
        Some(Command::Check) | None => false,
    })
}

#[test]
fn options_are_read_in_any_order(rt: HostRuntime) -> Result<(), Fail> {
    let alloc = rt.alloc();
    assert!(rt; runs(alloc, "run", false, false, 100_000, 4032)?);
    assert!(rt; runs(alloc, "run --serial", true, false, 100_000, 4032)?);
    assert!(rt; runs(alloc, "run --journal --serial", true, true, 100_000, 4032)?);
    assert!(rt; runs(alloc, "run --turns 5 --journal", false, true, 5, 4032)?);
    assert!(rt;
        runs(
            alloc,
            "run --objects=7 --serial --turns=1",
            true,
            false,
            1,
            7
        )?
    );
    Ok(())
}

#[test]
fn numbers_are_read_up_to_their_limits(rt: HostRuntime) -> Result<(), Fail> {
    let alloc = rt.alloc();
    assert!(rt;
        runs(
            alloc,
            "run --turns 1000000 --objects 4032",
            false,
            false,
            1_000_000,
            4032
        )?
    );
    assert!(rt;
        runs(
            alloc,
            "run --turns=0000000001 --objects 0",
            false,
            false,
            1,
            0
        )?
    );
    for line in [
        "run --turns 0",
        "run --turns 1000001",
        "run --turns 9999999999",
        "run --turns 00000000001",
        "run --objects 4033",
        "run --turns +5",
        "run --turns -5",
        "run --turns 5a",
        "run --turns=",
        "run --turns=5=",
        "run --turns",
        "run --turns --serial",
    ] {
        assert!(rt; asked(alloc, line)?.is_none());
    }
    Ok(())
}

#[test]
fn other_words_are_no_command(rt: HostRuntime) -> Result<(), Fail> {
    let alloc = rt.alloc();
    assert!(rt; matches!(asked(alloc, "check")?, Some(Command::Check)));
    assert!(rt; matches!(read_words(alloc, &[]), Err(WordsRefused::Bad)));
    for line in [
        "go",
        "Run",
        "check run",
        "check --serial",
        "run run",
        "run --",
        "run --serial --serial",
        "run --journal --serial --journal",
        "run --turns 5 --turns 5",
        "run --objects=5 --objects 5",
        "run --seri",
        "run --serial=1",
        "run --help",
        "run -h",
        "run --version",
        "run 5",
        "run ",
        "--serial run",
        "run --stats",
        "run --rules",
        "drill 1",
    ] {
        assert!(rt; asked(alloc, line)?.is_none());
    }
    Ok(())
}
