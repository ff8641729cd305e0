use super::NameSet;
use dyn_value::DynText;
use std::alloc::Global;
use std::test::Fail;

fn numbered(alloc: Global, number: u32) -> Result<DynText, Fail> {
    let characters = format!(in alloc; "name{number}")?;
    Ok(DynText::from_str(alloc, characters.as_str())?.ok_or("too long")?)
}

#[test]
fn names_that_are_gone_are_not_found(rt: HostRuntime) -> Result<(), Fail> {
    let alloc = rt.alloc();
    let first = numbered(alloc, 1)?;
    let second = numbered(alloc, 2)?;
    let mut names = NameSet::new(alloc);
    names.push(&first)?;
    names.push(&second)?;
    names.push(&first)?;
    names.truncate(1);
    assert!(rt; names.contains(&first));
    assert!(rt; !names.contains(&second));
    names.push(&first)?;
    assert!(rt; !names.contains(&second));
    names.truncate(0);
    assert!(rt; !names.contains(&first));
    names.push(&second)?;
    assert!(rt; names.contains(&second));
    assert!(rt; !names.contains(&first));
    assert!(rt; names.len() == 1);
    Ok(())
}

#[test]
fn thousands_of_names(rt: HostRuntime) -> Result<(), Fail> {
    let alloc = rt.alloc();
    let mut names = NameSet::new(alloc);
    for number in 0..5000 {
        let name = numbered(alloc, number)?;
        assert!(rt; !names.contains(&name), "{number} before");
        names.push(&name)?;
        assert!(rt; names.contains(&name), "{number} after");
    }
    names.truncate(2500);
    assert!(rt; names.contains(&numbered(alloc, 2499)?));
    assert!(rt; !names.contains(&numbered(alloc, 2500)?));
    Ok(())
}
