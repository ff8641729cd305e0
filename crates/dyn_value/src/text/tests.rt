//! What no clause says: copies share their characters, so they take no memory; and texts are told apart in lists.
use crate::text::{DynText, are_distinct, is_among};
use std::alloc::Global;
use std::sync::ArcStr;
use std::test::Fail;

fn texts(alloc: Global, letters: &str) -> Result<Vec<DynText>, Fail> {
    let mut texts = Vec::new(alloc);
    for letter in letters.chars() {
        let mut characters = String::new(alloc);
        characters.push(letter)?;
        texts.push(DynText::from_str(alloc, characters.as_str())?.ok_or("long")?)?;
    }
    Ok(texts)
}

#[test]
fn copies_share_their_characters(rt: HostRuntime) -> Result<(), Fail> {
    let alloc = rt.alloc();
    let mut characters = String::new(alloc);
    for _ in 0..DynText::MOST_BYTES {
        characters.push('a')?;
    }
    let text = DynText::from_str(alloc, characters.as_str())?.ok_or("long")?;
    let mut copies = Vec::with_capacity(alloc, 1000)?;
    for held in 1..=1000usize {
        assert_eq!(rt; ArcStr::strong_count(&text.text), held);
        copies.push(text.copy()?)?;
    }
    for copy in &copies {
        assert!(rt; copy.same(&text));
    }
    drop(copies);
    assert_eq!(rt; ArcStr::strong_count(&text.text), 1);
    Ok(())
}

static LISTS: [(&str, bool); 7] = [
    ("", true),
    ("a", true),
    ("aa", false),
    ("aéb", true),
    ("éaé", false),
    ("abcdb", false),
    ("abcda", false),
];

#[test]
fn texts_in_lists(rt: HostRuntime) -> Result<(), Fail> {
    let alloc = rt.alloc();
    for &(letters, distinct) in &LISTS {
        let list = texts(alloc, letters)?;
        assert!(rt; are_distinct(list.as_slice()) == distinct, "{letters}");
        for text in &texts(alloc, "abéx")? {
            let among = letters.contains(text.as_str());
            assert!(rt; is_among(list.as_slice(), text) == among, "{letters}");
        }
    }
    Ok(())
}
