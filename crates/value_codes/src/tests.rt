//! What no clause says: that calls succeed where memory is ample. Expected codes are worked out by hand.

use crate::{Book, GiveFault};
use qtl_syntax::Text;
use std::alloc::{AllocError, Global};
use std::test::Fail;

/// What a text without a code is given, and `None` for one that has a code.
fn give(
    alloc: Global,
    book: &mut Book,
    name: &str,
) -> Result<Option<Result<u32, GiveFault>>, AllocError> {
    let value = Text::from_bytes(alloc, name.as_bytes())?;
    if book.code_of(&value).is_some() {
        return Ok(None);
    }
    Ok(Some(book.give(value)))
}

/// Whether a code was given and was taken back.
fn release(book: &mut Book, code: u32) -> bool {
    if book.value_of(code).is_none() {
        return false;
    }
    book.release(code);
    true
}

#[test]
fn a_full_book_gives_the_code_that_comes_back(rt: HostRuntime) -> Result<(), Fail> {
    let alloc = rt.alloc();
    let mut book = Book::open(alloc, 1)?;
    assert_eq!(rt; give(alloc, &mut book, "a")?, Some(Ok(0)));
    assert_eq!(rt;
        give(alloc, &mut book, "b")?,
        Some(Err(GiveFault::NoFreeCode))
    );
    assert!(rt; release(&mut book, 0));
    assert_eq!(rt; give(alloc, &mut book, "b")?, Some(Ok(0)));
    assert_eq!(rt; book.code_of(&Text::from_bytes(alloc, b"a")?), None);
    assert_eq!(rt; book.code_of(&Text::from_bytes(alloc, b"b")?), Some(0));
    Ok(())
}

#[test]
fn pairs_stand_by_their_texts(rt: HostRuntime) -> Result<(), Fail> {
    let alloc = rt.alloc();
    let mut book = Book::open(alloc, 2)?;
    give(alloc, &mut book, "b")?;
    give(alloc, &mut book, "a")?;
    assert_eq!(rt; book.free_count(), 1);
    let pairs = book.pairs_by_value()?;
    match pairs.as_slice() {
        [first, second] => {
            assert_eq!(rt; (first.value.bytes(), first.code), (b"a".as_slice(), 1));
            assert_eq!(rt; (second.value.bytes(), second.code), (b"b".as_slice(), 0));
        }
        _ => assert_eq!(rt; pairs.len(), 2),
    }
    Ok(())
}

#[test]
fn codes_come_back_least_first(rt: HostRuntime) -> Result<(), Fail> {
    let alloc = rt.alloc();
    let mut book = Book::open(alloc, 2)?;
    for (name, code) in [("a", 0), ("b", 1), ("c", 2)] {
        assert_eq!(rt; give(alloc, &mut book, name)?, Some(Ok(code)), "{name}");
    }
    assert!(rt; release(&mut book, 1) && release(&mut book, 0));
    assert_eq!(rt; book.value_of(2).map(Text::bytes), Some(b"c".as_slice()));
    for (name, code) in [("d", 0), ("a", 1)] {
        assert_eq!(rt; give(alloc, &mut book, name)?, Some(Ok(code)), "{name}");
    }
    Ok(())
}
