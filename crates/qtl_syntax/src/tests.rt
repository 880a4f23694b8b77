//! Texts that were worked out by hand from the rules of the language.
use crate::{SpecFault, Text, Token, TokenEnd, is_first_spec, parse, print, tokens};
use std::alloc::{AllocError, Global};
use std::cmp::Ordering;
use std::test::Fail;

fn told(alloc: Global, what: &str, at: u64) -> Result<Vec<u8>, AllocError> {
    let line = format!(in alloc; "{what} {at}")?;
    line.as_bytes().to_vec(alloc)
}

/// The canonical text of what the text spells, or its fault.
fn answer(alloc: Global, text: &[u8]) -> Result<Vec<u8>, AllocError> {
    match parse(alloc, text) {
        Ok(spec) => print(alloc, &spec),
        Err(SpecFault::NotToken { at }) => told(alloc, "no token", at),
        Err(SpecFault::Syntax { at }) => told(alloc, "syntax", at),
        Err(SpecFault::TooDeep { at }) => told(alloc, "too deep", at),
        Err(SpecFault::BoundTooLarge { at }) => told(alloc, "bound too large", at),
        Err(SpecFault::NoMemory) => told(alloc, "no memory", 0),
    }
}

/// Rows of a text, `~`, and its canonical text or its fault; each row ends with `;`.
const ROWS: &str = "\
    ~;\
    \t\r\n// nothing\n~;\
    prop r:p~prop r : p\n;\
    prop r : p()~prop r : p\n;\
    prop r : true~prop r : true\n;\
    prop r : ((false))~prop r : false\n;\
    prop r : a -> b -> c~prop r : a -> (b -> c)\n;\
    prop r : (a -> b) -> c~prop r : (a -> b) -> c\n;\
    prop r : a <-> b <-> c~prop r : (a <-> b) <-> c\n;\
    prop r : a & b & c~prop r : (a & b) & c\n;\
    prop r : a | b | c~prop r : (a | b) | c\n;\
    prop r : a S b S c~prop r : (a S b) S c\n;\
    prop r : a S (b S c)~prop r : a S (b S c)\n;\
    prop r : a | b & c S d~prop r : a | (b & (c S d))\n;\
    prop r : a S b & c | d~prop r : ((a S b) & c) | d\n;\
    prop r : a -> b <-> c -> d~prop r : (a -> b) <-> (c -> d)\n;\
    prop r : a | b -> c & d~prop r : (a | b) -> (c & d)\n;\
    prop r : ! a & b~prop r : (! a) & b\n;\
    prop r : ! @ P H a~prop r : ! (@ (P (H a)))\n;\
    prop r : P(x)~prop r : P x\n;\
    prop r : H [a, b)~prop r : H [a,b)\n;\
    prop r : P[<=007] a~prop r : P[<=7] a\n;\
    prop r : P [ > 5 ] ! a~prop r : P[>5] (! a)\n;\
    prop r : H[<=1048574]a~prop r : H[<=1048574] a\n;\
    prop r : a S[>0] b~prop r : a S[>0] b\n;\
    prop r : a S[a, b)~prop r : a S [a,b)\n;\
    prop r : exists x . p(x) & q~prop r : exists x . p(x) & q\n;\
    prop r : (exists x . p(x)) & q~prop r : (exists x . p(x)) & q\n;\
    prop b : a & exists x . p(x) | q~prop b : a & (exists x . p(x) | q)\n;\
    prop r : ! exists x . p(x) S q~prop r : ! (exists x . p(x) S q)\n;\
    prop r : forall x . exists y . p(x, y)~prop r : forall x . exists y . p(x,y)\n;\
    prop r : [a -> b, c & d)~prop r : [a -> b,c & d)\n;\
    prop r : [a, b) & c~prop r : [a,b) & c\n;\
    prop r : p(x, \"a //b\", 07)~prop r : p(x,\"a //b\",\"07\")\n;\
    prop c : ! a & b S c(07)~prop c : (! a) & (b S c(\"07\"))\n;\
    pred m() = true~pred m() = true\n;\
    pred m(x, y) = p(x) prop r : m(1, 2)~pred m(x,y) = p(x)\nprop r : m(\"1\",\"2\")\n;\
    prop a : p prop a : q~prop a : p\nprop a : q\n;\
    prop props : Sx S Px~prop props : Sx S Px\n;\
    prop r : a // S b\n S c~prop r : a S c\n;\
    prop r : a//x~prop r : a\n;\
    prop access : forall u . access(u) -> [login(u),logout(u))~prop access : forall u . access(u) -> [login(u),logout(u))\n;\
    // one holder\npred held(t,l) = [acq(t,l),rel(t,l))\nprop single : forall l . ! exists t . acq(t,l) & @ exists s . held(s,l)~pred held(t,l) = [acq(t,l),rel(t,l))\nprop single : forall l . ! (exists t . acq(t,l) & (@ (exists s . held(s,l))))\n;\
    prop~syntax 1;\
    a~syntax 0;\
    prop r a~syntax 2;\
    prop r :~syntax 3;\
    prop r : a b~syntax 4;\
    prop r : a &~syntax 5;\
    prop r : a S~syntax 5;\
    prop exists : a~syntax 1;\
    prop S : a~syntax 1;\
    prop r : \"a\"~syntax 3;\
    prop r : p(a~syntax 6;\
    prop p : forall x . p(x~syntax 9;\
    prop r : p(,)~syntax 5;\
    prop r : p(x,)~syntax 7;\
    prop r : p(q(x))~syntax 6;\
    prop r : p(1a)~syntax 6;\
    prop r : [a, b]~syntax 7;\
    prop r : [a)~syntax 5;\
    prop r : a S [5] b~syntax 6;\
    prop r : P[<= x] a~syntax 6;\
    prop r : P[<=5 a~syntax 7;\
    prop r : ![<=5] a~syntax 5;\
    prop r : exists 5 . a~syntax 4;\
    prop r : exists x a~syntax 5;\
    prop r : (a~syntax 5;\
    prop r : a)~syntax 4;\
    pred m = a~syntax 2;\
    pred m(x y) = a~syntax 4;\
    pred m(\"x\") = a~syntax 3;\
    pred m() : a~syntax 4;\
    prop b : P[<=1048575] p~bound too large 6;\
    prop r : P[>01048575~bound too large 6;\
    prop r : P[<=5] ) & P[<=9999999] a~syntax 8;\
    prop r : a $ b~no token 11;\
    prop r : a - > b~no token 11;\
    a <b~no token 2;\
    a )) \"x~no token 5;\
";

#[test]
fn texts_are_parsed_and_printed(rt: HostRuntime) -> Result<(), Fail> {
    let mut count: u32 = 0;
    for row in ROWS.split(';') {
        if let Some((text, want)) = row.split_once('~') {
            let got = answer(rt.alloc(), text.as_bytes())?;
            assert_eq!(rt; got.as_slice(), want.as_bytes(), "{text}");
            count = count.wrapping_add(1);
        }
    }
    assert_eq!(rt; count, 80);
    Ok(())
}

#[test]
fn first_forms_are_told(rt: HostRuntime) -> Result<(), Fail> {
    for (text, want) in [
        ("prop r : (! stop(\"a\")) S go(7)", true),
        ("prop r : p", true),
        ("", false),
        ("prop r : p(x)", false),
        ("prop r : ! true", false),
        ("prop r : a S[<=5] b", false),
        ("prop r : a S (b & c)", false),
        ("prop r : a prop s : a", false),
        ("pred r() = a", false),
    ] {
        let told = parse(rt.alloc(), text.as_bytes()).map(|spec| is_first_spec(&spec));
        assert_eq!(rt; told, Ok(want), "{text}");
    }
    Ok(())
}

/// `prop t :`, so many times `!`, and `p`.
fn deep_text(alloc: Global, nots: u32) -> Result<Vec<u8>, AllocError> {
    let mut text = b"prop t :".to_vec(alloc)?;
    for _ in 0..nots {
        text.extend_from_slice(b"!")?;
    }
    text.extend_from_slice(b"p")?;
    Ok(text)
}

#[test]
fn formulas_are_at_most_256_high(rt: HostRuntime) -> Result<(), Fail> {
    for (nots, want) in [(255, None), (256, Some(SpecFault::TooDeep { at: 258 }))] {
        let text = deep_text(rt.alloc(), nots)?;
        assert_eq!(rt; parse(rt.alloc(), &text).err(), want, "{nots}");
    }
    Ok(())
}

#[test]
fn parentheses_of_a_printed_text_count(rt: HostRuntime) -> Result<(), Fail> {
    for (nots, want) in [(128, None), (129, Some(SpecFault::TooDeep { at: 258 }))] {
        let text = deep_text(rt.alloc(), nots)?;
        if let Ok(spec) = parse(rt.alloc(), &text) {
            let printed = print(rt.alloc(), &spec)?;
            assert_eq!(rt; parse(rt.alloc(), &printed).err(), want, "{nots}");
        }
    }
    Ok(())
}

#[test]
fn a_mebibyte_of_spaces_has_no_items(rt: HostRuntime) -> Result<(), Fail> {
    let text = vec![in rt.alloc(); b' '; 1_048_576]?;
    let items = parse(rt.alloc(), &text).map(|spec| spec.items.len());
    assert_eq!(rt; items, Ok(0));
    Ok(())
}

#[test]
fn texts_are_cut_into_tokens(rt: HostRuntime) -> Result<(), Fail> {
    for (text, want) in [
        ("a -", 2),
        ("p(\"x", 2),
        ("a <b", 2),
        ("\"a\nb\"", 0),
        ("/ /", 0),
    ] {
        let end = tokens(rt.alloc(), text.as_bytes()).err();
        assert_eq!(rt; end, Some(TokenEnd::NotToken { at: want }), "{text}");
    }
    let all = tokens(rt.alloc(), b"P<->07a")?;
    assert_eq!(rt; all.len(), 4);
    if let Some(Token::Name(name)) = all.get(3) {
        assert_eq!(rt; name.bytes(), b"a".as_slice());
    }
    Ok(())
}

#[test]
fn texts_are_ordered_by_their_bytes(rt: HostRuntime) -> Result<(), Fail> {
    for (a, b, want) in [
        ("a", "ab", Ordering::Less),
        ("b", "ab", Ordering::Greater),
        ("ab", "ab", Ordering::Equal),
    ] {
        let a = Text::from_bytes(rt.alloc(), a.as_bytes())?;
        let b = Text::from_bytes(rt.alloc(), b.as_bytes())?.copy()?;
        assert_eq!(rt; a.cmp(&b), want);
        assert_eq!(rt; a.is_same(&b), want == Ordering::Equal);
    }
    Ok(())
}
