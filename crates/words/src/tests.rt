use crate::marks::Mark;
use crate::numbers::figure;
use crate::scanner::Cursor;
use crate::tallies::tally;
use crate::tokens::Token;
use std::test;

// The place and the length of a name that stands next.
fn name(cursor: &mut Cursor) -> Option<(usize, usize)> {
    match cursor.next() {
        Ok(Some(Token::Name(word))) => Some((word.place, word.text.len())),
        _ => None,
    }
}

fn mark(cursor: &mut Cursor) -> Option<Mark> {
    match cursor.next() {
        Ok(Some(Token::Sign(mark, _))) => Some(mark),
        _ => None,
    }
}

fn number(cursor: &mut Cursor) -> Option<i32> {
    match cursor.next() {
        Ok(Some(Token::Number(word))) => figure(word.text),
        _ => None,
    }
}

// The number and the place of a text's first fault.
fn fault(text: &[u8]) -> Option<(usize, usize)> {
    tally(text).err().map(|f| (f.number(), f.place()))
}

#[test]
fn a_dash_before_an_arrow_ends_a_name(rt: HostRuntime) {
    let mut cursor = Cursor::over(b"a-b->c-");
    assert_eq!(rt; name(&mut cursor), Some((0, 3)));
    assert_eq!(rt; mark(&mut cursor), Some(Mark::Arrow));
    assert_eq!(rt; name(&mut cursor), Some((5, 2)));
}

#[test]
fn a_dash_before_a_digit_is_a_sign(rt: HostRuntime) {
    let mut cursor = Cursor::over(b"5-3 % three\n--007");
    assert_eq!(rt; number(&mut cursor), Some(5));
    assert_eq!(rt; number(&mut cursor), Some(-3));
    assert_eq!(rt; mark(&mut cursor), Some(Mark::Minus));
    assert_eq!(rt; number(&mut cursor), Some(-7));
}

#[test]
fn faults_have_their_number_and_place(rt: HostRuntime) {
    assert_eq!(rt; fault(b"let a_b"), Some((2, 5)));
    assert_eq!(rt; fault(b" 2000000001x"), Some((2, 11)));
    assert_eq!(rt; fault(b" abcdefghijklmnopq"), Some((3, 1)));
    assert_eq!(rt; fault(b"-2000000000 -2000000001"), Some((4, 12)));
}

#[test]
fn a_text_is_at_most_so_long(rt: HostRuntime) {
    assert_eq!(rt; fault(&[b'\n'; 32_768]), None);
    assert_eq!(rt; fault(&[b'\n'; 32_769]), Some((1, 32_768)));
}
