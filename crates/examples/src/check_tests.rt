use checker::check;
use grammar::read::{read, sheet};
use grammar::tree::Node;
use language::bindings::Binding;
use language::spans::Span;
use pantry::no_items;
use rules::faults::CheckFault;
use std::test;
use typing::types::{Slot, TypeEntry};

// The number and the place of the refusal of a sheet of at most 32 nodes, with tables of 16 types and 8 names.
fn refused(text: &[u8]) -> Option<(u8, u16)> {
    let mut tree = [Node::Blank; 32];
    let close = read(text, &mut tree).ok()?;
    let mut types = [TypeEntry::Blank; 16];
    let mut slots = [Slot::Blank; 8];
    let fault = check(
        sheet(text, &tree, close),
        &no_items(),
        &mut types,
        &mut slots,
    )
    .err()?;
    Some((fault.number(), fault.place()))
}

#[test]
fn each_refusal_has_its_place(rt: HostRuntime) {
    assert_eq!(rt;
        refused(b"module m interface [x : int x : int] body [] 1"),
        Some((8, 28))
    );
    assert_eq!(rt; refused(b"let x = y in x"), Some((9, 8)));
    assert_eq!(rt; refused(b"proc (x : t) x"), Some((10, 10)));
    assert_eq!(rt; refused(b"if 1 then 2 else 3"), Some((11, 3)));
    assert_eq!(rt; refused(b"(1 2)"), Some((12, 1)));
    assert_eq!(rt;
        refused(b"module m interface [x : int] body [] 1"),
        Some((13, 20))
    );
    assert_eq!(rt;
        refused(b"module m interface [x : int] body [x = true] 1"),
        Some((14, 20))
    );
}

#[test]
fn the_first_in_the_order_of_checks_counts(rt: HostRuntime) {
    assert_eq!(rt; refused(b"if 1 then 2 else z"), Some((9, 17)));
    assert_eq!(rt;
        refused(b"letrec int f (x : int) = true in z"),
        Some((11, 25))
    );
    assert_eq!(rt;
        refused(b"module m interface [x : int y : t] body [] 1"),
        Some((10, 32))
    );
}

#[test]
fn a_refusal_leaves_blank_tables(rt: HostRuntime) -> Result<(), test::Fail> {
    let text = b"let x = 1 in +(x,true)";
    let mut tree = [Node::Blank; 8];
    let close = read(text, &mut tree).ok().ok_or("not read")?;
    let mut types = [TypeEntry::Bool; 6];
    let mut slots = [Slot::OfType(Binding {
        name: Span { place: 0, len: 1 },
        value: 1,
        outer: 0,
    }); 2];
    let answer = check(
        sheet(text, &tree, close),
        &no_items(),
        &mut types,
        &mut slots,
    );
    assert_eq!(rt; answer, Err(CheckFault::Unwanted(17)));
    assert_eq!(rt; types, [TypeEntry::Blank; 6]);
    assert_eq!(rt; slots, [Slot::Blank; 2]);
    Ok(())
}

#[test]
fn a_pass_leaves_the_types_and_the_declarations(rt: HostRuntime) -> Result<(), test::Fail> {
    let text = b"module m interface [x : int] body [x = let y = 1 in y] from m take x";
    let mut tree = [Node::Blank; 16];
    let close = read(text, &mut tree).ok().ok_or("not read")?;
    let mut types = [TypeEntry::Blank; 6];
    let mut slots = [Slot::Blank; 4];
    let answer = check(
        sheet(text, &tree, close),
        &no_items(),
        &mut types,
        &mut slots,
    );
    assert_eq!(rt; answer, Ok(0));
    assert!(rt; matches!(types[3], TypeEntry::Arrow { .. }));
    assert_eq!(rt; types[4], TypeEntry::Blank);
    assert!(rt; matches!(slots[0], Slot::OfValue(_)));
    assert_eq!(rt; slots[1], Slot::Blank);
    Ok(())
}
