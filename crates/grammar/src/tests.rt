use crate::read::{read, sheet};
use crate::tree::{ExpNode, Node};

// The place of the closing expression that a table of so many places, at most 64, takes, or the number and the place of the refusal.
fn answer(text: &[u8], places: usize) -> Result<u16, (u8, usize)> {
    let mut table = [Node::Blank; 64];
    read(text, &mut table[..places.min(64)]).map_err(|fault| (fault.number(), fault.place()))
}

#[test]
fn words_faults_come_first(rt: HostRuntime) {
    assert_eq!(rt; answer(b"+(1,12a)", 64), Err((2, 6)));
    assert_eq!(rt; answer(b"let seventeen-letters = 1 in 2", 64), Err((3, 4)));
    assert_eq!(rt; answer(b"(f -2000000001)", 64), Err((4, 3)));
    assert_eq!(rt; answer(b"+(1 2,12a)", 64), Err((5, 4)));
}

#[test]
fn unexpected_words_and_the_end(rt: HostRuntime) {
    assert_eq!(rt; answer(b"", 64), Err((5, 0)));
    assert_eq!(rt; answer(b" % x", 64), Err((5, 4)));
    assert_eq!(rt; answer(b"let in = 1 in 2", 64), Err((5, 4)));
    assert_eq!(rt; answer(b"if 1 else 2 then 3", 64), Err((5, 5)));
    assert_eq!(rt; answer(b"1 2", 64), Err((5, 2)));
    assert_eq!(rt; answer(b"module m interface [module", 64), Err((5, 20)));
}

#[test]
fn nests_48_levels(rt: HostRuntime) {
    assert_eq!(rt;
        answer(
            b"zero?(zero?(zero?(zero?(zero?(zero?(zero?(zero?(zero?(zero?(zero?(zero?(zero?(zero?(zero?(zero?(zero?(zero?(zero?(zero?(zero?(zero?(zero?(zero?(zero?(zero?(zero?(zero?(zero?(zero?(zero?(zero?(zero?(zero?(zero?(zero?(zero?(zero?(zero?(zero?(zero?(zero?(zero?(zero?(zero?(zero?(zero?(1)))))))))))))))))))))))))))))))))))))))))))))))",
            64
        ),
        Ok(47)
    );
    assert_eq!(rt;
        answer(
            b"zero?(zero?(zero?(zero?(zero?(zero?(zero?(zero?(zero?(zero?(zero?(zero?(zero?(zero?(zero?(zero?(zero?(zero?(zero?(zero?(zero?(zero?(zero?(zero?(zero?(zero?(zero?(zero?(zero?(zero?(zero?(zero?(zero?(zero?(zero?(zero?(zero?(zero?(zero?(zero?(zero?(zero?(zero?(zero?(zero?(zero?(zero?(zero?(1",
            64
        ),
        Err((6, 288))
    );
    assert_eq!(rt;
        answer(
            b"zero?(zero?(zero?(zero?(zero?(zero?(zero?(zero?(zero?(zero?(zero?(zero?(zero?(zero?(zero?(zero?(zero?(zero?(zero?(zero?(zero?(zero?(zero?(zero?(zero?(zero?(zero?(zero?(zero?(zero?(zero?(zero?(zero?(zero?(zero?(zero?(zero?(zero?(zero?(zero?(zero?(zero?(zero?(zero?(zero?(zero?(zero?(zero?()",
            64
        ),
        Err((5, 288))
    );
}

#[test]
fn takes_32_modules(rt: HostRuntime) {
    assert_eq!(rt;
        answer(
            b"module m interface [] body [] module m interface [] body [] module m interface [] body [] module m interface [] body [] module m interface [] body [] module m interface [] body [] module m interface [] body [] module m interface [] body [] module m interface [] body [] module m interface [] body [] module m interface [] body [] module m interface [] body [] module m interface [] body [] module m interface [] body [] module m interface [] body [] module m interface [] body [] module m interface [] body [] module m interface [] body [] module m interface [] body [] module m interface [] body [] module m interface [] body [] module m interface [] body [] module m interface [] body [] module m interface [] body [] module m interface [] body [] module m interface [] body [] module m interface [] body [] module m interface [] body [] module m interface [] body [] module m interface [] body [] module m interface [] body [] module m interface [] body [] 1",
            64
        ),
        Ok(32)
    );
    assert_eq!(rt;
        answer(
            b"module m interface [] body [] module m interface [] body [] module m interface [] body [] module m interface [] body [] module m interface [] body [] module m interface [] body [] module m interface [] body [] module m interface [] body [] module m interface [] body [] module m interface [] body [] module m interface [] body [] module m interface [] body [] module m interface [] body [] module m interface [] body [] module m interface [] body [] module m interface [] body [] module m interface [] body [] module m interface [] body [] module m interface [] body [] module m interface [] body [] module m interface [] body [] module m interface [] body [] module m interface [] body [] module m interface [] body [] module m interface [] body [] module m interface [] body [] module m interface [] body [] module m interface [] body [] module m interface [] body [] module m interface [] body [] module m interface [] body [] module m interface [] body [] module",
            64
        ),
        Err((7, 960))
    );
}

#[test]
fn tables_of_few_places(rt: HostRuntime) {
    assert_eq!(rt; answer(b"1 2", 0), Err((21, 0)));
    assert_eq!(rt; answer(b"+(1,true)", 1), Err((21, 4)));
    assert_eq!(rt; answer(b"+(1,true)", 2), Err((21, 0)));
    assert_eq!(rt; answer(b"+(1,true)", 3), Ok(2));
}

#[test]
fn a_refusal_leaves_blanks(rt: HostRuntime) {
    let mut table = [Node::Expression(ExpNode::Number { at: 7, value: 7 }); 3];
    assert!(rt; read(b"+(1,", &mut table).is_err());
    assert!(rt; matches!(table, [Node::Blank, Node::Blank, Node::Blank]));
}

#[test]
fn makes_a_read_sheet(rt: HostRuntime) {
    let mut table = [Node::Blank; 4];
    let text = b"-(7,x)";
    let count = match read(text, &mut table) {
        Ok(close) => sheet(text, &table, close).tree.len(),
        Err(_) => 0,
    };
    assert_eq!(rt; count, 3);
}
