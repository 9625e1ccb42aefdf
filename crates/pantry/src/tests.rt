use crate::entries::Answer;
use crate::factors::factor_pantry;
use crate::loading::{EMPTY_FILE, item_pantry, load, no_items};
use crate::pantries::Pantry;
use std::alloc::{AllocError, Global};
use std::test::Fail;

// number and place of the fault
fn refusal(file: &[u8]) -> Option<(u8, usize)> {
    let fault = load(file).err()?;
    Some((fault.number(), fault.place()))
}

// a file of as many records, with the items 0, 1 and so on
fn long_file(heap: Global, count: u16) -> Result<Vec<u8>, AllocError> {
    let mut file = b"NUT\x00\x01".to_vec(heap)?;
    file.extend_from_slice(&count.to_be_bytes())?;
    for item in 0..count {
        file.extend_from_slice(&item.to_be_bytes())?;
        file.extend_from_slice(b"\x00\x00\x00\x05\x00")?;
    }
    Ok(file)
}

#[test]
fn judges_headers(rt: HostRuntime) {
    assert_eq!(rt; refusal(EMPTY_FILE), None);
    assert_eq!(rt; refusal(b""), Some((16, 0)));
    assert_eq!(rt; refusal(b"NUT\x00\x01\x00"), Some((16, 0)));
    assert_eq!(rt; refusal(b"NUT\x00\x01\x00\x00\x00"), Some((16, 0)));
    assert_eq!(rt; refusal(b"NUT\x00\x02\x00\x00"), Some((16, 0)));
    assert_eq!(rt; refusal(b"NUt\x00\x01\x00\x00"), Some((16, 0)));
    assert_eq!(rt;
        refusal(b"NUT\x00\x01\x00\x01\x00\x07\x00\x00\x00\x00"),
        Some((16, 0))
    );
}

#[test]
fn judges_records(rt: HostRuntime) {
    let limit = b"NUT\x00\x01\x00\x01\x00\x07\x77\x35\x94\x00\x01";
    assert_eq!(rt; refusal(limit), None);
    let over = b"NUT\x00\x01\x00\x01\x00\x07\x77\x35\x94\x01\x01";
    assert_eq!(rt; refusal(over), Some((17, 7)));
    let flag = b"NUT\x00\x01\x00\x01\x00\x07\x00\x00\x00\x00\x02";
    assert_eq!(rt; refusal(flag), Some((17, 7)));
    let twice = b"NUT\x00\x01\x00\x02\x00\x07\x00\x00\x00\x01\x00\x00\x07\x00\x00\x00\x02\x00";
    assert_eq!(rt; refusal(twice), Some((17, 14)));
}

#[test]
fn judges_long_files(rt: HostRuntime) -> Result<(), Fail> {
    let most = long_file(rt.alloc(), 1000)?;
    assert_eq!(rt; refusal(most.as_slice()), None);
    let more = long_file(rt.alloc(), 1001)?;
    assert_eq!(rt; refusal(more.as_slice()), Some((16, 0)));
    Ok(())
}

#[test]
fn fetches_records(rt: HostRuntime) {
    let file = b"NUT\x00\x01\x00\x02\x01\x02\x00\x00\x01\xf4\x01\xff\xff\x77\x35\x94\x00\x00";
    let Ok(()) = load(file) else {
        panic!(rt; "a lawful file is refused");
    };
    let pantry = item_pantry(file);
    assert_eq!(rt; pantry.fetch(0, 258), Some(Answer::Number(500)));
    assert_eq!(rt; pantry.fetch(1, 258), Some(Answer::Truth(true)));
    assert_eq!(rt; pantry.fetch(0, 65535), Some(Answer::Number(2_000_000_000)));
    assert_eq!(rt; pantry.fetch(1, 65535), Some(Answer::Truth(false)));
    assert_eq!(rt; pantry.fetch(2, -9), Some(Answer::Number(2)));
    assert_eq!(rt; pantry.fetch(0, 7), None);
    assert_eq!(rt; pantry.fetch(0, -1), None);
    assert_eq!(rt; pantry.fetch(3, 0), None);
}

#[test]
fn fetches_nothing_without_records(rt: HostRuntime) {
    let pantry = no_items();
    assert_eq!(rt; pantry.fetch(0, 0), None);
    assert_eq!(rt; pantry.fetch(2, 0), Some(Answer::Number(0)));
}

#[test]
fn multiplies_by_factors(rt: HostRuntime) {
    let pantry = factor_pantry();
    assert_eq!(rt; pantry.fetch(0, 125), Some(Answer::Number(1125)));
    assert_eq!(rt;
        pantry.fetch(4, 1_000_000_000),
        Some(Answer::Number(2_000_000_000))
    );
    assert_eq!(rt; pantry.fetch(4, 1_000_000_001), None);
    assert_eq!(rt; pantry.fetch(3, -1), None);
}
