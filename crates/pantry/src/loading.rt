ghost use Rattle.std.specs.Prelude.{◌≡◌, ◌<◌, [], map, length, IfSome, None};
ghost use Rattle.pantry.specs.File.{record_of, records_of, lawful_after, unlawful_in, fault, refused};
ghost use Rattle.pantry.specs.Format.{Judged, OneList, ServesFile, file_of};
ghost use Rattle.pantry.specs.Items.{item_pantry};

use crate::entries::MAX_FIGURE;
use crate::faults::LoadFault;
use crate::items::Items;
use crate::records::{Record, Row, find, rows};

// the item is new, and figure and flag are in range
fn is_lawful(earlier: &[Row], record: Record) -> bool
    ensures { result ≡ lawful_after (map record_of earlier.now) «record» }
{
    find(earlier, u32::from(record.item)).is_none() && record.kcal <= MAX_FIGURE && record.flag <= 1
}

// the number of the first unlawful record
fn first_unlawful(rows: &[Row]) -> Option<usize>
    ensures is { result ≡ unlawful_in [] (map record_of rows.now) }
    ensures within { IfSome result (λ k. k < length rows.now) }
{
    // Not by `position`: each row is held against the earlier ones.
    for (k, row) in rows.iter().enumerate() {
        if !is_lawful(&rows[..k], Record::from(*row)) {
            return Some(k);
        }
    }
    None
}

// Whether the bytes are a lawful item file, or the first fault in them.
pub fn load(file: &[u8]) -> Result<(), LoadFault>
    ensures is { refused result ≡ fault file.now }
    ensures judges { Judged file.now result }
    ensures one_list { OneList file.now }
{
    let rows = rows(file).ok_or(LoadFault::NoItemFile)?;
    // By a match: what is found is the fault.
    match first_unlawful(rows) {
        None => Ok(()),
        Some(k) => Err(LoadFault::BadRecord(7 + 7 * k)),
    }
}

// The pantry over a file that loading accepts.
pub fn item_pantry(file: &[u8]) -> Items<'_>
    requires { fault file.now ≡ None }
    ensures over { result.file.now ≡ file.now }
    ensures serves { ServesFile file.now (item_pantry (records_of result.file.now)) }
{
    Items { file }
}

// An item file with no records, for where there is none.
pub const EMPTY_FILE: &[u8; 7] = b"NUT\x00\x01\x00\x00";

// The pantry with no records.
pub fn no_items() -> Items<'static>
    ensures { result.file.now ≡ file_of [] }
{
    Items { file: EMPTY_FILE }
}
