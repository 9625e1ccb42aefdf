ghost use Rattle.std.specs.Prelude.{◌≡◌, true, false, map, MatchOption};
ghost use Rattle.pantry.specs.File.{record_of, records_of, first_with, header_ok};

// A record of an item file, its numbers as they stand there.
#[derive(Clone, Copy, Debug, PartialEq, Eq)]
pub struct Record {
    pub item: u16,
    pub kcal: u32,
    pub flag: u8,
}

// How many bytes stand before the first record.
pub(crate) const HEADER: usize = 7;

// The bytes of a record.
pub(crate) type Row = [u8; 7];

// the item of a row's record
fn item_of(row: Row) -> u16
    ensures { result ≡ (record_of row).item }
{
    u16::from_be_bytes([row[0], row[1]])
}

impl From<Row> for Record {
    ghost from_gives = { λ row r. r ≡ record_of row };

    fn from(row: Row) -> Record {
        let [_, _, k0, k1, k2, k3, flag] = row;
        Record {
            item: item_of(row),
            kcal: u32::from_be_bytes([k0, k1, k2, k3]),
            flag,
        }
    }
}

// the records, if letters, version, count and length are in order
pub(crate) fn rows(file: &[u8]) -> Option<&[Row]>
    ensures { MatchOption result (header_ok file.now ≡ false) (λ rows. (header_ok file.now ≡ true) × (map record_of rows.now ≡ records_of file.now)) }
{
    let [b'N', b'U', b'T', 0, 1, high, low, body @ ..] = file else {
        return None;
    };
    let count = usize::from(u16::from_be_bytes([*high, *low]));
    let (rows, rest) = body.as_chunks::<7>();
    if count > 1000 || rows.len() != count || !rest.is_empty() {
        return None;
    }
    Some(rows)
}

// the first record that has the item; of the other rows no more than the item is read
pub(crate) fn find(rows: &[Row], item: u32) -> Option<Record>
    ensures { result ≡ first_with item (map record_of rows.now) }
{
    rows.iter()
        .find(|row| u32::from(item_of(**row)) == item)
        .copied()
        .map(Record::from)
}
