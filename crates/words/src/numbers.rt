ghost use Rattle.std.specs.Prelude.{◌≡◌};
ghost use Rattle.words.specs.Words.{size_within, figure_within};

// A number is at most so large in size.
const LARGEST: u64 = 2_000_000_000;

// The number that digits stand for, if it is at most 2,000,000,000: a limit below the type's, so it is tested.
pub(crate) fn magnitude(digits: &[u8]) -> Option<u32>
    ensures { result ≡ size_within digits.now }
{
    let mut size: u64 = 0;
    for &digit in digits {
        size = size * 10 + u64::from(digit.saturating_sub(b'0'));
        if size > LARGEST {
            return None;
        }
    }
    Some(size as u32)
}

// The number that the bytes of a number word stand for, if it is at most 2,000,000,000 in size.
pub fn figure(word: &[u8]) -> Option<i32>
    ensures { result ≡ figure_within word.now }
{
    match word {
        [b'-', digits @ ..] => Some(-(magnitude(digits)? as i32)),
        digits => Some(magnitude(digits)? as i32),
    }
}
