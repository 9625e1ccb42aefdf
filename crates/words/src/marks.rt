ghost use Rattle.std.specs.Prelude.{◌≡◌};
ghost use Rattle.words.specs.Spelling.{mark_of};

#[derive(Clone, Copy, Debug, PartialEq, Eq)]
pub enum Mark {
    Open,
    Shut,
    Begin,
    End,
    Comma,
    Colon,
    Equal,
    Arrow,
    Plus,
    Minus,
    Times,
    Over,
}

// Which mark a single byte is; a dash is looked at apart, since an arrow or a number may begin there.
pub(crate) fn mark_of(b: u8) -> Option<Mark>
    ensures { result ≡ mark_of b }
{
    match char::from(b) {
        '(' => Some(Mark::Open),
        ')' => Some(Mark::Shut),
        '[' => Some(Mark::Begin),
        ']' => Some(Mark::End),
        ',' => Some(Mark::Comma),
        ':' => Some(Mark::Colon),
        '=' => Some(Mark::Equal),
        '+' => Some(Mark::Plus),
        '*' => Some(Mark::Times),
        '/' => Some(Mark::Over),
        _ => None,
    }
}
