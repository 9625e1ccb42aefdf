ghost use Rattle.std.specs.Prelude.{◌≡◌};
ghost use Rattle.words.specs.Spelling.{keyword_of};

#[derive(Clone, Copy, Debug, PartialEq, Eq)]
pub enum Keyword {
    Module,
    Interface,
    Body,
    Opaque,
    Transparent,
    Type,
    Int,
    Bool,
    From,
    Take,
    True,
    False,
    IsZero,
    Proc,
    Let,
    In,
    If,
    Then,
    Else,
    Letrec,
    Less,
}

// Which keyword a name is.
pub(crate) fn keyword_of(name: &[u8]) -> Option<Keyword>
    ensures { result ≡ keyword_of name.now }
{
    match name {
        b"module" => Some(Keyword::Module),
        b"interface" => Some(Keyword::Interface),
        b"body" => Some(Keyword::Body),
        b"opaque" => Some(Keyword::Opaque),
        b"transparent" => Some(Keyword::Transparent),
        b"type" => Some(Keyword::Type),
        b"int" => Some(Keyword::Int),
        b"bool" => Some(Keyword::Bool),
        b"from" => Some(Keyword::From),
        b"take" => Some(Keyword::Take),
        b"true" => Some(Keyword::True),
        b"false" => Some(Keyword::False),
        b"zero?" => Some(Keyword::IsZero),
        b"proc" => Some(Keyword::Proc),
        b"let" => Some(Keyword::Let),
        b"in" => Some(Keyword::In),
        b"if" => Some(Keyword::If),
        b"then" => Some(Keyword::Then),
        b"else" => Some(Keyword::Else),
        b"letrec" => Some(Keyword::Letrec),
        b"less?" => Some(Keyword::Less),
        _ => None,
    }
}
