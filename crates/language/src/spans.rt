ghost use Rattle.std.specs.Prelude.{◌≡◌};
ghost use Rattle.language.specs.Bindings.{spelled_in};

// The part of the text that spells a name.
#[derive(Clone, Copy, Debug, Default, PartialEq, Eq)]
pub struct Span {
    pub place: u16,
    pub len: u16,
}

// The bytes of the name that the span spells, cut short where the text ends.
pub fn spelled(text: &[u8], span: Span) -> &[u8]
    ensures { result.now ≡ spelled_in text.now span }
{
    let rest = text.get(usize::from(span.place)..).unwrap_or(&[]);
    rest.get(..usize::from(span.len)).unwrap_or(rest)
}
