ghost use Rattle.std.specs.Prelude.{◌≡◌};
ghost use Rattle.words.specs.Names.{same_name, is_keyword};

use crate::keywords::keyword_of;

// Whether two names are the same. A function and not `==`, since the rule of sameness is stated here.
pub fn same_name(a: &[u8], b: &[u8]) -> bool
    ensures { result ≡ same_name a.now b.now }
{
    a == b
}

// Whether some bytes spell a keyword.
pub fn is_keyword(name: &[u8]) -> bool
    ensures { result ≡ is_keyword name.now }
{
    keyword_of(name).is_some()
}
