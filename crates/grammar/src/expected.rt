ghost use Rattle.std.specs.Prelude.{◌≡◌};
ghost use Rattle.grammar.specs.Productions.{Single, «the», sign};
ghost use Rattle.grammar.specs.Steps.{is_word};

use crate::next::Next;
use words::{Keyword, Mark};

// The one word that may come next.
pub trait Expected: Copy {
    ghost symbol: { Self → Single };

    // Whether it comes next.
    fn is(self, next: Next) -> bool
        ensures { result ≡ is_word (symbol self) next };
}

impl Expected for Mark {
    ghost symbol = { sign };

    fn is(self, next: Next) -> bool {
        matches!(next, Next::Sign { mark, .. } if mark == self)
    }
}

impl Expected for Keyword {
    ghost symbol = { «the» };

    fn is(self, next: Next) -> bool {
        matches!(next, Next::Key { key, .. } if key == self)
    }
}
