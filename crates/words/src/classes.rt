ghost use Rattle.std.specs.Prelude.{◌≡◌, true};
ghost use Rattle.words.specs.Classes.{class_of, keeps_rule};

use self::Class::{
    Blank as B, Dash as H, Digit as D, Letter as L, Mark as M, None as N, Percent as P, Query as Q,
};

// What a byte may begin or go on with.
#[derive(Clone, Copy, Debug, PartialEq, Eq)]
pub enum Class {
    None,
    Blank,
    Percent,
    Letter,
    Digit,
    Dash,
    Query,
    Mark,
}

// The class of each byte value, sixteen to a row.
const CLASSES: &[[Class; 16]; 16] = &[
    [N, N, N, N, N, N, N, N, N, B, B, N, N, B, N, N],
    [N, N, N, N, N, N, N, N, N, N, N, N, N, N, N, N],
    [B, N, N, N, N, P, N, N, M, M, M, M, M, H, N, M],
    [D, D, D, D, D, D, D, D, D, D, M, N, N, M, N, Q],
    [N, L, L, L, L, L, L, L, L, L, L, L, L, L, L, L],
    [L, L, L, L, L, L, L, L, L, L, L, M, N, M, N, N],
    [N, L, L, L, L, L, L, L, L, L, L, L, L, L, L, L],
    [L, L, L, L, L, L, L, L, L, L, L, N, N, N, N, N],
    [N, N, N, N, N, N, N, N, N, N, N, N, N, N, N, N],
    [N, N, N, N, N, N, N, N, N, N, N, N, N, N, N, N],
    [N, N, N, N, N, N, N, N, N, N, N, N, N, N, N, N],
    [N, N, N, N, N, N, N, N, N, N, N, N, N, N, N, N],
    [N, N, N, N, N, N, N, N, N, N, N, N, N, N, N, N],
    [N, N, N, N, N, N, N, N, N, N, N, N, N, N, N, N],
    [N, N, N, N, N, N, N, N, N, N, N, N, N, N, N, N],
    [N, N, N, N, N, N, N, N, N, N, N, N, N, N, N, N],
];

// The table, which keeps the rule at each of the 256 byte values.
fn classes() -> &'static [[Class; 16]; 16]
    ensures { keeps_rule result.now ≡ true }
{
    CLASSES
}

pub(crate) fn class_of(b: u8) -> Class
    ensures { result ≡ class_of b }
{
    let b = usize::from(b);
    classes()[b / 16][b % 16]
}
