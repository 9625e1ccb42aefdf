ghost use Rattle.std.specs.Prelude.{◌≡◌};
ghost use Rattle.language.specs.Machine.{sized as sized_of, compute};
ghost use Rattle.grammar.specs.Plain.{plain_o};
ghost use Rattle.job.specs.Maps.{tried_of};

use crate::reasons::Reason;
use crate::tables::Value;
use grammar::tree::Operator;
use pantry::entries::in_range;

// A result, if it is not too large. By one match: what is no `i32` and what is out of range stop alike.
fn sized(z: i64) -> Result<Value, Reason>
    ensures { tried_of result ≡ sized_of z }
{
    match i32::try_from(z) {
        Ok(figure) if in_range(figure) => Ok(Value::Integer(figure)),
        _ => Err(Reason::TooLarge),
    }
}

// What an operation on two numbers gives. A quotient drops its fraction.
pub(crate) fn computed(operator: Operator, left: i32, right: i32) -> Result<Value, Reason>
    ensures { tried_of result ≡ compute (plain_o operator) left right }
{
    let a = i64::from(left);
    let b = i64::from(right);
    match operator {
        Operator::Plus => sized(a + b),
        Operator::Minus => sized(a - b),
        Operator::Times => sized(a * b),
        Operator::Over => sized(a.checked_div(b).ok_or(Reason::DivideByZero)?),
        Operator::Less => Ok(Value::Boolean(a < b)),
    }
}
