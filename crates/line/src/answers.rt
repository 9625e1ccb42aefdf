ghost use Rattle.std.specs.Prelude.{◌≡◌};
ghost use Rattle.job.specs.Maps.{answer_of, value_of};
ghost use Rattle.line.specs.Answers.{outcome_of, shown_of};

use crate::outcomes::{Outcome, Value};
use job::{Answer, Value as JobValue};

impl From<JobValue> for Value {
    ghost from_gives = { λ value r. r ≡ shown_of (value_of value) };

    fn from(value: JobValue) -> Value {
        match value {
            JobValue::Integer(z) => Value::Integer(z),
            JobValue::Boolean(b) => Value::Boolean(b),
            JobValue::Closure { .. } | JobValue::PantryProcedure(_) => Value::Procedure,
        }
    }
}

impl From<Answer> for Outcome {
    ghost from_gives = { λ answer r. r ≡ outcome_of (answer_of answer) };

    fn from(answer: Answer) -> Outcome {
        match answer {
            Answer::Going { steps } => Outcome::Going { steps },
            Answer::Done { value, steps } => Outcome::Done {
                value: value.into(),
                steps,
            },
            Answer::Stop { reason, steps } => Outcome::Stopped { reason, steps },
        }
    }
}
