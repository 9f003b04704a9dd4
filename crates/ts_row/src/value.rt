ghost use Rattle.std.specs.Prelude.{◌≡◌, IfOk};

use std::alloc::AllocError;
use ts_base::Bytes;

/// A value of a column. The number of a decimal is the one without its point.
#[derive(Debug, Drop)]
pub enum Value {
    Null,
    Number(i128),
    Text(Bytes),
}

impl Value {
    pub fn copy(&self) -> Result<Self, AllocError>
        ensures { IfOk result (λ made. made ≡ self.now) }
    {
        match self {
            Value::Null => Ok(Value::Null),
            Value::Number(number) => Ok(Value::Number(*number)),
            Value::Text(text) => Ok(Value::Text(text.copy()?)),
        }
    }
}

/// A value as a script writes it; its number is `units` over ten to the power of `scale`.
#[derive(Debug, Drop)]
pub enum Literal {
    Null,
    Number { units: i128, scale: u8 },
    Text(Bytes),
}

impl Literal {
    pub fn copy(&self) -> Result<Self, AllocError>
        ensures { IfOk result (λ made. made ≡ self.now) }
    {
        match self {
            Literal::Null => Ok(Literal::Null),
            Literal::Number { units, scale } => Ok(Literal::Number {
                units: *units,
                scale: *scale,
            }),
            Literal::Text(text) => Ok(Literal::Text(text.copy()?)),
        }
    }
}
