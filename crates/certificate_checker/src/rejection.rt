use thiserror::Error;

/// Why a text is refused: the first of these that holds, unless memory runs out. Lines are counted from 1.
#[derive(Clone, Copy, Debug, PartialEq, Eq, Error)]
pub enum Rejection {
    #[error("no certificate text goes on as line {line} does")]
    Malformed { line: usize },
    #[error("the object is not feasible")]
    Infeasible,
    #[error("the dual is not feasible")]
    BadDual,
    #[error("the value, the object and the dual are not of one size")]
    Gap,
    #[error("no memory is left")]
    NoMemory,
}
