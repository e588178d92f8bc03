use thiserror::Error;

/// Why the bytes of a statement are refused. Each fault prints as its number and name, such as `C5
/// BadMove`.
#[derive(Clone, Copy, Debug, PartialEq, Eq, Error)]
pub enum TextFault {
    /// The statement has more than 4,096 bytes, including blanks at its end.
    #[error("C1 StatementTooLong")]
    StatementTooLong,
    /// It begins with `V` but is not `V2`, `V2.1` or `V2.2`.
    #[error("C2 BadVersion")]
    BadVersion,
    /// It begins with `$` and has no key, or no colon after the key.
    #[error("C3 BadHeader")]
    BadHeader,
    /// It begins as a position statement but does not continue as one.
    #[error("C4 BadPosition")]
    BadPosition,
    /// It begins with a sign but is neither that sign alone nor a move of seven bytes.
    #[error("C5 BadMove")]
    BadMove,
    /// It begins with `T` but is not a time, or is a time above 4,294,967,295.999 seconds.
    #[error("C6 BadTime")]
    BadTime,
    /// It begins with `%` but is not one of the endings.
    #[error("C7 UnknownEnding")]
    UnknownEnding,
    /// It is not a statement of the grammar, and none of the faults above applies.
    #[error("C8 Unknown")]
    Unknown,
}
