//! The system's words for an error.

ghost use Rattle.record_commands.specs.SystemWords.{IsWithoutNumber};

/// The words, without the number of the error that may follow them.
pub fn without_number(words: &str) -> &str
    ensures { IsWithoutNumber words.now result.now }
{
    match words.split_once(" (os error ") {
        Some((reason, _)) => reason,
        None => words,
    }
}
