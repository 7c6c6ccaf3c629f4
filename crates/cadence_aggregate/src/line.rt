//! What a line says.

/// What a line says of its context. A context is the line without its values: its name, and the text from its first bar
/// on. The context of a member of a set is the whole line.
#[derive(Clone, Copy)]
pub enum Line<'a> {
    /// The counter of this context is raised by this number.
    Amount(&'a str, i64),
    /// The gauge of this context has this value.
    Level(&'a str, &'a str),
    /// This is a line of a member of a set.
    Member(&'a str),
    /// The timer, the histogram or the distribution of this context has these values, with a colon between each two.
    Timing(&'a str, &'a str),
    /// This line may set a gauge, though nothing says which one, or to what. It can't be added to another one.
    Unclear(&'a str),
    /// This is any other line. It can't be added to another one, and sets no gauge.
    Other(&'a str),
}
