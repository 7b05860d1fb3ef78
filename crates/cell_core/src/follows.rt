//! How a published value follows the one before it.

/// One relation of a published value to the next. A type that names a cell has it.
pub trait Follows<T> {
    /// The second value may be published after the first.
    ghost follows: { T → T → Type 0 };
}
