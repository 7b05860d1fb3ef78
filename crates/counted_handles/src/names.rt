//! What names a cell.
use cell_core::Follows;

/// What the values of a cell are to one another: a type that names the cell says which value may be the first, and which may
/// follow another.
pub trait Names<T>: Follows<T> {
    /// The value may be the first that the cell publishes.
    ghost begins: { T → Type 0 };
}
