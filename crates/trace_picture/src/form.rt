//! In which form a drawing is wanted.

/// The form of a drawing.
#[derive(Clone, Copy, PartialEq, Eq, Debug)]
pub enum Form {
    /// The picture alone, an SVG document.
    Picture,
    /// A page with the picture, and the steps below it, an HTML document that uses no other.
    Page,
}
