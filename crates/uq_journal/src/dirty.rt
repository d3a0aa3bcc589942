//! A page to be put in place.
use uq_page::Page;

/// A page to be put in place.
///
/// A batch is a slice of these in ascending order of their numbers. Its owner takes no memory to make it at the moment
/// of the commit: it appends changed pages as they come, keeps their order beside them (places, by number, in an order
/// that grows with each new page), and at the commit puts the pages into that order in place, each with one swap.
#[derive(Drop)]
pub struct Dirty {
    /// The page's number in the main file.
    pub no: u32,
    /// Whether the page has no original in the journal yet. A commit of one batch does not ask.
    pub first: bool,
    /// What it is to hold.
    pub page: Page,
}
