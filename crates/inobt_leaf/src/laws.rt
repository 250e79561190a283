// What pages and leaves are to each other.

ghost use Rattle.inobt_leaf.specs.PageLaws.{PagesAreRead, PagesTellLeaves};

/// A law: no page is that of two leaves, or of one leaf between two pairs of siblings.
pub fn pages_tell_leaves()
    ensures { PagesTellLeaves }
{}

/// A law: a page has 4,096 bytes, and the records of a leaf's page give the leaf's chunks.
pub fn encoded_pages_are_read()
    ensures { PagesAreRead }
{}
