//! Laws of the layouts, as the contract of a call that does nothing.
ghost use Rattle.uq_page.specs.Laws.{OneBucketHead, OneCell, OneHeader};

/// The bytes tell the fields: a page has one header at most, one head of a bucket page, and from each place on
/// one cell.
pub fn bytes_tell_fields()
    ensures header { OneHeader }
    ensures bucket { OneBucketHead }
    ensures cell { OneCell }
{}
