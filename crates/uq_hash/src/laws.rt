//! Laws of the layout, each the contract of a call that changes nothing.
ghost use Rattle.uq_hash.specs.Laws.{OneMap, ApartFromHeader, CellsBySums, SumsOfInsert, SumsOfRemove};

use uq_page::bytes_tell_fields;

/// Pages and a header hold one map at most.
pub fn one_map()
    ensures { OneMap }
{
    bytes_tell_fields();
}

/// The map does not depend on the page of the header.
pub fn apart_from_header()
    ensures { ApartFromHeader }
{}

/// What the cells of a map take is known from the sums in the header.
pub fn cells_by_sums()
    ensures { CellsBySums }
{}

/// What the sums in the header are after an insertion.
pub fn sums_of_insert()
    ensures { SumsOfInsert }
{}

/// What the sums in the header are after a removal.
pub fn sums_of_remove()
    ensures { SumsOfRemove }
{}
