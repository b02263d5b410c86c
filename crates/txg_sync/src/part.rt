use page_tree::RecordList;
use pool_model::PlaceList;
use std::marker::Model;

/// A chain that is to be written: its records, and a place for each of its pages.
#[derive(Drop)]
pub struct ChainPages {
    /// The sectors of the pages, in the order in which they are read again.
    pub places: PlaceList,
    /// The records, of 72 bytes each.
    pub records: RecordList,
}

impl Model for ChainPages {
    ghost use Rattle.table_state.specs.Sealed.{ChainPart};

    ghost Value = { ChainPart };

    ghost view = { λ pages. record { places = pages.places.items; records = pages.records.items } };
}
