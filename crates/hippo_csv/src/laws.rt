//! The law that extracted rows can be loaded again.
ghost use Rattle.hippo_csv.specs.RecordLaws.{FieldRoundTrip};

/// A record that EXTRACT writes of a row whose cells are all shown reads back as that row, as a
/// record for the same table. Three conditions apply: the table has a column; no value is an empty
/// text, which reads as NULL; and the first value is not a text that begins with a byte order mark,
/// which a reader drops.
pub fn field_round_trip()
    ensures { FieldRoundTrip }
{}
