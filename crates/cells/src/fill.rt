// Filling the cells from a segment, and from a record.
use crate::cells::{Cell, Cells};
use records::part::OpenPart;
use records::passing::OpenRecord;

impl<'a> Cells<'a> {
    ghost use Rattle.std.specs.Prelude.{◌≡◌, []};
    ghost use Rattle.records.specs.Reading.{part_upload, record_of};
    ghost use Rattle.fields.specs.declared.field.Field.{Field as AnyField};
    ghost use Rattle.cells.specs.Cells.{cell_at, value_at};
    ghost use Rattle.cells.specs.Filled.{Filled, cell_of, value_of, first_in};

    // The cells of a record's header and visit. No field of an order is written yet.
    pub fn of(record: &OpenRecord<'a>) -> Cells<'a>
        ensures upload { result.upload.now ≡ part_upload record.now.header }
        ensures cells { (f : AnyField) → cell_at result f ≡ cell_of (first_in (record_of record.now) [] f) }
        ensures values { (f : AnyField) → value_at result f ≡ value_of (first_in (record_of record.now) [] f) }
    {
        let mut cells = Cells::new(record.header.cursor.upload);
        cells.fill(&record.header);
        cells.fill(&record.visit);
        cells
    }

    // Reads the fields of a segment, in place of those that its kind had before. The values are right if it is read from the upload
    // of the cells, as the parts of one record are.
    pub fn fill(&mut self, part: &OpenPart)
        ensures { Filled part.now self.old self.new }
    {
        self.clear(part.segment);
        for field in part.fields() {
            if !field.value.is_empty() {
                let cell = Cell {
                    place: field.place + 5,
                    len: field.value.len(),
                };
                self.put(part.segment, field.id, cell);
            }
        }
    }
}
