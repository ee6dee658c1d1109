// One cell for each of the fields that a record may hold.
ghost use Rattle.std.specs.Prelude.{◌≡◌, length};

use fields::field::{Field, field_at, fields_of};
use grammar::states::{FieldId, Segment};

// Where a value stands. A field that is not written has a cell of no length: an empty value counts as none.
#[derive(Clone, Copy, PartialEq, Eq, Debug)]
pub struct Cell {
    pub place: usize,
    pub len: usize,
}

impl Cell {
    ghost use Rattle.cells.specs.Cells.{nowhere, is_free, text_at};

    pub fn nowhere() -> Cell
        ensures { result ≡ nowhere }
    {
        Cell { place: 0, len: 0 }
    }

    pub fn is_free(self) -> bool
        ensures { result ≡ is_free self }
    {
        self.len == 0
    }

    // The bytes of the cell, as far as the upload has them.
    pub fn text<'a>(self, upload: &'a [u8]) -> &'a [u8]
        ensures { result.now ≡ text_at upload.entry.now self }
    {
        let behind = &upload[self.place.min(upload.len())..];
        &behind[..self.len.min(behind.len())]
    }
}

#[derive(Clone, Copy)]
pub struct Cells<'a> {
    pub upload: &'a [u8],
    pub cells: [Cell; 69],
    pub ghost size: { length cells ≡ 69 },
}

impl<'a> Cells<'a> {
    ghost use Rattle.fields.specs.declared.field.Field.{Field as AnyField};
    ghost use Rattle.cells.specs.Cells.{nowhere, cell_at, value_at, cleared, put};

    // No field is written yet.
    pub fn new(upload: &'a [u8]) -> Cells<'a>
        ensures upload { result.upload ≡ upload.entry }
        ensures cells { (f : AnyField) → cell_at result f ≡ nowhere }
    {
        Cells {
            upload,
            cells: [Cell::nowhere(); 69],
        }
    }

    pub fn cell(&self, field: Field) -> Cell
        ensures { result ≡ cell_at self.now field }
    {
        self.cells[field.row()]
    }

    pub fn value(&self, field: Field) -> &'a [u8]
        ensures { result.now ≡ value_at self.entry.now field }
    {
        self.cell(field).text(self.upload)
    }

    // The fields of a segment are not written any more.
    pub fn clear(&mut self, segment: Segment)
        ensures upload { self.new.upload ≡ self.old.upload }
        ensures cells { (f : AnyField) → cell_at self.new f ≡ cleared segment self.old f }
    {
        for field in fields_of(segment) {
            self.cells[field.row()] = Cell::nowhere();
        }
    }

    // Fills the cell of the field that the ID names in the segment, if it names one and the cell is free.
    pub fn put(&mut self, segment: Segment, id: FieldId, cell: Cell)
        ensures upload { self.new.upload ≡ self.old.upload }
        ensures cells { (f : AnyField) → cell_at self.new f ≡ put segment id cell self.old f }
    {
        let Some(field) = field_at(segment, id) else {
            return;
        };
        if self.cell(field).is_free() {
            self.cells[field.row()] = cell;
        }
    }
}
