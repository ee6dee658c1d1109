// Where a reader of an upload may stand, and the tags that it meets there.

// The parts of a record that hold fields: MSH, MB1 and each MB2.
#[derive(Clone, Copy, PartialEq, Eq, Debug)]
pub enum Segment {
    Header,
    Visit,
    Order,
}

// Between two tags, outside a field.
#[derive(Clone, Copy, PartialEq, Eq, Debug)]
pub enum State {
    // behind the declaration
    Start,
    // among the records
    Records,
    // behind <REC>, where <MSH> must stand
    Record,
    // among the fields of a segment
    Within(Segment),
    // behind </MSH>
    Headed,
    // behind <MB>, where <MB1> must stand
    Body,
    // behind </MB1> or </MB2>
    Orders,
    // behind </MB>
    Bodied,
    // behind </RECS>
    Done,
}

// What the structure is made of.
#[derive(Clone, Copy, PartialEq, Eq, Debug)]
pub enum Element {
    Recs,
    Rec,
    Msh,
    Mb,
    Mb1,
    Mb2,
}

// The twelve tags of the structure.
#[derive(Clone, Copy, PartialEq, Eq, Debug)]
pub enum Tag {
    Open(Element),
    Close(Element),
}

// The name of a field: a capital letter and two digits, as bytes. No array, since the grammar asks something of each.
#[derive(Clone, Copy, PartialEq, Eq, Debug)]
pub struct FieldId {
    pub letter: u8,
    pub tens: u8,
    pub ones: u8,
}

// What a state asks for, once it is known whether a closing tag comes.
#[derive(Clone, Copy, PartialEq, Eq, Debug)]
pub enum Wanted {
    Structure(Tag),
    Field(Segment),
    Nothing,
}
