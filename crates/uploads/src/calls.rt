// What the relay hands over.
use limits::tally::MOST_RECORDS;

// A call of the relay: who sends, the receipt day, the upload, and the room for its verdicts.
#[derive(Clone, Copy)]
pub struct Call<'a> {
    pub sender: &'a [u8],
    // the receipt day, seven digits
    pub day: &'a [u8],
    pub upload: &'a [u8],
    // how many verdict rows there are
    pub rows: usize,
}

// A call lends at least so many verdict rows: as many as an upload may have records.
pub const LEAST_ROWS: usize = MOST_RECORDS;

// The greatest length of an upload.
pub const MOST_BYTES: usize = 1_048_576;
