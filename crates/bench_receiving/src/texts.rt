// Uploads built in memory.
ghost use Rattle.std.specs.Prelude.{◌≡◌, ◌++◌, IfOk, OnOk};
ghost use Rattle.bench_receiving.specs.Texts.{text_of, upload_of};

use register::key::Key;
use std::alloc::{AllocError, Global};

// How a record is written about its identifier.
#[derive(Clone, Copy)]
pub struct Form {
    pub front: &'static [u8],
    // what stands before the identifier of its origin, which is the same, if it has one
    pub origin: Option<&'static [u8]>,
    pub back: &'static [u8],
}

// Short enough that an upload holds 4,096 of them.
pub(crate) const VISIT: Form = Form {
    front: b"<REC><MSH><H00>1</H00><H01>B</H01></MSH><MB><MB1><M03>A123456789</M03><M04>0800101</M04>\
<M05>1101100011</M05><M06>B223456789</M06><M07>DA</M07><M11>1130215093000</M11><M12>1</M12><M13>A000</M13>\
<M51>01</M51><M15>",
    origin: None,
    back: b"</M15></MB1></MB></REC>",
};

// The second dispensing of a prescription of another sender.
pub(crate) const DISPENSING: Form = Form {
    front: b"<REC><MSH><H00>1</H00><H01>B</H01></MSH><MB><MB1><M03>A123456789</M03><M04>0800101</M04>\
<M05>1101100011</M05><M06>B223456789</M06><M07>AE</M07><M11>1130215093000</M11><M12>1</M12><M13>A000</M13>\
<M17>3501200001</M17><M18>0003</M18><M19>1130101080000</M19><M20>28</M20><M26>3</M26><M33>2</M33>\
<M35>J00</M35><M44>340</M44><M45>50</M45><M51>01</M51><M15>",
    origin: Some(b"</M15><M16>"),
    back: b"</M16></MB1><MB2><D01>1130215093000</D01><D02>1</D02><D03>1</D03><D04>A</D04><D05>1</D05>\
<D06>M01</D06><D09>7</D09><D10>21</D10></MB2></MB></REC>",
};

// Writes a record.
fn write(bytes: &mut Vec<u8>, form: Form, identifier: &[u8]) -> Result<(), AllocError>
    ensures { OnOk result (bytes.new.items ≡ bytes.old.items ++ text_of form identifier.now) }
{
    bytes.extend_from_slice(form.front)?;
    bytes.extend_from_slice(identifier)?;
    if let Some(origin) = form.origin {
        bytes.extend_from_slice(origin)?;
        bytes.extend_from_slice(identifier)?;
    }
    bytes.extend_from_slice(form.back)
}

// An upload of a record under each of the keys.
pub(crate) fn upload_of(alloc: Global, form: Form, keys: &[Key]) -> Result<Vec<u8>, AllocError>
    ensures { IfOk result (λ bytes. bytes.items ≡ upload_of form keys.now) }
{
    let mut bytes = Vec::new(alloc);
    bytes.extend_from_slice(b"<?xml version=\"1.0\" encoding=\"Big5\"?><RECS>")?;
    for key in keys {
        write(&mut bytes, form, &key.identifier)?;
    }
    bytes.extend_from_slice(b"</RECS>")?;
    Ok(bytes)
}
