// Registers of both kinds, empty and nearly full, and the uploads that they receive.

use crate::keys::{keys_from, keys_of_sender};
use crate::plan::Plan;
use crate::receipts::{Receipt, Sent, fill, time_judging, time_receipts};
use crate::texts::{DISPENSING, Form, VISIT, upload_of};
use hash_register::store::HashRegister;
use ordered_register::store::OrderedRegister;
use register::key::Key;
use register::register::Register;
use std::alloc::{AllocError, Global};
use std::io;
use std::rt::Clock;

// What is sent.
#[derive(Drop)]
pub(crate) struct Uploads {
    visits: Sent,
    dispensings: Sent,
}

// What a register of one kind makes of it: visits while it is empty, and while there is just room for them; and then dispensings, new and
// once more.
#[derive(Clone, Copy)]
pub struct Column {
    pub empty: Receipt,
    pub full: Receipt,
    pub dispensings: Receipt,
    pub again: Receipt,
}

#[derive(Clone, Copy)]
pub struct Table {
    // visits and dispensings, judged alone
    pub visits: Receipt,
    pub dispensings: Receipt,
    pub ordered: Column,
    pub scattered: Column,
}

// An upload of so many records, with keys of numbers behind those of what stands in the registers before.
fn sent(alloc: Global, plan: &Plan, form: Form, records: usize) -> Result<Sent, AllocError> {
    let first = (plan.entries as u64).wrapping_add(1);
    let keys = keys_of_sender(alloc, first, records)?;
    Ok(Sent {
        bytes: upload_of(alloc, form, &keys)?,
        keys,
    })
}

impl Uploads {
    fn new(alloc: Global, plan: &Plan) -> Result<Uploads, AllocError> {
        Ok(Uploads {
            visits: sent(alloc, plan, VISIT, plan.visits)?,
            dispensings: sent(alloc, plan, DISPENSING, plan.dispensings)?,
        })
    }
}

// What stands in the registers before: as many entries as leave just room for the visits, in the order of their keys.
fn keys_before(alloc: Global, plan: &Plan) -> Result<Vec<Key>, AllocError> {
    let mut keys = keys_from(alloc, 1, plan.entries.saturating_sub(plan.visits))?;
    keys.sort_unstable();
    Ok(keys)
}

// The column of an empty register.
fn measure_kind<R: Register>(
    rt: &impl Clock,
    plan: &Plan,
    mut register: R,
    before: &[Key],
    uploads: &Uploads,
) -> io::Result<Column>
where
    R: Drop,
{
    let Uploads {
        visits,
        dispensings,
    } = uploads;
    let empty = time_receipts(rt, &mut register, visits, false, plan.passes)?;
    fill(&mut register, before);
    Ok(Column {
        empty,
        full: time_receipts(rt, &mut register, visits, false, plan.passes)?,
        dispensings: time_receipts(rt, &mut register, dispensings, false, plan.passes)?,
        again: time_receipts(rt, &mut register, dispensings, true, plan.passes)?,
    })
}

pub(crate) fn measure<T: AllocGlobal + Clock>(rt: &T, plan: &Plan) -> io::Result<Table> {
    let alloc = rt.alloc();
    let uploads = Uploads::new(alloc, plan)?;
    let before = keys_before(alloc, plan)?;
    let ordered = OrderedRegister::new(alloc, plan.entries)?;
    let scattered = HashRegister::new(alloc, plan.entries)?;
    Ok(Table {
        visits: time_judging(rt, &uploads.visits, plan.passes)?,
        dispensings: time_judging(rt, &uploads.dispensings, plan.passes)?,
        ordered: measure_kind(rt, plan, ordered, &before, &uploads)?,
        scattered: measure_kind(rt, plan, scattered, &before, &uploads)?,
    })
}
