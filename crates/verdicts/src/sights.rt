// What is seen of a record: its header and its visit, then one order after another.
ghost use Rattle.std.specs.Prelude.{◌≡◌, List, [], ◌∷◌, ◌++◌};
ghost use Rattle.grammar.specs.declared.states.Segment.{Segment};
ghost use Rattle.records.specs.Records.{Part, Record};
ghost use Rattle.records.specs.Reading.{part_of, part_upload, record_of};
ghost use Rattle.rules.specs.Sight.{view_of};
ghost use Rattle.verdicts.specs.Sights.{Setting, setting, view, AtOrders};

use calendar::day::Day;
use cells::cells::Cells;
use fields::field::Field;
use lists::code_lists::CodeLists;
use marks::numbers::OrderNumbers;
use records::part::OpenPart;
use records::passing::OpenRecord;
use rules::seen::Seen;
use values::numbers::order_number;

// The header and the visit of a record are read.
pub(crate) fn open<'a, L: CodeLists>(
    today: Day,
    lists: &'a L,
    record: &OpenRecord<'a>,
) -> Seen<'a, L>
    ensures sight { view_of L.meaning result ≡ view (setting L.meaning today lists.entry.now) (record_of record.now) [] [] }
    ensures upload { result.cells.upload.now ≡ part_upload record.now.header }
{
    Seen {
        today,
        lists,
        cells: Cells::of(record),
        numbers: OrderNumbers::new(),
        ordered: record.has_orders(),
    }
}

// An order is read, in place of the one before it.
pub(crate) fn turn_to<L: CodeLists>(seen: &mut Seen<L>, order: &OpenPart)
    requires upload { part_upload order.now ≡ seen.old.cells.upload.now }
    requires order { (part_of order.now).segment ≡ Segment.Order }
    ensures sight { (s : Setting) (x : Record) (before : List Part) → AtOrders s x before (view_of L.meaning seen.old) →
        view_of L.meaning seen.new ≡ view s x before (part_of order.now).fields }
    ensures upload { seen.new.cells.upload ≡ seen.old.cells.upload }
{
    seen.cells.fill(order);
}

// An order is judged: those behind it may not have its number.
pub(crate) fn pass<L: CodeLists>(seen: &mut Seen<L>)
    ensures sight { (s : Setting) (x : Record) (before : List Part) (o : Part) → view_of L.meaning seen.old ≡ view s x before o.fields →
        AtOrders s x (before ++ o ∷ []) (view_of L.meaning seen.new) }
    ensures upload { seen.new.cells.upload ≡ seen.old.cells.upload }
{
    if let Some(number) = order_number(seen.cells.value(Field::D03)) {
        seen.numbers.insert(usize::from(number));
    }
}
