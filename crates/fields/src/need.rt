// What a record needs of each field, by its category and kind. The tables are read here and nowhere else.
ghost use Rattle.fields.specs.Needs.{need_at, Table, Samples};
ghost use Rattle.std.specs.Prelude.{◌≡◌};

use crate::category::Category;
use crate::field::Field;

#[derive(Clone, Copy, PartialEq, Eq, Debug)]
pub enum Need {
    Required,
    Barred,
    Free,
}

// The printed tables: V is required, ~ barred, * free.
const ROWS: [[u8; 62]; 69] = [
    *b"VVVVVVVVVVVVVVVVVVVVVVVVVVVVVVVVVVVVVVVVVVVVVVVVVVVVVVVVVVVVVV",
    *b"VVVVVVVVVVVVVVVVVVVVVVVVVVVVVVVVVVVVVVVVVVVVVVVVVVVVVVVVVVVVVV",
    *b"V~V~V~V~V~V~V~V~V~V~V~V~V~V~V~V~V~V~V~V~V~V~V~V~V~V~V~V~V~V~V~",
    *b"V~V~V~V~V~V~V~V~V~V~V~V~V~V~V~V~V~V~V~V~V~V~V~V~V~V~V~V~V~V~V~",
    *b"VVVVVVVVVVVVVVVVVVVVVVVVVVVVVVVVVVVVVVVVVVVVVVVVVVVVVVVVVVVVVV",
    *b"VVVVVVVVVVVVVVVVVVVVVVVVVVVVVVVVVVVVVVVVVVVVVVVVVVVVVVVVVVVVVV",
    *b"VVVVVVVVVVVVVVVVVVVVVVVVVVVVVVVVVVVVVVVVVVVVVVVVVVVVVVVVVVVVVV",
    *b"VVVVVVVVVVVVVVVVVVVVVVVVVVVVVVVVVVVVVVVVVVVVVVVVVVVVVVVVVVVVVV",
    *b"VVVVVVVVVVVVVVVVVVVVVVVVVVVVVVVVVVVVVVVVVVVVVVVVVVVVVVVVVVVVVV",
    *b"**************************************************************",
    *b"**************************************************************",
    *b"**************************************************************",
    *b"VVVVVVVVVVVVVVVVVVVVVVVVVVVVVVVVVVVVVVVVVVVVVVVVVVVVVVVVVVVVVV",
    *b"VVVVVVVVVVVVVVVVVVVVVVVVVVVVVVVVVVVVVVVVVVVVVVVVVVVVVVVVVVVVVV",
    *b"VVVVVVVVVVVVVVVVVV*V*V*VVV~V*V*V*V*V*V~V~V~V~V~V~V~V~V~V~V~V~V",
    *b"V~V~V~V~V~V~V~V~V~V~V~V~V~V~V~V~V~V~V~V~V~V~V~V~V~V~V~V~V~V~V~",
    *b"VVVVVVVVVVVVVVVVVVVVVVVVVVVVVVVVVVVVVVVVVVVVVVVVVVVVVVVVVVVVVV",
    *b"~~~~~~~~~~~~~~~~~~VVVVVV~~~~VVVVVVVVVVVVVVVVVV~~VV******VVVVVV",
    *b"~~~~~~~~~~~~~~~~~~VVVVVV~~~~VVVVVVVVVVVVVVVVVV~~VV******VVVVVV",
    *b"~~~~~~~~~~~~~~~~~~VVVVVV~~~~VVVVVVVVVVVVVVVVVV~~VV******VVVVVV",
    *b"~~~~~~~~~~~~~~~~~~VVVVVV~~~~VVVVVVVVVVVVVVVVVV~~VV******VVVVVV",
    *b"******~~~~******************VVVV~~****~~~~****~~~~********~~~~",
    *b"******~~~~******~~~~~~~~~~******~~~~**~~~~~~~~~~~~**~~~~~~~~~~",
    *b"******~~~~******~~~~~~~~~~******~~~~**~~~~~~~~~~~~**~~~~~~~~~~",
    *b"VVVV************VV********VV~~~~******************************",
    *b"**************************************************************",
    *b"**************************************************************",
    *b"**************************************************************",
    *b"**************************************************************",
    *b"**************************************************************",
    *b"**************************************************************",
    *b"****************~~~~******************************************",
    *b"****************~~~~******************************************",
    *b"****************~~~~******************************************",
    *b"**************************************************************",
    *b"**************************************************************",
    *b"VVVVVVVVVVVVVVVVVVVVVVVV**VVVVVVVVVV**VVVVVVVVVVVV******VVVVVV",
    *b"**************************************************************",
    *b"**************************************************************",
    *b"**************************************************************",
    *b"**************************************************************",
    *b"**************************************************************",
    *b"**************************************************************",
    *b"**************************************************************",
    *b"**************************************************************",
    *b"VVVVVV**~~VVVVVVVVVVVVVVVVVVVVVVVVVV**********~~~~************",
    *b"VVVVVV**~~VVVVVVVVVV******VVVV**************VV~~~~************",
    *b"****************~~~~********************VV**************VV****",
    *b"****************~~~~********************VV**************VV****",
    *b"****************~~~~******************************************",
    *b"**************************************************************",
    *b"******VVVV******VVVV******************VVVVVVVVVVVV~~~~~~VVVVVV",
    *b"VVVVVVVVVVVVVVVVVVVVVVVVVVVVVVVVVVVVVVVVVVVVVVVVVVVVVVVVVVVVVV",
    *b"**************************************************************",
    *b"****************VVVV********VVVVVV********VV******************",
    *b"****************VVVV********VVVVVV********VV******************",
    *b"****************VVVV********VVVVVV********VV******************",
    *b"****************************VVVVVV****************************",
    *b"****************VVVV********VVVVVV****************************",
    *b"****************VVVV********VVVVVV********VV******************",
    *b"******************************************VV******************",
    *b"****************************VVVV******************************",
    *b"****************************VVVV******************************",
    *b"****************************VVVVVV********VV******************",
    *b"**************************************************************",
    *b"**************************************************************",
    *b"**************************************************************",
    *b"****************************VVVV******************************",
    *b"**************************************************************",
];

// The need of a field in a record of the category, under H01 = B if it is exceptional, and else under A.
pub fn printed_need(field: Field, category: Category, exceptional: bool) -> Need
    ensures value { result ≡ need_at field category exceptional }
    ensures samples { Samples }
{
    let column = 2 * category.column() + usize::from(exceptional);
    match ROWS[field.row()][column] {
        b'V' => Need::Required,
        b'~' => Need::Barred,
        _ => Need::Free,
    }
}

// At each field, category and kind the tables have a mark, and that of a field that every record must have is V.
#[tactic(auto, using(crate::proofs::Whole::table))]
pub fn table_stands()
    ensures { Table }
{}
