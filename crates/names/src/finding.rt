//! A name by its number, and a number by its name.

ghost use Rattle.std.specs.Prelude.{◌≡◌, map, option_map};
ghost use Rattle.names.specs.Names as spec;
ghost use Rattle.names.specs.Tables.{row_of};

use crate::tables::Row;

/// The standard's name of a number, by a table; none where the table lacks it.
pub fn name_in(table: &[Row], number: u32) -> Option<&'static str>
    ensures { option_map (λ name. name.now) result ≡ spec.name_in (map row_of table.now) number }
{
    let mut left = table;
    while let [row, rest @ ..] = left {
        if row.number == number {
            return Some(row.name);
        }
        left = rest;
    }
    None
}

/// The number that the standard names so, by a table; none where the table lacks the name.
pub fn number_in(table: &[Row], name: &str) -> Option<u32>
    ensures { result ≡ spec.number_in (map row_of table.now) name.now }
{
    let mut left = table;
    while let [row, rest @ ..] = left {
        if row.name == name {
            return Some(row.number);
        }
        left = rest;
    }
    None
}
