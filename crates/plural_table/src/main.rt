// Prints the table of plural categories that the library holds, made from the written conditions: eight lines of 200 digits.
#![tactic(auto)]

ghost use Rattle.std.specs.Prelude.{◌≡◌, [], ◌%◌, ◌<◌, get_or};
ghost use Rattle.decimals.specs.Decimal.{kind_number};
ghost use Rattle.plural.specs.Table.{table, in_digits, printed};

use decimals::types::Kind;
use plural::plural::by_conditions;
use plural::types::category_number;
use std::io;
use std::io::Write;

// The kind of a line's rule set: cardinal, then ordinal.
fn kind_of(rule: u8) -> Kind
    ensures { kind_number result ≡ rule % 2 }
{
    if rule % 2 == 0 {
        Kind::Cardinal
    } else {
        Kind::Ordinal
    }
}

// The digit of a number in a line, by the written conditions.
fn digit_in_line(rule: u8, n: u64) -> u8
    requires { (rule < 8) × (n < 200) }
    ensures { result ≡ get_or (get_or (in_digits table) rule []) n 0 }
{
    b'0' + category_number(by_conditions(rule / 2, kind_of(rule), n))
}

// What stands at a place of the printed table: a digit, or the line feed that ends a line.
fn printed_at(at: usize) -> u8
    requires { at < 1608 }
    ensures { result ≡ get_or printed at 0 }
{
    match at % 201 {
        200 => b'\n',
        n => digit_in_line((at / 201) as u8, n as u64),
    }
}

// A buffer that holds the printed table.
fn make_table() -> [u8; 1608]
    ensures { result ≡ printed }
{
    std::array::from_fn(|at| printed_at(at))
}

fn main(rt: HostRuntime) -> io::Result<()> {
    let out = make_table();
    io::writer(&rt).write_all(&out)
}
