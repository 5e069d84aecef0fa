// The overdue report, as values: the program only prints it.
ghost use Rattle.std.specs.Prelude.{◌≡◌, ℕ, [], ◌++◌, length, IfOk, OnOk};
ghost use Rattle.book.specs.Keyed.{if_so, latest};
ghost use Rattle.book.specs.Lists as lists;
ghost use Rattle.inventory.specs.Lines.{lines_of};
ghost use Rattle.inventory.specs.Reports.{after, remarks, noted, notes_from, rows_of, saying, inventory};
ghost use Rattle.kinds.specs.contracts.rows.slot.SlotRowKind.TheImpl.{ghosts};

use crate::line::Line;
use crate::note::{Note, Remark};
use crate::text::read_text;
use book::laws::{keys_keep_rising, told_key_by_key};
use book::sorted::{SortedVec, sift, total};
use kinds::rows::slot::SlotRow;
use std::alloc::{AllocError, Global};

// The cartridges by address, and what there is to say of lines.
#[derive(Drop)]
struct Stock {
    rows: SortedVec<SlotRow>,
    notes: Vec<Note>,
}

impl Stock {
    // One line more, with its number.
    fn add(&mut self, number: usize, line: Line) -> Result<(), AllocError>
        ensures rows { OnOk result (self.new.rows ≡ after line self.old.rows) }
        ensures notes { OnOk result (self.new.notes.items ≡ self.old.notes.items ++ noted number (remarks line self.old.rows)) }
    {
        match line {
            Ok(row) => {
                if self.rows.put(row)? {
                    let remark = Remark::Repeated {
                        address: row.address,
                    };
                    self.notes.push(Note {
                        line: number,
                        remark,
                    })?;
                }
            }
            Err(None) => {}
            Err(Some(fault)) => {
                self.notes.push(Note {
                    line: number,
                    remark: Remark::Faulty(fault),
                })?;
            }
        }
        Ok(())
    }
}

// All lines, in their order.
fn take_stock(heap: Global, lines: &[Line]) -> Result<Stock, AllocError>
    ensures rows { IfOk result (λ s. s.rows ≡ lists.build ghosts.ops (rows_of lines.now)) }
    ensures notes { IfOk result (λ s. s.notes.items ≡ notes_from 1 [] lines.now) }
{
    let mut stock = Stock {
        rows: SortedVec::new(heap),
        notes: Vec::new(heap),
    };
    for (number, line) in (1..).zip(lines) {
        stock.add(number, *line)?;
    }
    Ok(stock)
}

// What the report tells of an inventory.
#[derive(Drop)]
pub struct Report {
    // How many lines were read.
    pub lines: usize,
    pub notes: Vec<Note>,
    pub cartridges: usize,
    // The gigabytes in all and the earliest check day, by the slot kind's own measure and combine.
    pub total: (u64, u16),
    // The cartridges whose check day is below the limit, by address.
    pub overdue: Vec<SlotRow>,
}

// The report of an inventory, for checks that are due before a day. Told by address: the last line with that address that is not
// refused is overdue where its day is below the limit, and no other line is.
pub fn overdue_report(heap: Global, text: &[u8], limit: u16) -> Result<Report, AllocError>
    ensures lines { IfOk result (λ p. p.lines ≡ length (lines_of text.now)) }
    ensures notes { IfOk result (λ p. p.notes.items ≡ notes_from 1 [] (saying text.now)) }
    ensures cartridges { IfOk result (λ p. p.cartridges ≡ length (inventory text.now)) }
    ensures total { IfOk result (λ p. p.total ≡ lists.total ghosts.ops (inventory text.now)) }
    ensures overdue { IfOk result (λ p. p.overdue.items ≡ lists.sift ghosts.ops limit (inventory text.now)) }
    ensures by_address { IfOk result (λ p. (a : ℕ) → lists.find ghosts.ops a p.overdue.items ≡ if_so (lists.passing ghosts.ops limit) (latest ghosts.ops a (rows_of (saying text.now)))) }
{
    // The laws of the book that the last clause rests on.
    keys_keep_rising::<SlotRow>();
    told_key_by_key::<SlotRow>();
    let said = read_text(heap, text)?;
    let stock = take_stock(heap, said.as_slice())?;
    let Stock { rows, notes } = stock;
    let cartridges = rows.as_slice().len();
    let total = total(rows.as_slice());
    let overdue = sift(heap, rows.as_slice(), limit)?;
    Ok(Report {
        lines: said.len(),
        notes,
        cartridges,
        total,
        overdue,
    })
}
