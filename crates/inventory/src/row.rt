// A row, written as a line of an inventory.
ghost use Rattle.std.specs.Prelude.{◌≡◌, IfOk, string_bytes};
ghost use Rattle.inventory.specs.Rows.{label_text, row_text, ReadsBack};

use kinds::label::Label;
use kinds::rows::slot::SlotRow;
use std::alloc::{AllocError, Global};

// The eight bytes of a label, or question marks where the number is no label.
pub fn label_text(number: u64) -> [u8; 8]
    ensures { result ≡ label_text number }
{
    match Label::try_from(number) {
        Ok(label) => label.to_bytes(),
        Err(_) => *b"????????",
    }
}

// The line that is read as this row; one with question marks where the row's number is no label. No `Display`:
// the row is another crate's type, and a wrapper around it would be no plainer.
pub fn write_row(heap: Global, row: SlotRow) -> Result<String, AllocError>
    ensures text { IfOk result (λ s. string_bytes s ≡ row_text row) }
    ensures back { ReadsBack row }
{
    let bytes = label_text(row.label);
    let label = String::from_utf8_lossy(heap, &bytes)?;
    let address = row.address;
    let gigabytes = row.gigabytes;
    let day = row.day;
    format!(in heap; "{address} {label} {gigabytes} {day}")
}
