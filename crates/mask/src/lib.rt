// What is wrong with a mask in memory, its sides and its cells.
#![tactic(auto)]

ghost use Rattle.std.specs.Prelude.{◌≡◌};
ghost use Rattle.std.specs.List.{list_all};
ghost use Rattle.mask.specs.Fault.{is_cell, fault, error_number, told_fault};

use ink::{Mask, cell_count};

// What is wrong with a mask, by its number.
#[derive(Clone, Copy, Debug, PartialEq, Eq)]
pub enum MaskError {
    ZeroSide = 52,
    CellCount = 53,
    CellValue = 54,
}

impl From<MaskError> for u32 {
    ghost from_gives = { λ e n. n ≡ error_number e };

    fn from(e: MaskError) -> u32 {
        e as u32
    }
}

// Ink, which is 0, or none, which is 255.
fn is_cell(x: u8) -> bool
    ensures { result ≡ is_cell x }
{
    x == 0 || x == 255
}

fn all_cells(cells: &[u8]) -> bool
    ensures { result ≡ list_all is_cell cells.now }
{
    cells.iter().all(|x| is_cell(*x))
}

// Checked in this order: no side is zero, the cells are width times height, and each is 0 or 255.
#[tactic(auto, using(crate::proofs::Laws::cells_tested), unfolding(crate::specs::Fault::fault))]
pub fn check_mask(mask: Mask<'_>) -> Result<(), MaskError>
    ensures { told_fault result ≡ fault mask.entry.width mask.entry.height mask.entry.cells.now }
{
    if mask.width == 0 || mask.height == 0 {
        return Err(MaskError::ZeroSide);
    }
    if mask.cells.len() as u64 != cell_count(mask.width, mask.height) {
        return Err(MaskError::CellCount);
    }
    if !all_cells(mask.cells) {
        return Err(MaskError::CellValue);
    }
    Ok(())
}
