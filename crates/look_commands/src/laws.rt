//! Facts about what `grants` prints, each the contract of a function that does nothing.
ghost use Rattle.std.specs.Prelude.{◌≡◌, ◌∷◌, ℕ, [], List as Items, All, Ok};
ghost use Rattle.journal_format.specs.Replayed.{AreDue};
ghost use Rattle.cell_texts.specs.Clauses.{CellFits, record_reads};
ghost use Rattle.look_commands.specs.Clauses.{AreBlocks, Block, Yes, judge, text_of_block};
ghost use Rattle.look_commands.specs.Grants.{GrantInRange, block_of_grants};

use cell_base::{Cell, Grant};

/// The record of grants that a cell was granted in turn is right.
pub fn record_of_grants_is_right(cell: &Cell, grants: &[Grant])
    requires cell { CellFits cell.now }
    requires due { AreDue cell.now grants.now }
    ensures { judge cell.now (block_of_grants cell.now grants.now ∷ []) ≡ Yes }
{}

/// It has a text, and whatever blocks that text is read as are right: so `check` says yes to what `grants` prints, or refuses it for its
/// length alone.
pub fn text_of_grants_is_right(cell: &Cell, grants: &[Grant])
    requires cell { CellFits cell.now }
    requires due { AreDue cell.now grants.now }
    requires range { All GrantInRange grants.now }
    ensures written { AreBlocks cell.now (block_of_grants cell.now grants.now ∷ []) }
    ensures right { (text : Items ℕ) (blocks : Items Block) → text ≡ text_of_block cell.now (block_of_grants cell.now grants.now)
        → record_reads cell.now text (Ok blocks) → judge cell.now blocks ≡ Yes }
{}
