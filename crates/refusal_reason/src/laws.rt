//! Facts about refusals and about the text that shows a cell, each the contract of a function that does nothing.
ghost use Rattle.std.specs.Prelude.{◌≡◌};
ghost use Rattle.std.specs.List.{All};
ghost use Rattle.cell_base.specs.declared.requests.Reply.TheVariants.{Refused};
ghost use Rattle.cell_base.specs.Outcomes.{reply_to};
ghost use Rattle.cell_base.specs.Fits.{CellFits, RequestFits};
ghost use Rattle.refusal_reason.specs.Reasons.{IsPresent};
ghost use Rattle.refusal_reason.specs.Shown.{IsLine, show_lines};

use admission_core::Core;
use admission_core::laws::core_law;
use cell_base::{Cell, Refusal, Request};

/// The refusal of a request in the present state is a present one.
pub fn refusal_is_present(core: &Core, request: &Request, refusal: &Refusal)
    requires request { RequestFits core.now.cell request.now }
    requires refused { reply_to core.now.cell core.now.parts request.now ≡ Refused refusal.now }
    ensures { IsPresent core.now.cell core.now.parts refusal.now }
{
    core_law(core);
}

/// Each line that shows a cell has one newline, at its end.
pub fn show_lines_are_lines(cell: &Cell)
    requires { CellFits cell.now }
    ensures { All IsLine (show_lines cell.now) }
{}
