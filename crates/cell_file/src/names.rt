//! Names, each different from those before it.
ghost use Rattle.std.specs.Prelude.{◌≡◌, ◌≢◌, All, ◌++◌, [], ◌∷◌, true, not, IfOk, IfErr};
ghost use Rattle.std.specs.List.{list_any};
ghost use Rattle.std.specs.Str.{bytes_eq};
ghost use Rattle.toml.specs.View.{table_view};
ghost use Rattle.toml_walk.specs.Documents.{texts};
ghost use Rattle.cell_file.specs.Faults.{Gives};
ghost use Rattle.cell_file.specs.Names.{fresh_name, IsNewName};

use crate::faults::CellFault;
use cell_base::{Name, Place};
use indexmap::IndexSet;
use toml::Table;
use toml_walk::string_at;

/// The name at the key `name`, which is added to the names before it.
#[tactic(auto, unfolding(crate::specs::Names::fresh_name))]
pub fn fresh_name<'a>(
    place: Place,
    names: &mut IndexSet<&'a [u8]>,
    table: &'a Table,
) -> Result<Name, CellFault>
    ensures name { Gives result (fresh_name place (texts names.old.keys) (table_view table.now)) }
    ensures new { IfOk result (IsNewName (texts names.old.keys) (texts names.new.keys)) }
{
    let text = string_at(place, "name", table)?;
    let name = match Name::read(text.as_bytes()) {
        Some(name) => name,
        None => return Err(CellFault::BadName { place }),
    };
    if add(names, text.as_bytes())? {
        Ok(name)
    } else {
        Err(CellFault::Repeated { place })
    }
}

// Adds a text, and says whether it is new.
#[tactic(auto, using(toml_walk::proofs::Keys::any_text))]
fn add<'a>(names: &mut IndexSet<&'a [u8]>, text: &'a [u8]) -> Result<bool, CellFault>
    ensures new { IfOk result (λ added. added ≡ not (list_any (bytes_eq text.now) (texts names.old.keys))) }
    ensures last { IfOk result (λ added. added ≡ true → texts names.new.keys ≡ texts names.old.keys ++ text.now ∷ []) }
    ensures differs { IfOk result (λ added. added ≡ true → All (λ t. t ≢ text.now) (texts names.old.keys)) }
    ensures memory { IfErr result (λ fault. fault ≡ CellFault.Memory) }
{
    Ok(names.insert(text)?)
}
