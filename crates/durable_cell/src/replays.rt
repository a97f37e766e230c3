//! The replay of a journal's grants, as they are read.
ghost use Rattle.std.specs.Prelude.{◌≡◌, ℕ, ◌+◌, ◌*◌, List as Sequence, [], ◌∷◌, ◌++◌, length, true};
ghost use Rattle.cell_base.specs.declared.shifts.Grant.{Grant as OneGrant};
ghost use Rattle.cell_base.specs.Outcomes.{state_after};
ghost use Rattle.admission_core.specs.CoreState.{CoreState};
ghost use Rattle.journal_format.specs.Replayed.{is_due};
ghost use Rattle.durable_cell.specs.Replays.{HasReplayed};

use admission_core::Core;
use cell_base::{Grant, NoMemory, Reply, Request, request_fits};
use entry_codec::ENTRY_SIZE;
use shift_recovery::GrantVisitor;

/// The most grants of a journal for which there may be room, and the most entries of a history.
pub const MAX_ROOM: u64 = 2_097_152;

/// The most grants of a journal to which sessions add: after them it has room for a drain, however many parts stand in the cell.
pub const MAX_BEFORE_DRAIN: u64 = 1_572_864;

/// A core that takes the steps of a journal's grants, up to the first that does not fit the cell or is not granted in its turn; where
/// the gate of that one stands; and who else is to have the grants. After a stray what the core holds is not to be used.
#[derive(Drop)]
pub(crate) struct Replay<K> {
    pub(crate) core: Core,
    pub(crate) stray: Option<u64>,
    pub(crate) kept: K,
}

impl<K: GrantVisitor> GrantVisitor for Replay<K> {
    ghost visited = { λ start first grants now. HasReplayed start.core first grants now.core now.stray
        × K.visited start.kept first grants now.kept };

    fn visit(&mut self, at: u64, grant: Grant) -> Result<(), NoMemory> {
        self.stray = replay_one(&mut self.core, self.stray, at, &grant);
        self.kept.visit(at, grant)
    }
}

// Replays a grant more, whose gate stands at an offset. Gives where the first stray stands.
#[inline(always)]
fn replay_one(core: &mut Core, stray: Option<u64>, at: u64, grant: &Grant) -> Option<u64>
    ensures { (start : CoreState) (first : ℕ) (grants : Sequence OneGrant) → at ≡ first + ENTRY_SIZE * length grants
        → HasReplayed start first grants core.old stray → HasReplayed start first (grants ++ grant.now ∷ []) core.new result }
{
    match stray {
        Some(gate) => Some(gate),
        None => {
            if is_taken(core, &grant.request) {
                None
            } else {
                Some(at)
            }
        }
    }
}

// Takes the step of a request that fits the cell and is granted now. Gives whether it is.
#[inline(always)]
fn is_taken(core: &mut Core, request: &Request) -> bool
    ensures due { result ≡ is_due core.old.cell core.old.parts request.now }
    ensures cell { core.new.cell ≡ core.old.cell }
    ensures state { result ≡ true → core.new.parts ≡ state_after core.old.cell core.old.parts request.now }
{
    request_fits(core.cell(), request) && core.ask(request) == Reply::Granted
}
