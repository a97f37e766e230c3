//! What a durable cell keeps of the grants of its opening.
ghost use base.Fml.{ftrue};
ghost use Rattle.std.specs.Prelude.{◌≡◌, List as Sequence, [], ◌∷◌, ◌++◌, OnOk};
ghost use Rattle.cell_base.specs.declared.shifts.Grant.{Grant as OneGrant};

use cell_base::{Grant, List, NoMemory};
use std::marker::{Model, PhantomData};

/// What is kept of grants that come one after the other. Contracts see which they were.
pub trait Recall: Drop {
    /// The grants that came.
    ghost grants: { Self → Sequence OneGrant };

    /// One grant more comes.
    fn recall(&mut self, grant: &Grant) -> Result<(), NoMemory>
        ensures { OnOk result (grants self.new ≡ grants self.old ++ grant.now ∷ []) };
}

/// A list keeps them.
impl Recall for List<Grant> {
    ghost grants = { λ list. list };

    fn recall(&mut self, grant: &Grant) -> Result<(), NoMemory> {
        self.try_push(*grant)
    }
}

/// Grants of which nothing is kept at run time: it has no bytes, and contracts alone read which they were.
pub struct Recalled {
    marker: PhantomData<Grant>,
    pub(crate) ghost items: { Sequence OneGrant },
}

impl Model for Recalled {
    ghost also_owns = { λ _. ftrue };
}

impl Recall for Recalled {
    ghost grants = { λ recalled. recalled.items };

    fn recall(&mut self, grant: &Grant) -> Result<(), NoMemory> {
        *self = Recalled::with(self, grant);
        Ok(())
    }
}

impl Recalled {
    /// No grants.
    pub(crate) fn none() -> Recalled
        ensures { result.items ≡ [] }
    {
        Recalled {
            marker: PhantomData,
        }
    }

    /// Some grants, and one more.
    pub(crate) fn with(earlier: &Recalled, grant: &Grant) -> Recalled
        ensures { result.items ≡ earlier.now.items ++ grant.now ∷ [] }
    {
        let _ = earlier;
        let _ = grant;
        Recalled {
            marker: PhantomData,
        }
    }
}

impl Drop for Recalled {
    fn drop(self) {
        let Self { marker: _ } = self;
    }
}

unsafe impl Send for Recalled {}
