//! A job from its load to its unloading, on a cell of one machine.
use cell_base::{JobId, Request, ResId, TypeId};

/// The part is loaded.
pub const LOAD: Request = Request::Load {
    job: JobId(7),
    kind: TypeId(0),
};

/// It is worked on, on the machine.
pub const PROCESS: Request = Request::Process { machine: ResId(0) };

/// It is unloaded.
pub const UNLOAD: Request = Request::Unload { job: JobId(7) };

/// All three, in their order.
pub const JOB: [Request; 3] = [LOAD, PROCESS, UNLOAD];
