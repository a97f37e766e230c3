//! One decided request of a hybrid's history.
ghost use Rattle.std.specs.Prelude.{◌≡◌};
ghost use Rattle.hybrid_rounds.specs.Histories.{taken, taken_reply};

use banker_check::HybridReply;
use cell_base::{Entry, Refusal, Reply, Request, Told};

/// What a session asked a hybrid for, and was told.
#[derive(Clone, Copy, Debug, PartialEq, Eq)]
pub struct HybridEntry {
    pub session: u16,
    pub request: Request,
    pub told: HybridReply,
}

/// A reply as a session takes it: a block is a refusal by the neighborhood that it names.
pub fn taken_reply(reply: HybridReply) -> Reply
    ensures { result ≡ taken_reply reply }
{
    match reply {
        HybridReply::Granted => Reply::Granted,
        HybridReply::Refused(why) => Reply::Refused(why),
        HybridReply::Blocked {
            at,
            count,
            capacity,
            ..
        } => Reply::Refused(Refusal::Saturated {
            at,
            count,
            capacity,
        }),
    }
}

/// An entry as its session takes it.
pub fn taken(entry: &HybridEntry) -> Entry
    ensures { result ≡ taken entry.now }
{
    Entry {
        session: entry.session,
        request: entry.request,
        told: Told::Answered(taken_reply(entry.told)),
    }
}
