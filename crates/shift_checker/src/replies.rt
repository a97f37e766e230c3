//! Replies, as the walk looks at them.
ghost use Rattle.std.specs.Prelude.{◌≡◌};
ghost use Rattle.cell_base.specs.Histories.{is_granted};
ghost use Rattle.shift_checker.specs.Replies.{same_reply};

use cell_base::Reply;

/// Whether two replies are the same.
pub fn same_reply(reply: Reply, other: Reply) -> bool
    ensures { result ≡ same_reply reply other }
{
    reply == other
}

/// Whether a reply is a grant.
pub fn is_granted(reply: Reply) -> bool
    ensures { result ≡ is_granted reply }
{
    matches!(reply, Reply::Granted)
}
