//! What a session asks for, and in which text.

use cell_base::Request;

/// A request of a session, and the text in which it is asked for: the answer to it begins with this text.
#[derive(Clone, Copy)]
pub struct SessionRequest<'a> {
    pub session: u16,
    pub request: Request,
    pub text: &'a [u8],
}
