//! What can't be seen of a line that is refused for it. Each text goes on after what names the line.

/// The mark that some editors and libraries put before a text.
pub const BYTE_ORDER_MARK: &[u8] = b"\xef\xbb\xbf";

/// It begins with that mark.
pub const BEGINS_WITH_MARK: &str = ", which begins with a byte order mark";

/// It ends as the lines of some other systems do.
pub const ENDS_IN_RETURN: &str = ", which ends in a carriage return; lines end in a newline alone";
