//! A fact about documents, the contract of a function that does nothing.
ghost use Rattle.std.specs.Prelude.{◌≡◌, ◌≤◌, length};
ghost use Rattle.toml.specs.Data.{Members};
ghost use Rattle.toml.specs.Parse.{parse_document};
ghost use Rattle.toml_walk.specs.Widths.{members_width};

/// Each array of a document has at most as many elements as the text has bytes.
pub fn arrays_are_bounded(text: &[u8])
    ensures { (ms : Members) → parse_document text.now ≡ Some ms → members_width ms ≤ length text.now }
{}
