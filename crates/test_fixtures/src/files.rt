//! The same cells as the texts of their files.

/// The file of `crossing`.
pub const CROSSING: &[u8; 190] = b"version = 1
[[resource]]
name = \"M1\"
capacity = 1
order = 1
[[resource]]
name = \"M2\"
capacity = 1
order = 2
[[type]]
name = \"A\"
route = [\"M1\", \"M2\"]
[[type]]
name = \"Z\"
route = [\"M2\", \"M1\"]
";
