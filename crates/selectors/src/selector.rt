//! A name by which members of objects are looked for.

use code_units::Text;

/// A name by which members of objects are looked for. A setter, and the setting side of a variable, has `=` behind its
/// name.
#[derive(Debug, Drop)]
pub struct Selector {
    pub text: Text,
    /// The file that alone has it, where it begins with `_`.
    pub home: Option<u32>,
}
