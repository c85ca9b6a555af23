//! An attribute of an element.

use beep_chars::Text;

/// A name and what it is set to.
#[derive(Debug, Drop)]
pub struct Attr {
    pub name: Text,
    pub value: Text,
}
