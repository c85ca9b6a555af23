//! The fields of a line.

use crate::bad::Bad;

/// The fields of a line that are left: what stands before, between and after ` | `.
#[derive(Clone, Copy, Debug)]
pub struct Fields<'a> {
    rest: Option<&'a str>,
}

impl<'a> Fields<'a> {
    /// All fields of a line.
    pub fn of(line: &'a str) -> Fields<'a> {
        Fields { rest: Some(line) }
    }

    /// The next field.
    pub fn next(&mut self) -> Result<&'a str, Bad> {
        let Some(text) = self.rest else {
            return Err(Bad::Field);
        };
        match text.split_once(" | ") {
            Some((field, rest)) => {
                self.rest = Some(rest);
                Ok(field)
            }
            None => {
                self.rest = None;
                Ok(text)
            }
        }
    }

    /// The number that the next field is.
    pub fn number(&mut self) -> Result<u32, Bad> {
        number_of(self.next()?)
    }
}

/// The number that a text is.
pub fn number_of(text: &str) -> Result<u32, Bad> {
    match text.parse::<u32>() {
        Ok(number) => Ok(number),
        Err(_) => Err(Bad::Field),
    }
}
