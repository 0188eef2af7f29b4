// Expected: a text that is to be written, as a writer that refuses any other.
use std::fmt;

// What is still to be written.
#[derive(Drop)]
pub struct Expected<'a> {
    pub rest: &'a [u8],
}

impl fmt::Write for Expected<'_> {
    fn write_str(&mut self, text: &str) -> fmt::Result {
        self.rest = self.rest.strip_prefix(text.as_bytes()).ok_or(fmt::Error)?;
        Ok(())
    }
}
