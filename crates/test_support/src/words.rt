//! The arguments of a system, and texts with several parts.

use std::env::{Env, FillError};

/// The arguments of a system, the program's name first.
#[derive(Drop)]
pub struct Given<'a> {
    /// Each as its bytes, which may not be UTF-8.
    pub words: &'a [&'a [u8]],
}

impl Env for Given<'_> {
    fn arg(&self, i: usize, buf: &mut [u8]) -> Result<usize, FillError> {
        let Some(word) = self.words.get(i) else {
            return Err(FillError::NotPresent);
        };
        if word.len() > buf.len() {
            return Err(FillError::TooLong);
        }
        buf[..word.len()].copy_from_slice(word);
        Ok(word.len())
    }

    fn var(&self, _name: &str, _buf: &mut [u8]) -> Result<usize, FillError> {
        Err(FillError::NotPresent)
    }

    fn var_at(&self, _i: usize, _buf: &mut [u8]) -> Result<usize, FillError> {
        Err(FillError::NotPresent)
    }
}

/// Whether the text has each of these parts.
pub fn has_all(text: &[u8], parts: &[&str]) -> bool {
    let Ok(text) = std::str::from_utf8(text) else {
        return false;
    };
    for part in parts {
        if !text.contains(*part) {
            return false;
        }
    }
    true
}
