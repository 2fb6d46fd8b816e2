//! The words that the process was called with.

use psc_text::{NoMemory, Text};
use std::env;
use std::io::ErrorKind;

/// The words behind the program's name.
///
/// No words where one of them is no text, since no command has such a word.
pub fn words(rt: HostRuntime) -> Result<Vec<Text>, NoMemory> {
    let mut words = Vec::new(rt.alloc());
    match env::args(&rt) {
        Ok(arguments) => {
            for argument in arguments.skip(1) {
                words.push(Text::from_string(argument)?)?;
            }
            Ok(words)
        }
        Err(error) if error.kind() == ErrorKind::OutOfMemory => Err(NoMemory),
        Err(_) => Ok(words),
    }
}
