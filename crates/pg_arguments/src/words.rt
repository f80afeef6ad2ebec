//! The words that a program was started with.

ghost use Rattle.std.specs.Prelude.{◌≡◌, ◌≤◌, map, drop, length, IsOk, IfOk, string_bytes};

use std::alloc::{AllocError, AllocGlobal, Global};
use std::env::{self, Env};
use std::io::ErrorKind;

/// Why a program has no words to go by.
pub enum NoWords {
    /// One of them is no UTF-8 text.
    NoText,
    Memory,
}

/// The program's name, and the words after it.
pub fn arguments<T: Env + AllocGlobal>(rt: &T) -> Result<Vec<String>, NoWords> {
    match env::args(rt) {
        Ok(arguments) => {
            let mut all = Vec::new(rt.alloc());
            for argument in arguments {
                if all.push(argument).is_err() {
                    return Err(NoWords::Memory);
                }
            }
            Ok(all)
        }
        Err(error) if error.kind() == ErrorKind::InvalidData => Err(NoWords::NoText),
        Err(_) => Err(NoWords::Memory),
    }
}

/// The words after the first. Fails where memory is refused, which none asks for where there are
/// no such words.
pub fn words_of(alloc: Global, arguments: &[String]) -> Result<Vec<&str>, AllocError>
    ensures none { length arguments.now ≤ 1 → IsOk result }
    ensures words { IfOk result (λ words. map (λ w. w.now) words.items
        ≡ map string_bytes (drop 1 arguments.now)) }
{
    let mut words = Vec::new(alloc);
    for argument in arguments.get(1..).unwrap_or(&[]) {
        words.push(argument.as_str())?;
    }
    Ok(words)
}
