//! Why files can't be opened or created, told behind the lines that say so.

ghost use Rattle.std.specs.Prelude.{None};

use pg_codec::{Failed, Sink, put_all};
use std::cell::Cell;
use std::io::ErrorKind;

/// Tells why a file can't be opened or created, behind the line that says so, where the system
/// gives one of these reasons.
fn tell_why<E: Sink>(errors: &mut E, why: Option<ErrorKind>) {
    let line: &[u8] = match why {
        Some(ErrorKind::NotFound) => b"pcid-audit: no such file or directory\n",
        Some(ErrorKind::PermissionDenied) => b"pcid-audit: permission denied\n",
        Some(ErrorKind::NotADirectory) => b"pcid-audit: a part of its path is no directory\n",
        Some(ErrorKind::IsADirectory) => b"pcid-audit: it is a directory\n",
        _ => b"",
    };
    let _ = put_all(errors, line);
}

/// A sink that gives to another sink what it gets and, behind the first line that ends once there
/// is a reason, tells that reason through a third one. Whether that takes it changes nothing.
#[derive(Drop)]
pub(crate) struct Reasoned<'a, E, W> {
    pub(crate) errors: E,
    pub(crate) why: &'a Cell<Option<ErrorKind>>,
    pub(crate) reasons: W,
}

impl<'a, E: Sink, W: Sink> Sink for Reasoned<'a, E, W> {
    ghost held = { λ _. None };

    ghost failed = { λ r. E.failed r.errors };

    fn put(&mut self, bytes: &[u8]) -> Result<usize, Failed> {
        match self.errors.put(bytes) {
            Ok(taken) => {
                if taken == bytes.len() && bytes.last() == Some(&b'\n') {
                    tell_why(&mut self.reasons, self.why.get());
                    self.why.set(None);
                }
                Ok(taken)
            }
            Err(failed) => Err(failed),
        }
    }

    fn failures(&self) -> u64 {
        self.errors.failures()
    }
}
