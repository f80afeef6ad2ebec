use pg_guest::ScriptError;
use pg_runner::RunError;
use thiserror::Error;

/// Why a guest script gives no answer.
#[derive(Clone, Copy, Debug, Error)]
pub enum GuestError {
    /// The input has more than 134,217,728 bytes.
    #[error("the script has more than 134,217,728 bytes")]
    TooLong,
    /// The input is no script.
    #[error("the input is no script: {0}")]
    Script(ScriptError),
    /// The run came to nothing, or memory was refused while the script was taken in.
    #[error("the run came to nothing: {0}")]
    Run(RunError),
    /// The input or the output failed.
    #[error("the input or the output failed")]
    Device,
}
